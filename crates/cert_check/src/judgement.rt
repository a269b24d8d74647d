//! The judgement of a mesh file and its report.

ghost use Rattle.std.specs.Prelude.{◌≡◌, ◌*◌, ◌^◌, ℕ, Option, pos, unsigned_abs, length, All, Ok, IfOk};
ghost use Rattle.grid.specs.Boxes.{IsInBox};
ghost use Rattle.grid.specs.Limits.{IsSide, largest_side};
ghost use Rattle.grid.specs.Views.{corners_of};
ghost use Rattle.msh_text.specs.Rules.{MshRules};
ghost use Rattle.report_text.specs.Answers.{ReportRules};
ghost use Rattle.report_text.specs.declared.report.Report.{Report};
ghost use Rattle.cert_check.specs.Conditions.{IsPlaced, IsMshMesh, IsReport};
ghost use Rattle.cert_check.specs.Faults.{case_of, IsFinding};
ghost use Rattle.cert_check.specs.FileMesh.{file_tets, points_from};
ghost use Rattle.cert_check.specs.Passed.{GoesOn};
ghost use Rattle.cert_check.specs.Sound.{ArePointsOfNodes, IsSound};
ghost use Rattle.cert_check.specs.declared.fault.Finding.{Finding};

use crate::coverings::first_not_covered;
use crate::fault::{Fault, Finding};
use crate::header::is_header;
use crate::points::{first_outside, points_of};
use crate::regions::first_of_other_region;
use crate::tets::{first_not_positive, tets_of, volume_of};
use crate::tracked::first_not_a_face;
use crate::triangle_lines::are_lines;
use face_table::{Paired, pairing};
use grid::{Memory, Point, Tet};
use msh_text::MshMesh;
use report_text::Report;
use soup::Soup;
use std::alloc::Global;

/// The first fault of the header and the nodes.
fn fault_of_nodes(
    soup: &Soup,
    mesh: &MshMesh,
    report: &Report,
    digits: Option<u32>,
) -> Option<Fault>
    requires soup { IsPlaced soup.now }
    requires mesh { IsMshMesh mesh.now }
    ensures { GoesOn (case_of soup.now mesh.now report.now digits) 0 2 result }
{
    if !is_header(soup, report, digits) {
        return Some(Fault::Header);
    }
    let nodes = mesh.nodes.as_slice();
    if let Some(number) = first_outside(nodes, &soup.shift, soup.side) {
        return Some(Fault::NotInBox(number));
    }
    None
}

/// Six times the volume of the box.
fn six_volumes(side: i32) -> i128
    requires { IsSide side }
    ensures { result ≡ pos (6 * unsigned_abs side ^ 3) }
{
    let side = u64::from(side.unsigned_abs());
    (6 * (side * side * side)) as i128
}

/// The first fault of the tetrahedra, where the header and the nodes have none.
fn fault_of_tets(
    alloc: Global,
    soup: &Soup,
    mesh: &MshMesh,
    points: &[Point],
    tets: &[Tet],
) -> Result<Option<Fault>, Memory>
    requires soup { IsPlaced soup.now }
    requires mesh { IsMshMesh mesh.now }
    requires points { points.now ≡ points_from soup.now.shift 0 mesh.now.nodes }
    requires in_box { All (IsInBox largest_side) points.now }
    requires tets { corners_of tets.now ≡ file_tets mesh.now.tets }
    ensures { IfOk result (λ found. (report : Report) (digits : Option ℕ) → GoesOn (case_of soup.now mesh.now report digits) 2 6 found) }
{
    let tagged = mesh.tets.as_slice();
    if let Some(number) = first_not_positive(points, tagged) {
        return Ok(Some(Fault::NotPositive(number)));
    }
    match pairing(alloc, tets, points, soup.side)? {
        Paired::Good => {}
        Paired::Twice(face) => return Ok(Some(Fault::Twice(face))),
        Paired::Loose(face) => return Ok(Some(Fault::Loose(face))),
    }
    let sum = volume_of(points, tagged);
    if sum != six_volumes(soup.side) {
        return Ok(Some(Fault::Volume(sum)));
    }
    Ok(None)
}

/// The first fault of the tracked triangles, the tags and the lines of the report, where the nodes
/// and the tetrahedra have none.
fn fault_of_triangles(
    alloc: Global,
    soup: &Soup,
    mesh: &MshMesh,
    report: &Report,
    points: &[Point],
    tets: &[Tet],
) -> Result<Option<Fault>, Memory>
    requires soup { IsPlaced soup.now }
    requires mesh { IsMshMesh mesh.now }
    requires report { IsReport report.now }
    requires points { points.now ≡ points_from soup.now.shift 0 mesh.now.nodes }
    requires in_box { All (IsInBox largest_side) points.now }
    requires tets { corners_of tets.now ≡ file_tets mesh.now.tets }
    ensures { IfOk result (λ found. (digits : Option ℕ) → GoesOn (case_of soup.now mesh.now report.now digits) 6 10 found) }
{
    let tagged = mesh.tets.as_slice();
    let tracked = mesh.tracked.as_slice();
    if let Some(place) = first_not_a_face(alloc, tets, tracked)? {
        return Ok(Some(Fault::NotAFace(tagged.len() as u32 + place)));
    }
    let triangles = soup.triangles.as_slice();
    let faces = report.faces.as_slice();
    if let Some(place) = first_not_covered(triangles, report.epsilon, points, tracked, faces) {
        return Ok(Some(Fault::NotCovered(place)));
    }
    if let Some(number) = first_of_other_region(alloc, tagged, tets, tracked)? {
        return Ok(Some(Fault::Region(number)));
    }
    if !are_lines(triangles, report) {
        return Ok(Some(Fault::TriangleLines(report.outcomes.len() as u32)));
    }
    Ok(None)
}

/// The first fault, if there is one.
fn first_fault(
    alloc: Global,
    soup: &Soup,
    mesh: &MshMesh,
    report: &Report,
    digits: Option<u32>,
) -> Result<Option<Fault>, Memory>
    requires soup { IsPlaced soup.now }
    requires mesh { IsMshMesh mesh.now }
    requires report { IsReport report.now }
    ensures { IfOk result (GoesOn (case_of soup.now mesh.now report.now digits) 0 10) }
{
    if let Some(fault) = fault_of_nodes(soup, mesh, report, digits) {
        return Ok(Some(fault));
    }
    let nodes = mesh.nodes.as_slice();
    let points = points_of(alloc, nodes, &soup.shift)?;
    let tagged = mesh.tets.as_slice();
    let tets = tets_of(alloc, tagged)?;
    if let Some(fault) = fault_of_tets(alloc, soup, mesh, &points, &tets)? {
        return Ok(Some(fault));
    }
    fault_of_triangles(alloc, soup, mesh, report, &points, &tets)
}

/// Judges a mesh file and its report for a placed soup and the digits behind the point that were asked
/// for, or None: Good where nothing is wrong, and else the first fault. Nothing is taken on trust but
/// that both texts keep the rules of their formats, as those do that were read. The time is near to
/// linear in the size of the files. The journal is not judged.
///
/// # Errors
/// `Memory`.
pub fn verify(
    alloc: Global,
    soup: &Soup,
    mesh: &MshMesh,
    report: &Report,
    digits: Option<u32>,
) -> Result<Finding, Memory>
    requires soup { IsPlaced soup.now }
    requires mesh { MshRules mesh.now.digits mesh.now }
    requires report { ReportRules report.now }
    // Good where no fault is there, and else the first one.
    ensures finding { IfOk result (IsFinding (case_of soup.now mesh.now report.now digits)) }
    // Where it is Good, the files are sound.
    ensures sound { result ≡ Ok Finding.Good → IsSound (case_of soup.now mesh.now report.now digits) }
    // The mesh that is judged has each node at its number.
    ensures points { ArePointsOfNodes (case_of soup.now mesh.now report.now digits) }
{
    let found = first_fault(alloc, soup, mesh, report, digits)?;
    match found {
        None => Ok(Finding::Good),
        Some(fault) => Ok(Finding::Bad(fault)),
    }
}
