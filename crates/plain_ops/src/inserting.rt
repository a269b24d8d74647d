// The insertion of a triangle.
ghost use Rattle.grid.specs.Boxes.{IsInBox};
ghost use Rattle.grid.specs.Envelopes.{triangle_at};
ghost use Rattle.grid.specs.Limits.{largest_side, most_epsilon, most_points};
ghost use Rattle.grid.specs.Meshes.{IsWellFormed, IsWithinLimits};
ghost use Rattle.grid.specs.Views.{triples_of};
ghost use Rattle.mesh_types.specs.declared.outcome.Outcome;
ghost use Rattle.mesh_types.specs.Insertion.{IsInsertion};
ghost use Rattle.mesh_types.specs.Tracking.{with_tracked};
ghost use Rattle.mesh_types.specs.Views.{mesh_of};
ghost use Rattle.plain_ops.specs.CutMeshes.{IsCutFrom};
ghost use Rattle.std.specs.Prelude.{All, IfOk, length, nat_abs, pos, ◌+◌, ◌<◌, ◌≡◌, ◌≤ℤ◌, ◌≤◌};

use crate::cutting::{copy_of, cut};
use crate::judging::first_defect;
use crate::wanted::section;
use cutting_rule::{CuttingTriangle, sort_faces_once};
use envelope_tree::Envelope;
use grid::{Face, Memory, Point};
use items::Items;
use mesh_types::{Defect, Lists, Outcome};
use planes::plane_of;
use std::alloc::Global;

/// The mesh after an insertion, and the outcome.
#[derive(Drop)]
pub struct PlainInsert {
    pub mesh: Lists,
    pub outcome: Outcome,
}

// The mesh as it was, and the defect.
fn roll_back(alloc: Global, mesh: &Lists, defect: Defect) -> Result<PlainInsert, Memory>
    ensures { IfOk result (λ r. r ≡ record { mesh = mesh.now; outcome = Outcome.RolledBack defect }) }
{
    let copy = copy_of(alloc, mesh)?;
    Ok(PlainInsert {
        mesh: copy,
        outcome: Outcome::RolledBack(defect),
    })
}

// How many points the second list has beyond the first.
fn more_points(before: &[Point], after: &[Point]) -> u32
    requires longer { length before.now ≤ length after.now }
    requires few { length after.now ≤ most_points }
    ensures { length before.now + result ≡ length after.now }
{
    (after.len() - before.len()) as u32
}

// The mesh with these faces tracked too.
fn tracking(cut: Lists, faces: &[Face]) -> Result<Lists, Memory>
    ensures { IfOk result (λ m. mesh_of m ≡ with_tracked (mesh_of cut) (triples_of faces.now)) }
{
    let mut tracked = cut.tracked.into_vec();
    tracked.extend_from_slice(faces)?;
    sort_faces_once(&mut tracked);
    Ok(Lists {
        points: cut.points,
        tets: cut.tets,
        tracked: Items::from_vec(tracked),
        made: cut.made,
    })
}

// The mesh with the section tracked where there is no defect, else the mesh before.
fn settle(
    alloc: Global,
    mesh: &Lists,
    cut: Lists,
    triangle: &CuttingTriangle,
    env: &Envelope,
    t: u32,
    e: u32,
) -> Result<PlainInsert, Memory>
    requires there { t < length env.now }
    requires e_in { e ≤ most_epsilon }
    requires triangle { triangle.now ≡ triangle_at env.now t }
    requires cut { IsCutFrom (mesh_of mesh.now) (triangle_at env.now t) cut }
    ensures { IfOk result (λ r. IsInsertion env.now t e (mesh_of mesh.now) r.outcome (mesh_of r.mesh)) }
{
    let faces = section(alloc, &cut, triangle)?;
    let found = first_defect(alloc, mesh, &cut, triangle, &faces, env, t, e)?;
    match found {
        Some(defect) => {
            let undone = roll_back(alloc, mesh, defect)?;
            Ok(undone)
        }
        None => {
            let points = more_points(mesh.points.as_slice(), cut.points.as_slice());
            let after = tracking(cut, &faces)?;
            Ok(PlainInsert {
                mesh: after,
                outcome: Outcome::Inserted { points },
            })
        }
    }
}

/// Inserts triangle t of the envelope: the four phases cut the mesh, and the faces of the section are
/// tracked. Where that leaves a defect, the mesh is as it was, and the first defect is answered with
/// the points that show it. The points lie in the box from 0 to `side`, and `e` is in grid steps.
pub fn insert_plain(
    alloc: Global,
    mesh: &Lists,
    env: &Envelope,
    t: u32,
    e: u32,
    side: i32,
) -> Result<PlainInsert, Memory>
    requires well_formed { IsWellFormed (mesh_of mesh.now) }
    requires within { IsWithinLimits (mesh_of mesh.now) }
    requires side_low { pos 0 ≤ℤ side }
    requires side_high { side ≤ℤ pos largest_side }
    requires in_box { All (IsInBox (nat_abs side)) mesh.now.points }
    requires there { t < length env.now }
    requires e_low { 1 ≤ e }
    requires e_high { e ≤ most_epsilon }
    ensures { IfOk result (λ r. IsInsertion env.now t e (mesh_of mesh.now) r.outcome (mesh_of r.mesh)) }
{
    let tri = env.triangle(t);
    if plane_of(tri).is_none() {
        let undone = roll_back(alloc, mesh, Defect::Degenerate)?;
        return Ok(undone);
    }
    let triangle = CuttingTriangle::new(&tri);
    let found = cut(alloc, mesh, &triangle)?;
    match found {
        None => {
            let undone = roll_back(alloc, mesh, Defect::Full)?;
            Ok(undone)
        }
        Some(cut) => settle(alloc, mesh, cut, &triangle, env, t, e),
    }
}
