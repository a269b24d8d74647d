// What a try makes of a mesh.
ghost use Rattle.grid.specs.Boxes.{IsInBox};
ghost use Rattle.grid.specs.Limits.{largest_side};
ghost use Rattle.grid.specs.Meshes.{IsWellFormed, IsWithinLimits};
ghost use Rattle.grid.specs.Simplices.{has, replaced};
ghost use Rattle.grid.specs.Views.{corners_of, triples_of};
ghost use Rattle.mesh_types.specs.Refines.{is_touched};
ghost use Rattle.mesh_types.specs.Results.{collapse, exchange, result_of, retracked, shift, split, unchanged};
ghost use Rattle.mesh_types.specs.Tries.{is_candidate};
ghost use Rattle.mesh_types.specs.Views.{mesh_of};
ghost use Rattle.plain_ops.specs.PlainResults.{result_in};
ghost use Rattle.std.specs.List.{filter};
ghost use Rattle.std.specs.Prelude.{All, IfOk, [], ◌∷◌, length, map, nat_abs, not, pos, true, ◌&&◌, ◌+◌, ◌<◌, ◌≡◌, ◌≤ℤ◌, ◌≤◌};

use crate::cutting::copy_of;
use crate::points::point_or_origin;
use crate::refining::{count_of, made_after, pieces_of, refine_plain};
use crate::swaps::{edge_swap, face_swap};
use crate::targets::{midpoint, target};
use cutting_rule::sort_faces_once;
use grid::{Face, Memory, Point, Tet};
use items::Items;
use mesh_types::{Cut, Lists, Try};
use pieces::is_touched;
use std::alloc::Global;

/// The mesh after a try, the tetrahedra that are gone from it and the new ones.
#[derive(Drop)]
pub(crate) struct PlainResult {
    pub mesh: Lists,
    pub gone: Vec<Tet>,
    pub fresh: Vec<Tet>,
}

/// What a candidate makes of the mesh, in the box from 0 to `side`.
pub(crate) fn result_of(
    alloc: Global,
    mesh: &Lists,
    side: i32,
    attempt: Try,
) -> Result<PlainResult, Memory>
    requires well_formed { IsWellFormed (mesh_of mesh.now) }
    requires within { IsWithinLimits (mesh_of mesh.now) }
    requires side_low { pos 0 ≤ℤ side }
    requires in_box { All (IsInBox largest_side) mesh.now.points }
    requires candidate { is_candidate (mesh_of mesh.now).tets attempt ≡ true }
    ensures { IfOk result (λ r. result_in r ≡ result_of (nat_abs side) (mesh_of mesh.now) attempt) }
{
    match attempt {
        Try::Split(u, v) => split(alloc, mesh, u, v),
        Try::Shift(u, way) => {
            let at = target(alloc, mesh, side, u, way)?;
            shift(alloc, mesh, u, at)
        }
        Try::Collapse(u, v) => collapse(alloc, mesh, u, v),
        Try::FaceSwap(a, b, c) => face_swap(alloc, mesh, a, b, c),
        Try::EdgeSwap(u, v) => edge_swap(alloc, mesh, u, v),
    }
}

/// Nothing is replaced.
pub(crate) fn unchanged_result(alloc: Global, mesh: &Lists) -> Result<PlainResult, Memory>
    ensures { IfOk result (λ r. result_in r ≡ unchanged (mesh_of mesh.now)) }
{
    let copy = copy_of(alloc, mesh)?;
    Ok(PlainResult {
        mesh: copy,
        gone: Vec::new(alloc),
        fresh: Vec::new(alloc),
    })
}

/// The points with new ones, the kept tetrahedra with the new ones, and other tracked faces.
pub(crate) fn exchange(
    alloc: Global,
    mesh: &Lists,
    at: &[Point],
    kept: Vec<Tet>,
    gone: Vec<Tet>,
    fresh: Vec<Tet>,
    tracked: Vec<Face>,
) -> Result<PlainResult, Memory>
    ensures { IfOk result (λ r. result_in r ≡ exchange (mesh_of mesh.now) at.now (corners_of kept.items) (corners_of gone.items) (corners_of fresh.items) (triples_of tracked.items)) }
{
    let mut points = Vec::from_slice(alloc, mesh.points.as_slice())?;
    points.extend_from_slice(at)?;
    let mut tets = kept;
    tets.extend_from_slice(&fresh)?;
    let made = made_with(mesh.made, &fresh)?;
    let after = Lists {
        points: Items::from_vec(points),
        tets: Items::from_vec(tets),
        tracked: Items::from_vec(tracked),
        made,
    };
    Ok(PlainResult {
        mesh: after,
        gone,
        fresh,
    })
}

fn made_with(made: u32, fresh: &[Tet]) -> Result<u32, Memory>
    ensures { IfOk result (λ n. n ≡ made + length fresh.now) }
{
    made_after(made, fresh.len())
}

// ---- the split of an edge
// The tetrahedra that a cut touches.
fn touched_tets(alloc: Global, cuts: &[Cut], tets: &[Tet]) -> Result<Vec<Tet>, Memory>
    ensures { IfOk result (λ v. corners_of v.items ≡ filter (is_touched cuts.now) (corners_of tets.now)) }
{
    let mut found = Vec::from_slice(alloc, tets)?;
    found.retain(|tet| is_touched(cuts, *tet));
    Ok(found)
}

fn split(alloc: Global, mesh: &Lists, u: u32, v: u32) -> Result<PlainResult, Memory>
    requires within { IsWithinLimits (mesh_of mesh.now) }
    requires in_box { All (IsInBox largest_side) mesh.now.points }
    ensures { IfOk result (λ r. result_in r ≡ split (mesh_of mesh.now) u v) }
{
    let points = mesh.points.as_slice();
    let tets = mesh.tets.as_slice();
    let at = midpoint(point_or_origin(points, u), point_or_origin(points, v));
    let cuts = [Cut { u, v, at }];
    let after = refine_plain(alloc, mesh, &cuts)?;
    let gone = touched_tets(alloc, &cuts, tets)?;
    let fresh = pieces_of(alloc, &cuts, count_of(points), tets)?;
    Ok(PlainResult {
        mesh: after,
        gone,
        fresh,
    })
}

// ---- tetrahedra at a point
fn having(alloc: Global, tets: &[Tet], u: u32) -> Result<Vec<Tet>, Memory>
    ensures { IfOk result (λ v. corners_of v.items ≡ filter (λ x. has x u) (corners_of tets.now)) }
{
    let mut found = Vec::from_slice(alloc, tets)?;
    found.retain(|tet| tet.has(u));
    Ok(found)
}

fn lacking(alloc: Global, tets: &[Tet], u: u32) -> Result<Vec<Tet>, Memory>
    ensures { IfOk result (λ v. corners_of v.items ≡ filter (λ x. not (has x u)) (corners_of tets.now)) }
{
    let mut found = Vec::from_slice(alloc, tets)?;
    found.retain(|tet| !tet.has(u));
    Ok(found)
}

fn having_only(alloc: Global, tets: &[Tet], u: u32, v: u32) -> Result<Vec<Tet>, Memory>
    ensures { IfOk result (λ w. corners_of w.items ≡ filter (λ x. has x u && not (has x v)) (corners_of tets.now)) }
{
    let mut found = Vec::from_slice(alloc, tets)?;
    found.retain(|tet| tet.has(u) && !tet.has(v));
    Ok(found)
}

// The tetrahedra with k in place of u.
fn subst_tets(alloc: Global, tets: &[Tet], u: u32, k: u32) -> Result<Vec<Tet>, Memory>
    ensures { IfOk result (λ v. corners_of v.items ≡ map (replaced u k) (corners_of tets.now)) }
{
    let mut all = Vec::new(alloc);
    for tet in tets {
        all.push(tet.subst(u, k))?;
    }
    Ok(all)
}

// The faces with k in place of u, in rising order, each once.
fn retrack(alloc: Global, faces: &[Face], u: u32, k: u32) -> Result<Vec<Face>, Memory>
    ensures { IfOk result (λ v. triples_of v.items ≡ retracked u k (triples_of faces.now)) }
{
    let mut all = subst_faces(alloc, faces, u, k)?;
    sort_faces_once(&mut all);
    Ok(all)
}

fn subst_faces(alloc: Global, faces: &[Face], u: u32, k: u32) -> Result<Vec<Face>, Memory>
    ensures { IfOk result (λ v. triples_of v.items ≡ map (λ t. Rattle.grid.specs.Simplices.rising (replaced u k t)) (triples_of faces.now)) }
{
    let mut all = Vec::new(alloc);
    for face in faces {
        all.push(face.subst(u, k).rising())?;
    }
    Ok(all)
}

// ---- the shift of a point
fn shift(alloc: Global, mesh: &Lists, u: u32, at: Point) -> Result<PlainResult, Memory>
    requires within { IsWithinLimits (mesh_of mesh.now) }
    ensures { IfOk result (λ r. result_in r ≡ shift (mesh_of mesh.now) u at) }
{
    let k = count_of(mesh.points.as_slice());
    let tets = mesh.tets.as_slice();
    let kept = lacking(alloc, tets, u)?;
    let gone = having(alloc, tets, u)?;
    let fresh = subst_tets(alloc, &gone, u, k)?;
    let tracked = retrack(alloc, mesh.tracked.as_slice(), u, k)?;
    exchange(alloc, mesh, &[at], kept, gone, fresh, tracked)
}

// ---- the collapse of an edge
// The faces that have not both u and v.
fn faces_off(alloc: Global, faces: &[Face], u: u32, v: u32) -> Result<Vec<Face>, Memory>
    ensures { IfOk result (λ w. triples_of w.items ≡ filter (λ t. not (has t u && has t v)) (triples_of faces.now)) }
{
    let mut found = Vec::from_slice(alloc, faces)?;
    found.retain(|face| !(face.has(u) && face.has(v)));
    Ok(found)
}

fn collapse(alloc: Global, mesh: &Lists, u: u32, v: u32) -> Result<PlainResult, Memory>
    ensures { IfOk result (λ r. result_in r ≡ collapse (mesh_of mesh.now) u v) }
{
    let tets = mesh.tets.as_slice();
    let kept = lacking(alloc, tets, u)?;
    let gone = having(alloc, tets, u)?;
    let changed = having_only(alloc, tets, u, v)?;
    let fresh = subst_tets(alloc, &changed, u, v)?;
    let faces = faces_off(alloc, mesh.tracked.as_slice(), u, v)?;
    let tracked = retrack(alloc, &faces, u, v)?;
    exchange(alloc, mesh, &[], kept, gone, fresh, tracked)
}
