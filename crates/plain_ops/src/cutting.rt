// The four phases.
ghost use Rattle.cutting_rule.specs.Edges.{IsSplitEdge, numbers_of};
ghost use Rattle.grid.specs.Boxes.{IsInBox};
ghost use Rattle.grid.specs.Determinants.{point_at};
ghost use Rattle.grid.specs.Limits.{largest_side};
ghost use Rattle.grid.specs.Meshes.{IsWellFormed, IsWithinLimits};
ghost use Rattle.mesh_types.specs.CuttingRule.{splits};
ghost use Rattle.mesh_types.specs.Phases.{cut_at, cut_by, phase};
ghost use Rattle.mesh_types.specs.Views.{mesh_of};
ghost use Rattle.plain_ops.specs.CutMeshes.{IsCutMesh};
ghost use Rattle.std.specs.Prelude.{All, IfOk, MatchOption, [], false, length, map, true, ◌<◌, ◌∷◌, ◌≡◌};

use crate::points::point_at;
use crate::refine_plain;
use crate::wanted::wanted_edges;
use cutting_rule::{CuttingTriangle, Edge, cut_between};
use grid::{Memory, Point};
use items::Items;
use mesh_types::{Cut, Lists};
use planes::Plane;
use std::alloc::Global;

fn cut_of(plane: &Plane, points: &[Point], u: u32, v: u32) -> Cut
    requires u_in { u < length points.now }
    requires v_in { v < length points.now }
    requires in_box { All (IsInBox largest_side) points.now }
    requires apart { splits plane.now (point_at points.now u ∷ point_at points.now v ∷ []) ≡ true }
    ensures { result ≡ cut_at points.now plane.now (u ∷ v ∷ []) }
{
    cut_between(plane, u, point_at(points, u), v, point_at(points, v))
}

// The cuts of edges where they cross a plane.
fn cuts_of(
    alloc: Global,
    plane: &Plane,
    points: &[Point],
    edges: &[Edge],
) -> Result<Vec<Cut>, Memory>
    requires in_box { All (IsInBox largest_side) points.now }
    requires apart { All (λ e. IsSplitEdge points.now plane.now e.0) edges.now }
    ensures { IfOk result (λ v. v.items ≡ map (cut_at points.now plane.now) (numbers_of edges.now)) }
{
    let mut cuts = Vec::new(alloc);
    for edge in edges {
        cuts.push(cut_of(plane, points, edge.0[0], edge.0[1]))?;
    }
    Ok(cuts)
}

// The mesh after phase i.
fn phase(alloc: Global, mesh: &Lists, triangle: &CuttingTriangle, i: u32) -> Result<Lists, Memory>
    requires index { i < 4 }
    requires well_formed { IsWellFormed (mesh_of mesh.now) }
    requires within { IsWithinLimits (mesh_of mesh.now) }
    requires in_box { All (IsInBox largest_side) mesh.now.points }
    ensures { IfOk result (λ n. mesh_of n ≡ phase (mesh_of mesh.now) triangle.now i) }
{
    let points = mesh.points.as_slice();
    let edges = wanted_edges(alloc, mesh, triangle, i)?;
    let cuts = cuts_of(alloc, triangle.phase_plane(i), points, &edges)?;
    let refined = refine_plain(alloc, mesh, &cuts)?;
    Ok(refined)
}

pub(crate) fn is_within_limits(mesh: &Lists) -> bool
    ensures yes { result ≡ true → IsWithinLimits (mesh_of mesh.now) }
    ensures no { result ≡ false → ¬ IsWithinLimits (mesh_of mesh.now) }
{
    mesh.points.len() <= 1_048_576 && mesh.made <= 4_194_304
}

/// A copy of the mesh.
pub(crate) fn copy_of(alloc: Global, mesh: &Lists) -> Result<Lists, Memory>
    ensures { IfOk result (λ m. m ≡ mesh.now) }
{
    let points = Items::from_slice(alloc, mesh.points.as_slice())?;
    let tets = Items::from_slice(alloc, mesh.tets.as_slice())?;
    let tracked = Items::from_slice(alloc, mesh.tracked.as_slice())?;
    Ok(Lists {
        points,
        tets,
        tracked,
        made: mesh.made,
    })
}

/// The mesh after the four phases. None where it passes a limit.
pub(crate) fn cut(
    alloc: Global,
    mesh: &Lists,
    triangle: &CuttingTriangle,
) -> Result<Option<Lists>, Memory>
    requires well_formed { IsWellFormed (mesh_of mesh.now) }
    requires within { IsWithinLimits (mesh_of mesh.now) }
    requires in_box { All (IsInBox largest_side) mesh.now.points }
    ensures { IfOk result (λ found. MatchOption found (¬ IsWithinLimits (cut_by (mesh_of mesh.now) triangle.now)) (IsCutMesh (mesh_of mesh.now) triangle.now)) }
{
    let mut cut = copy_of(alloc, mesh)?;
    for i in 0..4 {
        cut = phase(alloc, &cut, triangle, i)?;
        if !is_within_limits(&cut) {
            return Ok(None);
        }
    }
    Ok(Some(cut))
}
