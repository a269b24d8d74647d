// The edges that the phases want, and the faces of the section.
ghost use Rattle.cutting_rule.specs.Edges.{numbers_of};
ghost use Rattle.cutting_rule.specs.Section.{section_in};
ghost use Rattle.grid.specs.Boxes.{IsInBox};
ghost use Rattle.grid.specs.Limits.{largest_side};
ghost use Rattle.grid.specs.Meshes.{IsWellFormed};
ghost use Rattle.grid.specs.Simplices.{IsTet};
ghost use Rattle.grid.specs.Views.{corners_of, triples_of};
ghost use Rattle.mesh_types.specs.Phases.{section, wanted, wanted_in};
ghost use Rattle.mesh_types.specs.Views.{mesh_of};
ghost use Rattle.std.specs.List.{flat_map};
ghost use Rattle.std.specs.Prelude.{All, IfOk, length, ◌<◌, ◌≡◌};

use crate::points::corner_points;
use cutting_rule::{
    CuttingTriangle, Edge, push_section, push_wanted, sort_edges_once, sort_faces_once,
};
use grid::{Face, Memory, Point, Tet};
use mesh_types::Lists;
use std::alloc::Global;

fn wanted_of(
    alloc: Global,
    points: &[Point],
    tets: &[Tet],
    triangle: &CuttingTriangle,
    i: u32,
) -> Result<Vec<Edge>, Memory>
    requires index { i < 4 }
    requires in_box { All (IsInBox largest_side) points.now }
    requires tets_are { All (λ x. IsTet (length points.now) x.0) tets.now }
    ensures { IfOk result (λ v. numbers_of v.items ≡ flat_map (wanted_in points.now triangle.now i) (corners_of tets.now)) }
{
    let mut edges = Vec::new(alloc);
    for tet in tets {
        let corners = corner_points(points, *tet);
        push_wanted(triangle, i, *tet, &corners, &mut edges)?;
    }
    Ok(edges)
}

/// The edges of all tetrahedra that phase i wants, in rising order, each once.
pub(crate) fn wanted_edges(
    alloc: Global,
    mesh: &Lists,
    triangle: &CuttingTriangle,
    i: u32,
) -> Result<Vec<Edge>, Memory>
    requires index { i < 4 }
    requires well_formed { IsWellFormed (mesh_of mesh.now) }
    requires in_box { All (IsInBox largest_side) mesh.now.points }
    ensures { IfOk result (λ v. numbers_of v.items ≡ wanted (mesh_of mesh.now) triangle.now i) }
{
    let points = mesh.points.as_slice();
    let tets = mesh.tets.as_slice();
    let mut edges = wanted_of(alloc, points, tets, triangle, i)?;
    sort_edges_once(&mut edges);
    Ok(edges)
}

fn section_of(
    alloc: Global,
    points: &[Point],
    tets: &[Tet],
    triangle: &CuttingTriangle,
) -> Result<Vec<Face>, Memory>
    requires in_box { All (IsInBox largest_side) points.now }
    requires tets_are { All (λ x. IsTet (length points.now) x.0) tets.now }
    ensures { IfOk result (λ v. triples_of v.items ≡ flat_map (section_in points.now triangle.now) (corners_of tets.now)) }
{
    let mut faces = Vec::new(alloc);
    for tet in tets {
        let corners = corner_points(points, *tet);
        let signs = triangle.signs(&corners);
        push_section(triangle, *tet, &corners, signs, &mut faces)?;
    }
    Ok(faces)
}

/// The section faces of all tetrahedra, as rising triples in rising order, each once.
pub(crate) fn section(
    alloc: Global,
    mesh: &Lists,
    triangle: &CuttingTriangle,
) -> Result<Vec<Face>, Memory>
    requires well_formed { IsWellFormed (mesh_of mesh.now) }
    requires in_box { All (IsInBox largest_side) mesh.now.points }
    ensures { IfOk result (λ v. triples_of v.items ≡ section (mesh_of mesh.now) triangle.now) }
{
    let points = mesh.points.as_slice();
    let tets = mesh.tets.as_slice();
    let mut faces = section_of(alloc, points, tets, triangle)?;
    sort_faces_once(&mut faces);
    Ok(faces)
}
