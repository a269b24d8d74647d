// The first faults of a cut mesh.
ghost use Rattle.cutting_rule.specs.Edges.{numbers_of};
ghost use Rattle.grid.specs.Boxes.{IsInBox, IsTriInBox};
ghost use Rattle.grid.specs.Determinants.{IsPositive, point_at};
ghost use Rattle.grid.specs.Limits.{largest_side, most_epsilon};
ghost use Rattle.grid.specs.Meshes.{IsWellFormed};
ghost use Rattle.grid.specs.Near.{Near};
ghost use Rattle.grid.specs.Simplices.{IsTet, has_all};
ghost use Rattle.grid.specs.Views.{corners_of, triples_of};
ghost use Rattle.mesh_types.specs.Certificates.{HasCertificate};
ghost use Rattle.mesh_types.specs.Insertion.{IsStray, IsUncovered, NamesFirst, face_at};
ghost use Rattle.mesh_types.specs.Phases.{is_unresolved, wanted};
ghost use Rattle.mesh_types.specs.Views.{mesh_of};
ghost use Rattle.std.specs.List.{Contains, list_any};
ghost use Rattle.std.specs.Prelude.{All, IfOk, IsTrue, MatchOption, OnOk, false, length, true, ◌++◌, ◌<◌, ◌≡◌, ◌≤◌, ◌↔◌};

use crate::points::{corner_points, face_points, is_positive, point_at};
use crate::wanted::wanted_edges;
use cover::covered;
use cutting_rule::{CuttingTriangle, Edge};
use envelope_tree::Envelope;
use grid::{Face, Memory, Point, Tet, Tri};
use mesh_types::Lists;
use std::alloc::Global;
use tri_distance::near;

/// The corners of the first tetrahedron that is not positive.
pub(crate) fn first_inverted(points: &[Point], tets: &[Tet]) -> Option<[Point; 4]>
    requires in_box { All (IsInBox largest_side) points.now }
    requires tets_are { All (λ x. IsTet (length points.now) x.0) tets.now }
    ensures { MatchOption result (All (IsPositive points.now) (corners_of tets.now)) (NamesFirst points.now (λ x. ¬ IsPositive points.now x) (corners_of tets.now)) }
{
    for tet in tets {
        if !is_positive(points, *tet) {
            return Some(corner_points(points, *tet));
        }
    }
    None
}

fn push_wanted_of(
    alloc: Global,
    mesh: &Lists,
    triangle: &CuttingTriangle,
    i: u32,
    into: &mut Vec<Edge>,
) -> Result<(), Memory>
    requires index { i < 4 }
    requires well_formed { IsWellFormed (mesh_of mesh.now) }
    requires in_box { All (IsInBox largest_side) mesh.now.points }
    ensures { OnOk result (numbers_of into.new.items ≡ numbers_of into.old.items ++ wanted (mesh_of mesh.now) triangle.now i) }
{
    let edges = wanted_edges(alloc, mesh, triangle, i)?;
    into.extend_from_slice(&edges)?;
    Ok(())
}

// Whether the tetrahedron has both ends of the edge.
fn has_edge(tet: Tet, edge: Edge) -> bool
    ensures { result ≡ has_all tet.0 edge.0 }
{
    let Edge([u, v]) = edge;
    tet.has(u) && tet.has(v)
}

// Whether the tetrahedron has one of the edges.
fn has_one_of(tet: Tet, edges: &[Edge]) -> bool
    ensures { result ≡ list_any (has_all tet.0) (numbers_of edges.now) }
{
    for edge in edges {
        if has_edge(tet, *edge) {
            return true;
        }
    }
    false
}

fn first_with_edge(points: &[Point], tets: &[Tet], edges: &[Edge]) -> Option<[Point; 4]>
    requires { All (λ x. IsTet (length points.now) x.0) tets.now }
    ensures { MatchOption result (All (λ x. list_any (has_all x) (numbers_of edges.now) ≡ false) (corners_of tets.now)) (NamesFirst points.now (λ x. list_any (has_all x) (numbers_of edges.now) ≡ true) (corners_of tets.now)) }
{
    for tet in tets {
        if has_one_of(*tet, edges) {
            return Some(corner_points(points, *tet));
        }
    }
    None
}

/// The corners of the first tetrahedron with an edge that some phase wants.
pub(crate) fn first_unresolved(
    alloc: Global,
    mesh: &Lists,
    triangle: &CuttingTriangle,
) -> Result<Option<[Point; 4]>, Memory>
    requires well_formed { IsWellFormed (mesh_of mesh.now) }
    requires in_box { All (IsInBox largest_side) mesh.now.points }
    ensures { IfOk result (λ found. MatchOption found (All (λ x. is_unresolved (mesh_of mesh.now) triangle.now x ≡ false) (mesh_of mesh.now).tets) (NamesFirst mesh.now.points (λ x. is_unresolved (mesh_of mesh.now) triangle.now x ≡ true) (mesh_of mesh.now).tets)) }
{
    let mut edges = wanted_edges(alloc, mesh, triangle, 0)?;
    push_wanted_of(alloc, mesh, triangle, 1, &mut edges)?;
    push_wanted_of(alloc, mesh, triangle, 2, &mut edges)?;
    push_wanted_of(alloc, mesh, triangle, 3, &mut edges)?;
    let points = mesh.points.as_slice();
    let tets = mesh.tets.as_slice();
    let found = first_with_edge(points, tets, &edges);
    Ok(found)
}

// Whether the point of a corner is far from the triangle.
fn is_far(points: &[Point], u: u32, tri: &Tri, e: u32) -> bool
    requires in_box { All (IsInBox largest_side) points.now }
    requires there { u < length points.now }
    requires tri_in { IsTriInBox largest_side tri.now }
    requires e_in { e ≤ most_epsilon }
    ensures far { result ≡ true → ¬ Near (point_at points.now u) 0 tri.now e }
    ensures near { result ≡ false → Near (point_at points.now u) 0 tri.now e }
{
    !near(point_at(points, u), 0, tri, e)
}

// Whether a corner of the face is far from the triangle.
fn is_stray(points: &[Point], face: Face, tri: &Tri, e: u32) -> bool
    requires in_box { All (IsInBox largest_side) points.now }
    requires there { All (λ u. u < length points.now) face.0 }
    requires tri_in { IsTriInBox largest_side tri.now }
    requires e_in { e ≤ most_epsilon }
    ensures stray { result ≡ true → IsStray points.now tri.now e face.0 }
    ensures near { result ≡ false → All (λ u. Near (point_at points.now u) 0 tri.now e) face.0 }
{
    for u in face.0 {
        if is_far(points, u, tri, e) {
            return true;
        }
    }
    false
}

/// The points of the first face with a corner farther than e from the triangle.
pub(crate) fn first_stray(points: &[Point], faces: &[Face], tri: &Tri, e: u32) -> Option<[Point; 3]>
    requires in_box { All (IsInBox largest_side) points.now }
    requires there { All (λ f. All (λ u. u < length points.now) f.0) faces.now }
    requires tri_in { IsTriInBox largest_side tri.now }
    requires e_in { e ≤ most_epsilon }
    ensures { MatchOption result (All (λ f. All (λ u. Near (point_at points.now u) 0 tri.now e) f) (triples_of faces.now)) (NamesFirst points.now (IsStray points.now tri.now e) (triples_of faces.now)) }
{
    for face in faces {
        if is_stray(points, *face, tri, e) {
            return Some(face_points(points, *face));
        }
    }
    None
}

pub(crate) fn is_among(face: Face, faces: &[Face]) -> bool
    ensures { IsTrue result ↔ Contains (triples_of faces.now) face.0 }
{
    faces.contains(&face)
}

fn is_covered(points: &[Point], env: &Envelope, e: u32, face: Face) -> bool
    requires in_box { All (IsInBox largest_side) points.now }
    requires there { All (λ u. u < length points.now) face.0 }
    requires e_in { e ≤ most_epsilon }
    ensures { IsTrue result ↔ HasCertificate env.now e (face_at points.now face.0) }
{
    covered(env, &Tri(face_points(points, face)), e)
}

// Whether a face was not tracked before, and has no certificate.
fn is_uncovered(points: &[Point], before: &[Face], env: &Envelope, e: u32, face: Face) -> bool
    requires in_box { All (IsInBox largest_side) points.now }
    requires there { All (λ u. u < length points.now) face.0 }
    requires e_in { e ≤ most_epsilon }
    ensures yes { result ≡ true → IsUncovered points.now env.now e (triples_of before.now) face.0 }
    ensures no { result ≡ false → ¬ IsUncovered points.now env.now e (triples_of before.now) face.0 }
{
    if is_among(face, before) {
        return false;
    }
    if is_covered(points, env, e, face) {
        return false;
    }
    true
}

/// The points of the first of the faces that is not one of those before, and has no certificate.
pub(crate) fn first_uncovered(
    points: &[Point],
    faces: &[Face],
    before: &[Face],
    env: &Envelope,
    e: u32,
) -> Option<[Point; 3]>
    requires in_box { All (IsInBox largest_side) points.now }
    requires there { All (λ f. All (λ u. u < length points.now) f.0) faces.now }
    requires e_in { e ≤ most_epsilon }
    ensures { MatchOption result (All (λ f. ¬ IsUncovered points.now env.now e (triples_of before.now) f) (triples_of faces.now)) (NamesFirst points.now (IsUncovered points.now env.now e (triples_of before.now)) (triples_of faces.now)) }
{
    for face in faces {
        if is_uncovered(points, before, env, e, *face) {
            return Some(face_points(points, *face));
        }
    }
    None
}
