// The tests of what a try makes.
ghost use Rattle.grid.specs.Boxes.{IsInBox, IsTriInBox};
ghost use Rattle.grid.specs.Determinants.{IsPositive, det_at};
ghost use Rattle.grid.specs.Limits.{largest_side, most_epsilon};
ghost use Rattle.grid.specs.Simplices.{all_faces, count, faces, is_rotation};
ghost use Rattle.grid.specs.Views.{corners_of, triples_of};
ghost use Rattle.mesh_types.specs.Certificates.{HasCertificate};
ghost use Rattle.mesh_types.specs.Verdicts.{IsBetter, IsSingle, energy_at, face_at, largest};
ghost use Rattle.mesh_types.specs.Views.{mesh_of};
ghost use Rattle.plain_ops.specs.Afters.{IsFine, has_single_faces};
ghost use Rattle.plain_ops.specs.PlainResults.{result_in};
ghost use Rattle.std.specs.List.{list_all};
ghost use Rattle.std.specs.Prelude.{All, IsTrue, if◌then◌else◌, count_by, length, map, nat_lt, ◌≡◌, ◌≤◌, ◌↔◌};

use crate::defects::is_among;
use crate::points::point_or_origin;
use crate::results::PlainResult;
use cover::covered;
use energy::energy;
use envelope_tree::Envelope;
use grid::{Face, Point, Tet, Tri, det};
use mesh_types::Lists;

// ---- Inverted
fn det_of(points: &[Point], tet: Tet) -> i128
    requires in_box { All (IsInBox largest_side) points.now }
    ensures { result ≡ det_at points.now tet.0 }
{
    let Tet([a, b, c, d]) = tet;
    det(
        point_or_origin(points, a),
        point_or_origin(points, b),
        point_or_origin(points, c),
        point_or_origin(points, d),
    )
}

fn is_positive(points: &[Point], tet: Tet) -> bool
    requires in_box { All (IsInBox largest_side) points.now }
    ensures { IsTrue result ↔ IsPositive points.now tet.0 }
{
    det_of(points, tet) > 0
}

// Whether each of the tetrahedra is positive.
fn are_positive(points: &[Point], tets: &[Tet]) -> bool
    requires in_box { All (IsInBox largest_side) points.now }
    ensures { IsTrue result ↔ All (IsPositive points.now) (corners_of tets.now) }
{
    for tet in tets {
        if !is_positive(points, *tet) {
            return false;
        }
    }
    true
}

/// Whether each new tetrahedron is positive.
pub(crate) fn is_upright(made: &PlainResult) -> bool
    requires in_box { All (IsInBox largest_side) made.now.mesh.points }
    ensures { IsTrue result ↔ All (IsPositive (result_in made.now).mesh.points) (result_in made.now).fresh }
{
    are_positive(made.mesh.points.as_slice(), &made.fresh)
}

// ---- Doubled
// How many faces of the tetrahedron are this one.
fn count_in(face: Face, tet: Tet) -> usize
    ensures count { result ≡ count_by (is_rotation face.0) (faces tet.0) }
    ensures few { result ≤ 4 }
{
    let [f, g, h, k] = tet.faces();
    number(face.same(f)) + number(face.same(g)) + number(face.same(h)) + number(face.same(k))
}

fn number(is: bool) -> usize
    ensures { result ≡ (if is then 1 else 0) }
{
    if is { 1 } else { 0 }
}

// How often the face occurs.
fn count(tets: &[Tet], face: Face) -> usize
    ensures { result ≡ count face.0 (corners_of tets.now) }
{
    let mut found = 0;
    for tet in tets {
        found += count_in(face, *tet);
    }
    found
}

// Whether each face of the tetrahedron occurs at most once.
fn has_single_faces(tets: &[Tet], tet: Tet) -> bool
    ensures { result ≡ has_single_faces (corners_of tets.now) tet.0 }
{
    for face in tet.faces() {
        if count(tets, face) > 1 {
            return false;
        }
    }
    true
}

// Whether each face of the new tetrahedra occurs at most once.
fn are_single(tets: &[Tet], fresh: &[Tet]) -> bool
    ensures { result ≡ list_all (has_single_faces (corners_of tets.now)) (corners_of fresh.now) }
{
    for tet in fresh {
        if !has_single_faces(tets, *tet) {
            return false;
        }
    }
    true
}

/// Whether no oriented face of a new tetrahedron occurs more than once.
pub(crate) fn is_single(made: &PlainResult) -> bool
    ensures { IsTrue result ↔ IsSingle (result_in made.now) }
{
    are_single(made.mesh.tets.as_slice(), &made.fresh)
}

// ---- Worse
fn energy_at(points: &[Point], tet: Tet) -> u128
    requires in_box { All (IsInBox largest_side) points.now }
    requires positive { IsPositive points.now tet.0 }
    ensures { result ≡ energy_at points.now tet.0 }
{
    let Tet([a, b, c, d]) = tet;
    energy(
        point_or_origin(points, a),
        point_or_origin(points, b),
        point_or_origin(points, c),
        point_or_origin(points, d),
    )
}

// The largest energy of the tetrahedra, and 0 where there is none.
fn largest_energy(points: &[Point], tets: &[Tet]) -> u128
    requires in_box { All (IsInBox largest_side) points.now }
    requires positive { All (IsPositive points.now) (corners_of tets.now) }
    ensures { result ≡ largest (map (energy_at points.now) (corners_of tets.now)) }
{
    let mut most = 0;
    for tet in tets {
        most = most.max(energy_at(points, *tet));
    }
    most
}

/// Whether the largest energy of the new tetrahedra is below that of those that are gone.
pub(crate) fn is_better(made: &PlainResult) -> bool
    requires in_box { All (IsInBox largest_side) made.now.mesh.points }
    requires fresh_positive { All (IsPositive (result_in made.now).mesh.points) (result_in made.now).fresh }
    requires gone_positive { All (IsPositive (result_in made.now).mesh.points) (result_in made.now).gone }
    ensures { IsTrue result ↔ IsBetter (result_in made.now) }
{
    let points = made.mesh.points.as_slice();
    let new = largest_energy(points, &made.fresh);
    let old = largest_energy(points, &made.gone);
    new < old
}

// ---- Uncovered
// The triangle of a face.
fn triangle(points: &[Point], face: Face) -> Tri
    requires in_box { All (IsInBox largest_side) points.now }
    ensures value { result ≡ face_at points.now face.0 }
    ensures within { IsTriInBox largest_side result }
{
    let Face([a, b, c]) = face;
    let p = point_or_origin(points, a);
    let q = point_or_origin(points, b);
    let r = point_or_origin(points, c);
    Tri([p, q, r])
}

fn is_covered(points: &[Point], env: &Envelope, e: u32, face: Face) -> bool
    requires in_box { All (IsInBox largest_side) points.now }
    requires e_in { e ≤ most_epsilon }
    ensures { IsTrue result ↔ HasCertificate env.now e (face_at points.now face.0) }
{
    covered(env, &triangle(points, face), e)
}

// Whether the face was tracked before or has a certificate.
fn is_fine(points: &[Point], before: &[Face], env: &Envelope, e: u32, face: Face) -> bool
    requires in_box { All (IsInBox largest_side) points.now }
    requires e_in { e ≤ most_epsilon }
    ensures { IsTrue result ↔ IsFine env.now e (triples_of before.now) points.now face.0 }
{
    is_among(face, before) || is_covered(points, env, e, face)
}

// Whether each of the faces was tracked before or has a certificate.
fn are_covered(points: &[Point], faces: &[Face], before: &[Face], env: &Envelope, e: u32) -> bool
    requires in_box { All (IsInBox largest_side) points.now }
    requires e_in { e ≤ most_epsilon }
    ensures { IsTrue result ↔ All (IsFine env.now e (triples_of before.now) points.now) (triples_of faces.now) }
{
    for face in faces {
        if !is_fine(points, before, env, e, *face) {
            return false;
        }
    }
    true
}

/// Whether each tracked face was tracked before or has a certificate.
pub(crate) fn is_inside(mesh: &Lists, made: &PlainResult, env: &Envelope, e: u32) -> bool
    requires in_box { All (IsInBox largest_side) made.now.mesh.points }
    requires e_in { e ≤ most_epsilon }
    ensures { IsTrue result ↔ All (IsFine env.now e (mesh_of mesh.now).tracked (result_in made.now).mesh.points) (result_in made.now).mesh.tracked }
{
    let points = made.mesh.points.as_slice();
    let faces = made.mesh.tracked.as_slice();
    are_covered(points, faces, mesh.tracked.as_slice(), env, e)
}
