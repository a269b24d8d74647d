// The tests of a try that are read off the mesh before it.
ghost use Rattle.grid.specs.Determinants.{point_at};
ghost use Rattle.grid.specs.Meshes.{IsWellFormed, IsWithinLimits};
ghost use Rattle.grid.specs.Rims.{IsRim, triples_at};
ghost use Rattle.grid.specs.Simplices.{has, replaced, rising};
ghost use Rattle.grid.specs.Views.{triples_of};
ghost use Rattle.mesh_types.specs.Verdicts.{KeepsSurface, PassesBox, PassesRim, PassesTracked, ShareNoSide, StaysOnSides};
ghost use Rattle.mesh_types.specs.Views.{mesh_of};
ghost use Rattle.plain_ops.specs.Befores.{AreApart, FallsOnAnother, IsApartAtEnd, StaysAtEnd, StaysOnSurface};
ghost use Rattle.std.specs.Prelude.{IsTrue, [], ◌∷◌, ◌&&◌, count_by, false, nat_abs, pos, true, ◌<◌, ◌≡◌, ◌≤ℤ◌, ◌↔◌};

use crate::defects::is_among;
use crate::points::point_or_origin;
use crate::refining::count_of;
use grid::{Face, Point};
use mesh_types::{Lists, Try};

// ---- Box
// Whether b is at this end of an axis, if a is.
fn stays_at(a: i32, b: i32, end: i32) -> bool
    ensures { IsTrue result ↔ (a ≡ end → b ≡ end) }
{
    a != end || b == end
}

// Whether q is at this end of each axis that p is at it of.
fn stays_at_end(p: Point, q: Point, end: i32) -> bool
    ensures { IsTrue result ↔ StaysAtEnd end p q }
{
    if !stays_at(p.x, q.x, end) {
        return false;
    }
    if !stays_at(p.y, q.y, end) {
        return false;
    }
    stays_at(p.z, q.z, end)
}

// Whether v lies on each side of the box that u lies on.
fn stays_on_sides(mesh: &Lists, side: i32, u: u32, v: u32) -> bool
    requires { pos 0 ≤ℤ side }
    ensures { IsTrue result ↔ StaysOnSides (nat_abs side) (mesh_of mesh.now) u v }
{
    let p = point_or_origin(mesh.points.as_slice(), u);
    let q = point_or_origin(mesh.points.as_slice(), v);
    if !stays_at_end(p, q, 0) {
        return false;
    }
    stays_at_end(p, q, side)
}

// Whether a or b is not at this end of an axis.
fn is_apart_at(a: i32, b: i32, end: i32) -> bool
    ensures { IsTrue result ↔ (a ≡ end → ¬ (b ≡ end)) }
{
    a != end || b != end
}

// Whether p and q are at this end of no axis both.
fn is_apart_at_end(p: Point, q: Point, end: i32) -> bool
    ensures { IsTrue result ↔ IsApartAtEnd end p q }
{
    if !is_apart_at(p.x, q.x, end) {
        return false;
    }
    if !is_apart_at(p.y, q.y, end) {
        return false;
    }
    is_apart_at(p.z, q.z, end)
}

// Whether no side of the box has both u and v.
fn share_no_side(mesh: &Lists, side: i32, u: u32, v: u32) -> bool
    requires { pos 0 ≤ℤ side }
    ensures { IsTrue result ↔ ShareNoSide (nat_abs side) (mesh_of mesh.now) u v }
{
    let p = point_or_origin(mesh.points.as_slice(), u);
    let q = point_or_origin(mesh.points.as_slice(), v);
    if !is_apart_at_end(p, q, 0) {
        return false;
    }
    is_apart_at_end(p, q, side)
}

/// Whether the try takes nothing off a side of the box.
pub(crate) fn passes_box(mesh: &Lists, side: i32, attempt: Try) -> bool
    requires { pos 0 ≤ℤ side }
    ensures { IsTrue result ↔ PassesBox (nat_abs side) (mesh_of mesh.now) attempt }
{
    match attempt {
        Try::Collapse(u, v) => stays_on_sides(mesh, side, u, v),
        Try::EdgeSwap(u, v) => share_no_side(mesh, side, u, v),
        Try::Split(..) | Try::Shift(..) | Try::FaceSwap(..) => true,
    }
}

// ---- Rim
// How many of the faces have both u and v.
fn faces_at_edge(faces: &[Face], u: u32, v: u32) -> usize
    ensures { result ≡ triples_at (triples_of faces.now) u v }
{
    faces
        .iter()
        .filter(|face| face.has(u) && face.has(v))
        .count()
}

// Whether u and another point w are in exactly one tracked face.
fn is_rim_edge(faces: &[Face], u: u32, w: u32) -> bool
    ensures { result ≡ Rattle.plain_ops.specs.Befores.is_rim_edge (triples_of faces.now) u w }
{
    w != u && faces_at_edge(faces, u, w) == 1
}

// Whether u is a point of the rim of the tracked faces.
fn is_rim(mesh: &Lists, u: u32) -> bool
    requires well_formed { IsWellFormed (mesh_of mesh.now) }
    requires within { IsWithinLimits (mesh_of mesh.now) }
    ensures { IsTrue result ↔ IsRim (mesh_of mesh.now).tracked u }
{
    let faces = mesh.tracked.as_slice();
    for w in 0..count_of(mesh.points.as_slice()) {
        if is_rim_edge(faces, u, w) {
            return true;
        }
    }
    false
}

/// Whether the try moves no point of the rim of the tracked faces.
pub(crate) fn passes_rim(mesh: &Lists, attempt: Try) -> bool
    requires well_formed { IsWellFormed (mesh_of mesh.now) }
    requires within { IsWithinLimits (mesh_of mesh.now) }
    ensures { IsTrue result ↔ PassesRim (mesh_of mesh.now) attempt }
{
    match attempt {
        Try::Shift(u, _) => !is_rim(mesh, u),
        Try::Collapse(u, _) => !is_rim(mesh, u),
        Try::Split(..) | Try::FaceSwap(..) | Try::EdgeSwap(..) => true,
    }
}

// ---- Tracked
// How many of the faces have u.
fn faces_at(faces: &[Face], u: u32) -> usize
    ensures { result ≡ count_by (λ t. has t u) (triples_of faces.now) }
{
    faces.iter().filter(|face| face.has(u)).count()
}

// Whether some face has both u and v, if one has u.
fn stays_on_surface(faces: &[Face], u: u32, v: u32) -> bool
    ensures { IsTrue result ↔ StaysOnSurface (triples_of faces.now) u v }
{
    faces_at(faces, u) == 0 || faces_at_edge(faces, u, v) > 0
}

// Whether the face has u and not v, and is tracked already with v in place of u.
fn falls_on_another(faces: &[Face], face: Face, u: u32, v: u32) -> bool
    ensures yes { result ≡ true → FallsOnAnother (triples_of faces.now) u v face.0 }
    ensures no { result ≡ false → ¬ FallsOnAnother (triples_of faces.now) u v face.0 }
{
    if !face.has(u) {
        return false;
    }
    if face.has(v) {
        return false;
    }
    is_among(subst_rising(face, u, v), faces)
}

// The face with v in place of u, in rising order.
fn subst_rising(face: Face, u: u32, v: u32) -> Face
    ensures { result.0 ≡ rising (replaced u v face.0) }
{
    face.subst(u, v).rising()
}

// Whether none of the faces falls on another.
fn are_apart(faces: &[Face], u: u32, v: u32) -> bool
    ensures { IsTrue result ↔ AreApart (triples_of faces.now) u v }
{
    for face in faces {
        if falls_on_another(faces, *face, u, v) {
            return false;
        }
    }
    true
}

// Whether the collapse of u into v keeps the tracked faces a surface.
fn keeps_surface(mesh: &Lists, u: u32, v: u32) -> bool
    ensures { IsTrue result ↔ KeepsSurface (mesh_of mesh.now) u v }
{
    let faces = mesh.tracked.as_slice();
    if !stays_on_surface(faces, u, v) {
        return false;
    }
    are_apart(faces, u, v)
}

/// Whether the try takes away no tracked face, and lays none on another.
pub(crate) fn passes_tracked(mesh: &Lists, attempt: Try) -> bool
    ensures { IsTrue result ↔ PassesTracked (mesh_of mesh.now) attempt }
{
    let faces = mesh.tracked.as_slice();
    match attempt {
        Try::FaceSwap(a, b, c) => !is_among(Face([a, b, c]), faces),
        Try::EdgeSwap(u, v) => faces_at_edge(faces, u, v) == 0,
        Try::Collapse(u, v) => keeps_surface(mesh, u, v),
        Try::Split(..) | Try::Shift(..) => true,
    }
}
