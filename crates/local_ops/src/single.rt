// How often the faces of new tetrahedra occur.
ghost use Rattle.grid.specs.Simplices.{count, faces, has, is_rotation};
ghost use Rattle.local_ops.specs.Measures.{corners_at, has_single_faces};
ghost use Rattle.mesh_store.specs.Parts.{live_tets};
ghost use Rattle.std.specs.List.{list_all};
ghost use Rattle.std.specs.Prelude.{All, IfOk, if◌then◌else◌, count_by, drop, length, map, nat_lt, true, ◌<◌, ◌^◌, ◌≡◌, ◌≤◌};

use grid::{Face, Memory, Tet};
use std::alloc::Global;
use tet_slots::Slots;

/// Whether each face of the live tetrahedra of the slots from `first` on occurs once.
pub(crate) fn are_single(alloc: Global, slots: &Slots, first: u32) -> Result<bool, Memory>
    requires there { first ≤ length slots.now.slots }
    ensures { IfOk result (λ b. b ≡ list_all (has_single_faces (live_tets slots.now.slots)) (live_tets (drop first slots.now.slots))) }
{
    let mut near = Vec::new(alloc);
    for slot in first..slots.made() {
        if slots.live(slot) && !has_single_faces(slots, slots.tet(slot), &mut near)? {
            return Ok(false);
        }
    }
    Ok(true)
}

/// Whether each face of the tetrahedron occurs at most once. `near` is room to work in.
fn has_single_faces(slots: &Slots, tet: Tet, near: &mut Vec<u32>) -> Result<bool, Memory>
    requires { length slots.now.slots ≤ 2 ^ 31 }
    ensures { IfOk result (λ b. b ≡ has_single_faces (live_tets slots.now.slots) tet.0) }
{
    for face in tet.faces() {
        if count(slots, face, near)? > 1 {
            return Ok(false);
        }
    }
    Ok(true)
}

/// How often the face occurs. Leaves in `near` the slots at an edge of it.
fn count(slots: &Slots, face: Face, near: &mut Vec<u32>) -> Result<u64, Memory>
    requires { length slots.now.slots ≤ 2 ^ 31 }
    ensures { IfOk result (λ n. n ≡ count face.0 (live_tets slots.now.slots)) }
{
    let edge = last_edge(face);
    slots.having2(edge.u, edge.v, near)?;
    Ok(count_among(slots, near, face))
}

/// Two corners of a face.
#[derive(Clone, Copy)]
struct Edge {
    u: u32,
    v: u32,
}

/// The edge that begins with the last corner: a point that a try makes has few tetrahedra.
fn last_edge(face: Face) -> Edge
    ensures u { has face.0 result.u ≡ true }
    ensures v { has face.0 result.v ≡ true }
{
    let Face([a, b, c]) = face;
    if a > b && a > c {
        Edge { u: a, v: b }
    } else if b > c {
        Edge { u: b, v: c }
    } else {
        Edge { u: c, v: a }
    }
}

/// How often the face occurs among the tetrahedra in these slots.
fn count_among(slots: &Slots, numbers: &[u32], face: Face) -> u64
    requires few { length numbers.now ≤ 2 ^ 31 }
    requires there { All (λ i. i < length slots.now.slots) numbers.now }
    ensures { result ≡ count face.0 (map (corners_at slots.now.slots) numbers.now) }
{
    let mut found = 0;
    for slot in numbers {
        found += count_in(face, slots.tet(*slot));
    }
    found
}

/// How many faces of the tetrahedron are this one.
pub(crate) fn count_in(face: Face, tet: Tet) -> u64
    ensures count { result ≡ count_by (is_rotation face.0) (faces tet.0) }
    ensures few { result ≤ 4 }
{
    if has_corners(tet, face) {
        count_faces(face, tet)
    } else {
        0
    }
}

/// Whether the tetrahedron has all corners of the face.
pub(crate) fn has_corners(tet: Tet, face: Face) -> bool
    ensures { result ≡ list_all (has tet.0) face.0 }
{
    let Face([a, b, c]) = face;
    if !tet.has(a) {
        return false;
    }
    if !tet.has(b) {
        return false;
    }
    tet.has(c)
}

/// The same, for a tetrahedron that is likely to have all corners of the face.
pub(crate) fn count_faces(face: Face, tet: Tet) -> u64
    ensures count { result ≡ count_by (is_rotation face.0) (faces tet.0) }
    ensures few { result ≤ 4 }
{
    let [f, g, h, k] = tet.faces();
    number(face.same(f)) + number(face.same(g)) + number(face.same(h)) + number(face.same(k))
}

fn number(is: bool) -> u64
    ensures { result ≡ (if is then 1 else 0) }
{
    if is { 1 } else { 0 }
}
