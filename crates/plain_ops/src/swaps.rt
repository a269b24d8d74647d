// The swaps: two tetrahedra at a face become three at an edge, and the other way round.
ghost use Rattle.grid.specs.Simplices.{has, reversed};
ghost use Rattle.grid.specs.Views.{corners_of};
ghost use Rattle.mesh_types.specs.Results.{as_in, edge_swap, face_swap, first_outside, has_face, is_across, swapped_across, swapped_at, unhinged, unhinged_at, without};
ghost use Rattle.mesh_types.specs.Views.{mesh_of};
ghost use Rattle.plain_ops.specs.PlainResults.{IsFoundIn, left_of, result_in};
ghost use Rattle.std.specs.List.{filter, find, flat_map, list_any};
ghost use Rattle.std.specs.Prelude.{IfOk, List, drop, [], ◌∷◌, false, not, ◌&&◌, ◌||◌, ◌++◌, ℕ, ◌≡◌};

use crate::results::{PlainResult, exchange, unchanged_result};
use grid::{Face, Memory, Tet};
use mesh_types::Lists;
use std::alloc::Global;

// Whether the tetrahedron has the oriented face.
fn has_face(tet: Tet, face: Face) -> bool
    ensures { result ≡ has_face face.0 tet.0 }
{
    let [f, g, h, k] = tet.faces();
    face.same(f) || face.same(g) || face.same(h) || face.same(k)
}

// The list without the first tetrahedron that is `tet`.
fn without(alloc: Global, tets: &[Tet], tet: Tet) -> Result<Vec<Tet>, Memory>
    ensures { IfOk result (λ v. corners_of v.items ≡ without tet.0 (corners_of tets.now)) }
{
    let mut left = Vec::new(alloc);
    let mut is_out = false;
    for other in tets {
        is_out = pass_on(&mut left, *other, tet, is_out)?;
    }
    Ok(left)
}

// Appends the other, unless it is the first that is `tet`. Answers whether that one is left out by now.
fn pass_on(left: &mut Vec<Tet>, other: Tet, tet: Tet, is_out: bool) -> Result<bool, Memory>
    ensures { IfOk result (λ b. (rest : List (List ℕ)) → corners_of left.new.items ++ left_of b tet.0 rest ≡ corners_of left.old.items ++ left_of is_out tet.0 (other.0 ∷ rest)) }
{
    if is_out {
        left.push(other)?;
        return Ok(true);
    }
    if tet == other {
        return Ok(true);
    }
    left.push(other)?;
    Ok(false)
}

// The first corner that the tetrahedron has not.
fn first_outside(tet: Tet, corners: &[u32]) -> Option<u32>
    ensures { result ≡ first_outside tet.0 corners.now }
{
    for corner in corners {
        if !tet.has(*corner) {
            return Some(*corner);
        }
    }
    None
}

// ---- the swap of a face for an edge
fn has_face_or_reverse(tet: Tet, face: Face) -> bool
    ensures { result ≡ (has_face face.0 tet.0 || has_face (reversed face.0) tet.0) }
{
    has_face(tet, face) || has_face(tet, face.reverse())
}

// The first tetrahedron with the face in either orientation.
fn first_with_face(tets: &[Tet], face: Face) -> Option<Tet>
    ensures { IsFoundIn (λ x. has_face face.0 x || has_face (reversed face.0) x) (corners_of tets.now) result }
{
    for tet in tets {
        if has_face_or_reverse(*tet, face) {
            return Some(*tet);
        }
    }
    None
}

// The face, turned as the tetrahedron has it.
fn as_in(tet: Tet, face: Face) -> Face
    ensures { result.0 ≡ as_in face.0 tet.0 }
{
    if has_face(tet, face) {
        face
    } else {
        face.reverse()
    }
}

// Whether `other` has the face from the other side.
fn is_reached(tet: Tet, face: Face, other: Tet) -> bool
    ensures { result ≡ has_face (reversed (as_in face.0 tet.0)) other.0 }
{
    has_face(other, as_in(tet, face).reverse())
}

fn has_outside(tet: Tet, corners: &[u32]) -> bool
    ensures { result ≡ list_any (λ c. not (has tet.0 c)) corners.now }
{
    corners.iter().any(|corner| !tet.has(*corner))
}

// Whether `other` stands on the other side of the face of `tet`, with a corner of its own.
fn is_across(tet: Tet, face: Face, other: Tet) -> bool
    ensures { result ≡ is_across face.0 tet.0 other.0 }
{
    is_reached(tet, face, other) && has_outside(tet, &other.0)
}

fn first_across(tets: &[Tet], tet: Tet, face: Face) -> Option<Tet>
    ensures { IsFoundIn (is_across face.0 tet.0) (corners_of tets.now) result }
{
    for other in tets {
        if is_across(tet, face, *other) {
            return Some(*other);
        }
    }
    None
}

pub(crate) fn face_swap(
    alloc: Global,
    mesh: &Lists,
    a: u32,
    b: u32,
    c: u32,
) -> Result<PlainResult, Memory>
    ensures { IfOk result (λ r. result_in r ≡ face_swap (mesh_of mesh.now) a b c) }
{
    match first_with_face(mesh.tets.as_slice(), Face([a, b, c])) {
        None => unchanged_result(alloc, mesh),
        Some(tet) => swap_across(alloc, mesh, a, b, c, tet),
    }
}

// `tet` and the one across the face become three.
fn swap_across(
    alloc: Global,
    mesh: &Lists,
    a: u32,
    b: u32,
    c: u32,
    tet: Tet,
) -> Result<PlainResult, Memory>
    ensures { IfOk result (λ r. result_in r ≡ swapped_across (mesh_of mesh.now) a b c tet.0 (find (is_across (a ∷ b ∷ c ∷ []) tet.0) (mesh_of mesh.now).tets)) }
{
    match first_across(mesh.tets.as_slice(), tet, Face([a, b, c])) {
        None => unchanged_result(alloc, mesh),
        Some(other) => swap_both(alloc, mesh, a, b, c, tet, other),
    }
}

// The two become three that have the edge between their fourth corners.
fn swap_both(
    alloc: Global,
    mesh: &Lists,
    a: u32,
    b: u32,
    c: u32,
    tet: Tet,
    other: Tet,
) -> Result<PlainResult, Memory>
    ensures { IfOk result (λ r. result_in r ≡ swapped_at (mesh_of mesh.now) a b c tet.0 other.0 (first_outside tet.0 other.0)) }
{
    match first_outside(tet, &other.0) {
        None => unchanged_result(alloc, mesh),
        Some(e) => {
            let left = without(alloc, mesh.tets.as_slice(), tet)?;
            let kept = without(alloc, &left, other)?;
            let gone = Vec::from_slice(alloc, &[tet, other])?;
            let fresh = Vec::from_slice(
                alloc,
                &[tet.subst(a, e), tet.subst(b, e), tet.subst(c, e)],
            )?;
            let tracked = Vec::from_slice(alloc, mesh.tracked.as_slice())?;
            exchange(alloc, mesh, &[], kept, gone, fresh, tracked)
        }
    }
}

// ---- the swap of an edge for a face
fn at_edge(alloc: Global, tets: &[Tet], u: u32, v: u32) -> Result<Vec<Tet>, Memory>
    ensures { IfOk result (λ w. corners_of w.items ≡ filter (λ x. has x u && has x v) (corners_of tets.now)) }
{
    let mut found = Vec::from_slice(alloc, tets)?;
    found.retain(|tet| tet.has(u) && tet.has(v));
    Ok(found)
}

fn off_edge(alloc: Global, tets: &[Tet], u: u32, v: u32) -> Result<Vec<Tet>, Memory>
    ensures { IfOk result (λ w. corners_of w.items ≡ filter (λ x. not (has x u && has x v)) (corners_of tets.now)) }
{
    let mut found = Vec::from_slice(alloc, tets)?;
    found.retain(|tet| !(tet.has(u) && tet.has(v)));
    Ok(found)
}

// The corners of the tetrahedra behind the first, one tetrahedron after the other.
fn other_corners(alloc: Global, tets: &[Tet]) -> Result<Vec<u32>, Memory>
    ensures { IfOk result (λ v. v.items ≡ flat_map (λ y. y) (corners_of (drop 1 tets.now))) }
{
    let mut all = Vec::new(alloc);
    for i in 1..tets.len() {
        all.extend_from_slice(&tets[i].0)?;
    }
    Ok(all)
}

pub(crate) fn edge_swap(alloc: Global, mesh: &Lists, u: u32, v: u32) -> Result<PlainResult, Memory>
    ensures { IfOk result (λ r. result_in r ≡ edge_swap (mesh_of mesh.now) u v) }
{
    let gone = at_edge(alloc, mesh.tets.as_slice(), u, v)?;
    swap_ring(alloc, mesh, u, v, &gone)
}

// The tetrahedra at the edge become two.
fn swap_ring(
    alloc: Global,
    mesh: &Lists,
    u: u32,
    v: u32,
    gone: &[Tet],
) -> Result<PlainResult, Memory>
    ensures { IfOk result (λ r. result_in r ≡ unhinged (mesh_of mesh.now) u v (corners_of gone.now)) }
{
    if gone.is_empty() {
        return unchanged_result(alloc, mesh);
    }
    let tet = gone[0];
    let others = other_corners(alloc, gone)?;
    unhinge(alloc, mesh, u, v, gone, tet, first_outside(tet, &others))
}

// They become two that have the point c, which is outside the first of them, in place of an end.
fn unhinge(
    alloc: Global,
    mesh: &Lists,
    u: u32,
    v: u32,
    gone: &[Tet],
    tet: Tet,
    outside: Option<u32>,
) -> Result<PlainResult, Memory>
    ensures { IfOk result (λ r. result_in r ≡ unhinged_at (mesh_of mesh.now) u v (corners_of gone.now) tet.0 outside) }
{
    match outside {
        None => unchanged_result(alloc, mesh),
        Some(c) => {
            let kept = off_edge(alloc, mesh.tets.as_slice(), u, v)?;
            let removed = Vec::from_slice(alloc, gone)?;
            let fresh = Vec::from_slice(alloc, &[tet.subst(v, c), tet.subst(u, c)])?;
            let tracked = Vec::from_slice(alloc, mesh.tracked.as_slice())?;
            exchange(alloc, mesh, &[], kept, removed, fresh, tracked)
        }
    }
}
