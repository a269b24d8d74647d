// Whether a collapse lays a face on another.
ghost use Rattle.grid.specs.Simplices.{faces, has, is_rotation};
ghost use Rattle.local_ops.specs.Apart.{is_apart, is_apart_from, shares_no_face, shares_three};
ghost use Rattle.local_ops.specs.Foreseen.{near_tets};
ghost use Rattle.local_ops.specs.Measures.{corners_at};
ghost use Rattle.mesh_types.specs.declared.tries.Try.TheVariants.{Shift};
ghost use Rattle.std.specs.List.{list_all};
ghost use Rattle.std.specs.Prelude.{All, IfOk, count_by, length, map, nat_lt, ◌<◌, ◌≡◌};

use crate::single::{count_faces, has_corners};
use grid::{Face, Memory, Tet};
use std::alloc::Global;
use tet_slots::Slots;

/// Whether the tetrahedra in these slots that have not v, with v in place of u, have no oriented face of
/// one that has v and not u.
pub(crate) fn are_apart(
    alloc: Global,
    slots: &Slots,
    near: &[u32],
    u: u32,
    v: u32,
) -> Result<bool, Memory>
    requires { All (λ i. i < length slots.now.slots) near.now }
    ensures { IfOk result (λ b. b ≡ list_all (is_apart u v (near_tets (Shift v 0) slots.now.slots)) (map (corners_at slots.now.slots) near.now)) }
{
    let mut around = Vec::new(alloc);
    slots.having(v, &mut around)?;
    Ok(all_apart(slots, near, &around, u, v))
}

fn all_apart(slots: &Slots, near: &[u32], around: &[u32], u: u32, v: u32) -> bool
    requires there { All (λ i. i < length slots.now.slots) near.now }
    requires around { All (λ i. i < length slots.now.slots) around.now }
    ensures { result ≡ list_all (is_apart u v (map (corners_at slots.now.slots) around.now)) (map (corners_at slots.now.slots) near.now) }
{
    for slot in near {
        if !is_apart(slots, slots.tet(*slot), around, u, v) {
            return false;
        }
    }
    true
}

fn is_apart(slots: &Slots, tet: Tet, around: &[u32], u: u32, v: u32) -> bool
    requires { All (λ i. i < length slots.now.slots) around.now }
    ensures { result ≡ is_apart u v (map (corners_at slots.now.slots) around.now) tet.0 }
{
    tet.has(v) || is_apart_from_all(slots, tet.subst(u, v), around, u)
}

/// Whether no face of the tetrahedron is one of a tetrahedron in these slots that has not u.
fn is_apart_from_all(slots: &Slots, tet: Tet, around: &[u32], u: u32) -> bool
    requires { All (λ i. i < length slots.now.slots) around.now }
    ensures { result ≡ list_all (is_apart_from u tet.0) (map (corners_at slots.now.slots) around.now) }
{
    for slot in around {
        if !is_apart_from(tet, slots.tet(*slot), u) {
            return false;
        }
    }
    true
}

/// Whether the other tetrahedron has u, or no face of this one.
fn is_apart_from(tet: Tet, other: Tet, u: u32) -> bool
    ensures { result ≡ is_apart_from u tet.0 other.0 }
{
    other.has(u) || shares_no_face(tet, other)
}

/// Whether no face of the one tetrahedron is a face of the other.
fn shares_no_face(tet: Tet, other: Tet) -> bool
    ensures { result ≡ shares_no_face tet.0 other.0 }
{
    if shares_three(tet, other) {
        has_no_face(tet, other)
    } else {
        true
    }
}

/// Whether three corners of the one tetrahedron are corners of the other.
fn shares_three(tet: Tet, other: Tet) -> bool
    ensures { result ≡ shares_three tet.0 other.0 }
{
    let Tet([a, b, c, d]) = tet;
    let has_a = other.has(a);
    let has_b = other.has(b);
    let has_c = other.has(c);
    let has_d = other.has(d);
    (has_a && has_b && (has_c || has_d)) || (has_c && has_d && (has_a || has_b))
}

fn has_no_face(tet: Tet, other: Tet) -> bool
    ensures { result ≡ shares_no_face tet.0 other.0 }
{
    let [f, g, h, k] = tet.faces();
    !is_face(f, other) && !is_face(g, other) && !is_face(h, other) && !is_face(k, other)
}

/// Whether the face is one of the tetrahedron's.
pub(crate) fn is_face(face: Face, tet: Tet) -> bool
    ensures { result ≡ nat_lt 0 (count_by (is_rotation face.0) (faces tet.0)) }
{
    if has_corners(tet, face) {
        count_faces(face, tet) > 0
    } else {
        false
    }
}
