// The tetrahedra that a face swap would make.
ghost use Rattle.grid.specs.Boxes.{IsInBox};
ghost use Rattle.grid.specs.Limits.{largest_side};
ghost use Rattle.grid.specs.Simplices.{IsTet, replaced};
ghost use Rattle.local_ops.specs.Measures.{is_positive};
ghost use Rattle.local_ops.specs.Swaps.{AreSidesIfAny};
ghost use Rattle.std.specs.List.{list_all};
ghost use Rattle.std.specs.Prelude.{All, [], length, ◌∷◌, ◌≡◌};
ghost use Rattle.tet_slots.specs.Searches.{has_edge, numbers_of};

use crate::measures::is_positive;
use grid::{Face, Tet};
use mesh_store::{first_across, first_at_face, outside_corner};
use tet_slots::Slots;

/// The slots on the two sides of a face, and the corner of the second tetrahedron that the first has not.
#[derive(Clone, Copy)]
pub(crate) struct Sides {
    pub first: u32,
    pub second: u32,
    pub apex: u32,
}

/// The sides of the face of a, b and c, where it has two. `near` are the slots that have a and b.
pub(crate) fn sides_of_face(slots: &Slots, near: &[u32], a: u32, b: u32, c: u32) -> Option<Sides>
    requires { near.now ≡ numbers_of (has_edge a b) 0 slots.now.slots }
    ensures { AreSidesIfAny slots.now.slots a b c result }
{
    let face = Face([a, b, c]);
    let Some(first) = first_at_face(slots, near, face) else {
        return None;
    };
    let x = slots.tet(first);
    let Some(second) = first_across(slots, near, face, x) else {
        return None;
    };
    let Some(apex) = outside_corner(x, slots.tet(second)) else {
        return None;
    };
    Some(Sides {
        first,
        second,
        apex,
    })
}

/// Whether the tetrahedron is positive with the apex in place of each of the three corners.
pub(crate) fn are_three_positive(slots: &Slots, tet: Tet, a: u32, b: u32, c: u32, apex: u32) -> bool
    requires in_box { All (IsInBox largest_side) slots.now.points }
    requires at_a { IsTet (length slots.now.points) (replaced a apex tet.0) }
    requires at_b { IsTet (length slots.now.points) (replaced b apex tet.0) }
    requires at_c { IsTet (length slots.now.points) (replaced c apex tet.0) }
    ensures { result ≡ list_all (is_positive slots.now.points) (replaced a apex tet.0 ∷ replaced b apex tet.0 ∷ replaced c apex tet.0 ∷ []) }
{
    is_positive(slots, tet.subst(a, apex))
        && is_positive(slots, tet.subst(b, apex))
        && is_positive(slots, tet.subst(c, apex))
}
