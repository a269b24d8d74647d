// The tetrahedra that a split, a shift or a collapse would make of those that it replaces.
ghost use Rattle.grid.specs.Boxes.{IsInBox};
ghost use Rattle.grid.specs.Determinants.{IsPositive};
ghost use Rattle.grid.specs.Limits.{largest_side};
ghost use Rattle.grid.specs.Simplices.{IsTet};
ghost use Rattle.local_ops.specs.Foreseen.{IsAtEnd, are_lower, become_lower, become_positive, det_with, energy_with, moved_at};
ghost use Rattle.local_ops.specs.Measures.{corners_at};
ghost use Rattle.std.specs.Int.Signed.{lt_z};
ghost use Rattle.std.specs.List.{list_all};
ghost use Rattle.std.specs.Prelude.{All, length, map, pos, true, ◌<◌, ◌<ℤ◌, ◌≡◌};

use crate::measures::largest_at;
use energy::energy;
use grid::{Point, Tet, det};
use mesh_types::Try;
use tet_slots::Slots;

/// Whether the tetrahedra in these slots become positive ones, where the new corner is at this point.
pub(crate) fn are_positive(slots: &Slots, attempt: Try, near: &[u32], at: Point) -> bool
    requires in_box { All (IsInBox largest_side) slots.now.points }
    requires within { IsInBox largest_side at }
    requires at_end { IsAtEnd attempt slots.now.points at }
    requires there { All (λ i. i < length slots.now.slots) near.now }
    ensures { result ≡ list_all (become_positive attempt at slots.now.points) (map (corners_at slots.now.slots) near.now) }
{
    for slot in near {
        if !becomes_positive(slots, attempt, slots.tet(*slot), at) {
            return false;
        }
    }
    true
}

fn becomes_positive(slots: &Slots, attempt: Try, tet: Tet, at: Point) -> bool
    requires in_box { All (IsInBox largest_side) slots.now.points }
    requires within { IsInBox largest_side at }
    requires at_end { IsAtEnd attempt slots.now.points at }
    requires there { IsTet (length slots.now.points) tet.0 }
    ensures { result ≡ become_positive attempt at slots.now.points tet.0 }
{
    match attempt {
        Try::Split(u, v) => {
            is_positive_with(slots, tet, u, at) && is_positive_with(slots, tet, v, at)
        }
        Try::Shift(u, _) => is_positive_with(slots, tet, u, at),
        Try::Collapse(u, v) => tet.has(v) || is_positive_with(slots, tet, u, at),
        Try::FaceSwap(..) | Try::EdgeSwap(..) => true,
    }
}

/// Whether the tetrahedron is positive with its corner u at the point.
fn is_positive_with(slots: &Slots, tet: Tet, u: u32, at: Point) -> bool
    requires in_box { All (IsInBox largest_side) slots.now.points }
    requires within { IsInBox largest_side at }
    requires there { IsTet (length slots.now.points) tet.0 }
    ensures { result ≡ lt_z (pos 0) (det_with slots.now.points u at tet.0) }
{
    det_with(slots, tet, u, at) > 0
}

fn det_with(slots: &Slots, tet: Tet, u: u32, at: Point) -> i128
    requires in_box { All (IsInBox largest_side) slots.now.points }
    requires within { IsInBox largest_side at }
    requires there { IsTet (length slots.now.points) tet.0 }
    ensures { result ≡ det_with slots.now.points u at tet.0 }
{
    let Tet([a, b, c, d]) = tet;
    det(
        point_with(slots, a, u, at),
        point_with(slots, b, u, at),
        point_with(slots, c, u, at),
        point_with(slots, d, u, at),
    )
}

/// The point of a corner, where u is at the given one.
fn point_with(slots: &Slots, corner: u32, u: u32, at: Point) -> Point
    requires in_box { All (IsInBox largest_side) slots.now.points }
    requires within { IsInBox largest_side at }
    requires there { corner < length slots.now.points }
    ensures value { result ≡ moved_at slots.now.points u at corner }
    ensures within { IsInBox largest_side result }
{
    if corner == u { at } else { slots.point(corner) }
}

/// Whether each of the tetrahedra that these become has less energy than the one of these that has most.
pub(crate) fn are_better(slots: &Slots, attempt: Try, near: &[u32], at: Point) -> bool
    requires in_box { All (IsInBox largest_side) slots.now.points }
    requires within { IsInBox largest_side at }
    requires at_end { IsAtEnd attempt slots.now.points at }
    requires there { All (λ i. i < length slots.now.slots) near.now }
    requires positive { All (λ i. IsPositive slots.now.points (corners_at slots.now.slots i)) near.now }
    requires signs { All (λ i. become_positive attempt at slots.now.points (corners_at slots.now.slots i) ≡ true) near.now }
    ensures { result ≡ are_lower attempt at slots.now.points (map (corners_at slots.now.slots) near.now) }
{
    let most = largest_at(slots, near);
    if most == 0 {
        return false;
    }
    are_below(slots, attempt, near, at, most)
}

/// Whether each of the tetrahedra that these become has less energy than this.
fn are_below(slots: &Slots, attempt: Try, near: &[u32], at: Point, most: u128) -> bool
    requires in_box { All (IsInBox largest_side) slots.now.points }
    requires within { IsInBox largest_side at }
    requires at_end { IsAtEnd attempt slots.now.points at }
    requires there { All (λ i. i < length slots.now.slots) near.now }
    requires signs { All (λ i. become_positive attempt at slots.now.points (corners_at slots.now.slots i) ≡ true) near.now }
    ensures { result ≡ list_all (become_lower attempt at slots.now.points most) (map (corners_at slots.now.slots) near.now) }
{
    for slot in near {
        if !becomes_lower(slots, attempt, slots.tet(*slot), at, most) {
            return false;
        }
    }
    true
}

fn becomes_lower(slots: &Slots, attempt: Try, tet: Tet, at: Point, most: u128) -> bool
    requires in_box { All (IsInBox largest_side) slots.now.points }
    requires within { IsInBox largest_side at }
    requires at_end { IsAtEnd attempt slots.now.points at }
    requires there { IsTet (length slots.now.points) tet.0 }
    requires signs { become_positive attempt at slots.now.points tet.0 ≡ true }
    ensures { result ≡ become_lower attempt at slots.now.points most tet.0 }
{
    match attempt {
        Try::Split(u, v) => {
            energy_with(slots, tet, u, at) < most && energy_with(slots, tet, v, at) < most
        }
        Try::Shift(u, _) => energy_with(slots, tet, u, at) < most,
        Try::Collapse(u, v) => tet.has(v) || energy_with(slots, tet, u, at) < most,
        Try::FaceSwap(..) | Try::EdgeSwap(..) => true,
    }
}

/// The energy of the tetrahedron with its corner u at the point.
fn energy_with(slots: &Slots, tet: Tet, u: u32, at: Point) -> u128
    requires in_box { All (IsInBox largest_side) slots.now.points }
    requires within { IsInBox largest_side at }
    requires there { IsTet (length slots.now.points) tet.0 }
    requires positive { pos 0 <ℤ det_with slots.now.points u at tet.0 }
    ensures { result ≡ energy_with slots.now.points u at tet.0 }
{
    let Tet([a, b, c, d]) = tet;
    energy(
        point_with(slots, a, u, at),
        point_with(slots, b, u, at),
        point_with(slots, c, u, at),
        point_with(slots, d, u, at),
    )
}
