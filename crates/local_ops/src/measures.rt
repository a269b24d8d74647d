// The orientation and the energies of the tetrahedra that a try makes, and of those that it replaces.
ghost use Rattle.grid.specs.Boxes.{IsInBox};
ghost use Rattle.grid.specs.Determinants.{IsPositive, det_at};
ghost use Rattle.grid.specs.Limits.{largest_side};
ghost use Rattle.grid.specs.Simplices.{IsTet};
ghost use Rattle.local_ops.specs.Measures.{corners_at, dead_tets, is_positive};
ghost use Rattle.mesh_store.specs.Parts.{live_tets};
ghost use Rattle.mesh_types.specs.Verdicts.{energy_at, largest};
ghost use Rattle.std.specs.List.{list_all};
ghost use Rattle.std.specs.Prelude.{All, drop, length, map, ◌<◌, ◌≡◌, ◌≤◌};

use energy::energy;
use grid::{Tet, det};
use tet_slots::Slots;

/// Whether each live tetrahedron of the slots from `first` on is positive.
pub(crate) fn all_positive(slots: &Slots, first: u32) -> bool
    requires in_box { All (IsInBox largest_side) slots.now.points }
    requires there { first ≤ length slots.now.slots }
    ensures { result ≡ list_all (is_positive slots.now.points) (live_tets (drop first slots.now.slots)) }
{
    for slot in first..slots.made() {
        if slots.live(slot) && !is_positive(slots, slots.tet(slot)) {
            return false;
        }
    }
    true
}

/// Whether the tetrahedron is positive.
pub(crate) fn is_positive(slots: &Slots, tet: Tet) -> bool
    requires in_box { All (IsInBox largest_side) slots.now.points }
    requires there { IsTet (length slots.now.points) tet.0 }
    ensures { result ≡ is_positive slots.now.points tet.0 }
{
    det_of(slots, tet) > 0
}

fn det_of(slots: &Slots, tet: Tet) -> i128
    requires in_box { All (IsInBox largest_side) slots.now.points }
    requires there { IsTet (length slots.now.points) tet.0 }
    ensures { result ≡ det_at slots.now.points tet.0 }
{
    let Tet([a, b, c, d]) = tet;
    det(
        slots.point(a),
        slots.point(b),
        slots.point(c),
        slots.point(d),
    )
}

/// The largest energy of the live tetrahedra of the slots from `first` on, and 0 where there is none.
pub(crate) fn largest_new(slots: &Slots, first: u32) -> u128
    requires in_box { All (IsInBox largest_side) slots.now.points }
    requires there { first ≤ length slots.now.slots }
    requires positive { All (IsPositive slots.now.points) (live_tets (drop first slots.now.slots)) }
    ensures { result ≡ largest (map (energy_at slots.now.points) (live_tets (drop first slots.now.slots))) }
{
    let mut most = 0;
    for slot in first..slots.made() {
        if slots.live(slot) {
            most = most.max(energy_of(slots, slots.tet(slot)));
        }
    }
    most
}

/// Of these slots, the largest energy of the tetrahedra of those that are dead, and 0 where none is.
pub(crate) fn largest_dead(slots: &Slots, numbers: &[u32]) -> u128
    requires in_box { All (IsInBox largest_side) slots.now.points }
    requires there { All (λ i. i < length slots.now.slots) numbers.now }
    requires positive { All (λ i. IsPositive slots.now.points (corners_at slots.now.slots i)) numbers.now }
    ensures { result ≡ largest (map (energy_at slots.now.points) (dead_tets slots.now.slots numbers.now)) }
{
    let mut most = 0;
    for slot in numbers {
        if !slots.live(*slot) {
            most = most.max(energy_of(slots, slots.tet(*slot)));
        }
    }
    most
}

/// The largest energy of the tetrahedra in these slots, and 0 where there is none.
pub(crate) fn largest_at(slots: &Slots, numbers: &[u32]) -> u128
    requires in_box { All (IsInBox largest_side) slots.now.points }
    requires there { All (λ i. i < length slots.now.slots) numbers.now }
    requires positive { All (λ i. IsPositive slots.now.points (corners_at slots.now.slots i)) numbers.now }
    ensures { result ≡ largest (map (energy_at slots.now.points) (map (corners_at slots.now.slots) numbers.now)) }
{
    let mut most = 0;
    for slot in numbers {
        most = most.max(energy_of(slots, slots.tet(*slot)));
    }
    most
}

/// The energy of a positive tetrahedron.
pub(crate) fn energy_of(slots: &Slots, tet: Tet) -> u128
    requires in_box { All (IsInBox largest_side) slots.now.points }
    requires there { IsTet (length slots.now.points) tet.0 }
    requires positive { IsPositive slots.now.points tet.0 }
    ensures { result ≡ energy_at slots.now.points tet.0 }
{
    let Tet([a, b, c, d]) = tet;
    energy(
        slots.point(a),
        slots.point(b),
        slots.point(c),
        slots.point(d),
    )
}
