// The places of the slots, and the bins that have them. The slots that came last may have no place yet.
ghost use Rattle.grid.specs.Simplices.{AreDifferent, IsTet, has};
ghost use Rattle.std.specs.Prelude.{All, OnErr, OnOk, [], length, true, ℕ, ◌++◌, ◌<◌, ◌^◌, ◌≡◌, ◌≤◌, ◌∷◌};
ghost use Rattle.tet_slots.specs.Kept.{AreFirstBinned, IsEntered, is_at, place_at};
ghost use Rattle.tet_slots.specs.Levels.{IsSamePlaces, IsTakenOut, in_place};
ghost use Rattle.tet_slots.specs.declared.bins.Bin.{Bin};

use crate::bins::{Entry, Level};
use crate::extents::extents_of;
use crate::levels;
use crate::place::{self, Place};
use crate::slot::Slot;
use grid::{Memory, Point};
use std::alloc::Global;

/// Gives each slot that has none its place, and puts it in its bin if it is not forgotten. After Memory
/// some may be left.
pub(crate) fn settle(
    alloc: Global,
    points: &[Point],
    slots: &[Slot],
    forgotten: &[bool],
    places: &mut Vec<Place>,
    levels: &mut Vec<Level>,
) -> Result<(), Memory>
    requires corners { All (λ s. IsTet (length points.now) s.tet.0) slots.now }
    requires few { length slots.now ≤ 2 ^ 31 }
    requires one_each { length forgotten.now ≡ length slots.now }
    requires binned { AreFirstBinned points.now slots.now forgotten.now places.old.items levels.old.items }
    ensures { AreFirstBinned points.now slots.now forgotten.now places.new.items levels.new.items }
{
    for slot in places.len()..slots.len() {
        let extents = extents_of(points, slots[slot].tet);
        let place = place::place_of(extents, place::least_level(places));
        let entry = Entry {
            slot: slot as u32,
            extents,
        };
        add(alloc, levels, places, place, entry, forgotten[slot])?;
    }
    Ok(())
}

/// Notes the place of the slot, and puts it in its bin if it is not forgotten. After Memory the bins have
/// what they had.
fn add(
    alloc: Global,
    levels: &mut Vec<Level>,
    places: &mut Vec<Place>,
    place: Place,
    entry: Entry,
    forgotten: bool,
) -> Result<(), Memory>
    ensures places_ok { OnOk result (places.new.items ≡ places.old.items ++ place ∷ []) }
    ensures levels_ok { OnOk result (IsEntered forgotten place entry levels.old.items levels.new.items) }
    ensures places_err { OnErr result (places.new.items ≡ places.old.items) }
    ensures levels_err { OnErr result (IsSamePlaces levels.old.items levels.new.items) }
{
    places.push(place)?;
    if forgotten {
        return Ok(());
    }
    let Ok(()) = levels::enter(alloc, levels, place, entry) else {
        let _ = places.pop();
        return Err(Memory);
    };
    Ok(())
}

/// Takes the slot out of its bin, if it has a place.
pub(crate) fn leave(levels: &mut Vec<Level>, places: &[Place], slot: u32)
    requires once { (l : ℕ) (b : Bin) → AreDifferent (in_place levels.old.items l b) }
    requires there { (l : ℕ) (b : Bin) → has (in_place levels.old.items l b) slot ≡ true → (slot < length places.now) × (is_at (place_at places.now slot) l b ≡ true) }
    ensures { IsTakenOut slot levels.old.items levels.new.items }
{
    if (slot as usize) < places.len() {
        levels::leave(levels, places[slot as usize], slot);
    }
}
