// For each point the places of the keys that have it, in the order in which they were made.
ghost use Rattle.grid.specs.Simplices.{AreDifferent};
ghost use Rattle.std.specs.Prelude.{OnErr, OnOk, ◌≡◌};
ghost use Rattle.tracked.specs.Places.{IsChanged, IsChangedAt, IsSame, and_last, but_last, places_at};

use grid::Memory;
use indexmap::IndexMap;
use smallvec::SmallVec;
use std::alloc::Global;

/// The places at one point. An inner point of a regular plane mesh has six faces.
type PlaceList = SmallVec<u32, 8>;

/// The places at each point that some key has.
pub(crate) type Index = IndexMap<u32, PlaceList>;

/// Puts the place at the end of the lists of the corners. After Memory the lists hold what they held.
pub(crate) fn enter(
    alloc: Global,
    index: &mut Index,
    corners: &[u32],
    place: u32,
) -> Result<(), Memory>
    requires { AreDifferent corners.now }
    ensures ok { OnOk result (IsChanged (and_last place) corners.now index.old index.new) }
    ensures err { OnErr result (IsSame index.old index.new) }
{
    for i in 0..corners.len() {
        let Ok(()) = put(alloc, index, corners[i], place) else {
            leave_last(index, &corners[..i]);
            return Err(Memory);
        };
    }
    Ok(())
}

/// Removes the last place from the lists of the corners.
pub(crate) fn leave_last(index: &mut Index, corners: &[u32])
    requires { AreDifferent corners.now }
    ensures { IsChanged but_last corners.now index.old index.new }
{
    for i in 0..corners.len() {
        pop(index, corners[i]);
    }
}

/// The places at a point.
pub(crate) fn find(index: &Index, point: u32) -> &[u32]
    ensures { result.now ≡ places_at index.now point }
{
    match index.get(&point) {
        Some(list) => list.as_slice(),
        None => &[],
    }
}

fn put(alloc: Global, index: &mut Index, point: u32, place: u32) -> Result<(), Memory>
    ensures ok { OnOk result (IsChangedAt (and_last place) point index.old index.new) }
    ensures err { OnErr result (IsSame index.old index.new) }
{
    if let Some(list) = index.get_mut(&point) {
        list.push(place)?;
        return Ok(());
    }
    let mut list = SmallVec::new(alloc);
    list.push(place)?;
    let Ok(_) = index.insert(point, list) else {
        return Err(Memory);
    };
    Ok(())
}

fn pop(index: &mut Index, point: u32)
    ensures { IsChangedAt but_last point index.old index.new }
{
    if let Some(list) = index.get_mut(&point) {
        let _ = list.pop();
    }
}
