// The tetrahedra that a triangle touches.
ghost use Rattle.cutter.specs.Found.{AreTouching, is_touching, picked_near, picked_of, touched_at};
ghost use Rattle.grid.specs.Boxes.{IsInBox};
ghost use Rattle.grid.specs.Limits.{largest_side};
ghost use Rattle.std.specs.List.{filter};
ghost use Rattle.std.specs.Prelude.{All, IfOk, OnOk, drop, length, map, ◌++◌, ◌<◌, ◌≡◌, ◌≤◌};
ghost use Rattle.tet_slots.specs.Searches.{numbers_of};
ghost use Rattle.tet_slots.specs.Slots.{slot_at};

use crate::wanted::corner_points;
use cutting_rule::{Bounds, CuttingTriangle, Touch};
use grid::{Memory, Point};
use std::alloc::Global;
use tet_slots::Slots;

/// A live slot whose tetrahedron a triangle touches, and what is known of its corners.
#[derive(Clone, Copy, Debug)]
pub struct Touched {
    pub slot: u32,
    pub touch: Touch,
}

/// The live slots in which a triangle may want edges or have section faces, in rising order: those of
/// the tetrahedra that meet a box about it and touch its plane, not all beyond a side.
#[derive(Drop)]
pub struct Touching {
    pub reach: Bounds,
    pub slots: Vec<Touched>,
}

/// Looks for the tetrahedra that the triangle touches.
pub fn find_touching(
    alloc: Global,
    triangle: &CuttingTriangle,
    slots: &Slots,
) -> Result<Touching, Memory>
    requires { All (IsInBox largest_side) slots.now.points }
    ensures { IfOk result (λ found. AreTouching slots.now.points slots.now.slots triangle.now found) }
{
    let reach = triangle.section_bounds();
    let mut met = Vec::new(alloc);
    slots.meeting(reach.lo, reach.hi, &mut met)?;
    let mut near = Vec::new(alloc);
    for slot in &met {
        let corners = corner_points(slots, slots.tet(*slot));
        push_if_touched(triangle, *slot, &corners, &mut near)?;
    }
    Ok(Touching { reach, slots: near })
}

/// Adds a slot where the triangle touches its tetrahedron, which has these corners.
fn push_if_touched(
    triangle: &CuttingTriangle,
    slot: u32,
    corners: &[Point; 4],
    into: &mut Vec<Touched>,
) -> Result<(), Memory>
    requires { All (IsInBox largest_side) corners.now }
    ensures { OnOk result (into.new.items ≡ into.old.items ++ picked_of triangle.now slot corners.now) }
{
    match triangle.touch(corners) {
        None => Ok(()),
        Some(touch) => {
            into.push(Touched { slot, touch })?;
            Ok(())
        }
    }
}

/// Adds a slot where it is live, its tetrahedron meets the box, and the triangle touches it.
fn push_if_near(
    triangle: &CuttingTriangle,
    reach: Bounds,
    slots: &Slots,
    slot: u32,
    into: &mut Vec<Touched>,
) -> Result<(), Memory>
    requires in_box { All (IsInBox largest_side) slots.now.points }
    requires there { slot < length slots.now.slots }
    ensures { OnOk result (into.new.items ≡ into.old.items ++ picked_near slots.now.points slots.now.slots triangle.now reach.lo reach.hi slot) }
{
    if !slots.live(slot) {
        return Ok(());
    }
    let corners = corner_points(slots, slots.tet(slot));
    if !reach.meets(&corners) {
        return Ok(());
    }
    push_if_touched(triangle, slot, &corners, into)?;
    Ok(())
}

/// Adds the slots that are still live.
fn push_live(slots: &Slots, before: &[Touched], into: &mut Vec<Touched>) -> Result<(), Memory>
    requires { All (λ e. e.slot < length slots.now.slots) before.now }
    ensures { OnOk result (into.new.items ≡ into.old.items ++ filter (λ e. (slot_at slots.now.slots e.slot).live) before.now) }
{
    for touched in before {
        if slots.live(touched.slot) {
            into.push(*touched)?;
        }
    }
    Ok(())
}

/// Adds the slots from `first` on that the triangle touches.
fn push_made(
    triangle: &CuttingTriangle,
    reach: Bounds,
    slots: &Slots,
    first: u32,
    into: &mut Vec<Touched>,
) -> Result<(), Memory>
    requires in_box { All (IsInBox largest_side) slots.now.points }
    requires first_in { first ≤ length slots.now.slots }
    ensures { OnOk result (into.new.items ≡ into.old.items ++ map (touched_at slots.now.points slots.now.slots triangle.now) (numbers_of (is_touching slots.now.points triangle.now reach.lo reach.hi) first (drop first slots.now.slots))) }
{
    for slot in first..slots.made() {
        push_if_near(triangle, reach, slots, slot, into)?;
    }
    Ok(())
}

/// The slots among those that the triangle touched which are still live, and then those made since, from
/// `first` on, that it touches.
pub(crate) fn touching_after(
    alloc: Global,
    triangle: &CuttingTriangle,
    reach: Bounds,
    before: &[Touched],
    slots: &Slots,
    first: u32,
) -> Result<Vec<Touched>, Memory>
    requires in_box { All (IsInBox largest_side) slots.now.points }
    requires first_in { first ≤ length slots.now.slots }
    requires there { All (λ e. e.slot < length slots.now.slots) before.now }
    ensures { IfOk result (λ v. v.items ≡ filter (λ e. (slot_at slots.now.slots e.slot).live) before.now ++ map (touched_at slots.now.points slots.now.slots triangle.now) (numbers_of (is_touching slots.now.points triangle.now reach.lo reach.hi) first (drop first slots.now.slots))) }
{
    let mut near = Vec::new(alloc);
    push_live(slots, before, &mut near)?;
    push_made(triangle, reach, slots, first, &mut near)?;
    Ok(near)
}
