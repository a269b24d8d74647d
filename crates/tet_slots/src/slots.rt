// The points and slots of a mesh, with lists at points and bins for searches.
ghost use Rattle.grid.specs.Determinants.{point_at};
ghost use Rattle.grid.specs.Simplices.{IsTet};
ghost use Rattle.std.specs.List.{filter};
ghost use Rattle.std.specs.Prelude.{All, IfOk, OnErr, OnOk, [], false, length, take, slice_set, true, ◌++◌, ◌-◌, ◌<◌, ◌^◌, ◌∷◌, ◌≡◌};
ghost use Rattle.tet_slots.specs.Searches.{has_corner, has_edge, meets, numbers_of};
ghost use Rattle.tet_slots.specs.Slots.{AreSoundSlots, IsUnused, SlotLists, is_forgotten, slot_at, with_live};

use crate::bins::Level;
use crate::meeting::Quest;
use crate::place::Place;
use crate::point_lists::{self, SlotList};
use crate::slot::Slot;
use crate::{placing, search, sorting};
use grid::{Memory, Point, Tet};
use smallvec::SmallVec;
use std::alloc::Global;
use std::marker::Model;

/// Points and slots, each numbered from 0 as they are made. There are at most 2^31 of each.
#[derive(Drop)]
pub struct Slots {
    points: Vec<Point>,
    slots: Vec<Slot>,
    forgotten: Vec<bool>,
    lists: Vec<SlotList>,
    places: Vec<Place>,
    levels: Vec<Level>,
}

impl Model for Slots {
    ghost use Rattle.tet_slots.specs.Kept.{IsWhole};
    ghost use Rattle.tet_slots.specs.Slots.{SlotLists};

    ghost Value = { SlotLists };

    ghost view = { λ s. record { points = s.points.items; slots = s.slots.items; forgotten = s.forgotten.items } };

    ghost invariant = { λ s. IsWhole s.points.items s.slots.items s.forgotten.items s.lists.items s.places.items s.levels.items };
}

impl Slots {
    /// No points and no slots. Takes no memory.
    pub fn new(alloc: Global) -> Slots
        ensures { result ≡ record { points = []; slots = []; forgotten = [] } }
    {
        Slots {
            points: Vec::new(alloc),
            slots: Vec::new(alloc),
            forgotten: Vec::new(alloc),
            lists: Vec::new(alloc),
            places: Vec::new(alloc),
            levels: Vec::new(alloc),
        }
    }

    /// Makes a point, and gives its number. After Memory nothing changed.
    pub fn add_point(&mut self, p: Point) -> Result<u32, Memory>
        requires { length self.old.points < 2 ^ 31 }
        ensures number { IfOk result (λ k. k ≡ length self.old.points) }
        ensures ok { OnOk result (self.new ≡ record self.old { points = self.old.points ++ p ∷ [] }) }
        ensures unused { OnOk result (IsUnused (length self.old.points) self.old.slots) }
        ensures err { OnErr result (self.new ≡ self.old) }
    {
        let number = self.points.len() as u32;
        push_both(
            &mut self.points,
            p,
            &mut self.lists,
            SmallVec::new(*self.slots.allocator()),
        )?;
        Ok(number)
    }

    /// Makes a live slot, and gives its number. After Memory nothing changed.
    pub fn add_tet(&mut self, t: Tet) -> Result<u32, Memory>
        requires room { length self.old.slots < 2 ^ 31 }
        requires corners { IsTet (length self.old.points) t.0 }
        ensures number { IfOk result (λ k. k ≡ length self.old.slots) }
        ensures ok { OnOk result (self.new ≡ record self.old { slots = self.old.slots ++ record { tet = t; live = true } ∷ []; forgotten = self.old.forgotten ++ false ∷ [] }) }
        ensures err { OnErr result (self.new ≡ self.old) }
    {
        let number = self.slots.len() as u32;
        point_lists::enter(&mut self.lists, &t.0, number)?;
        let slot = Slot { tet: t, live: true };
        let Ok(()) = push_both(&mut self.slots, slot, &mut self.forgotten, false) else {
            point_lists::leave_last(&mut self.lists, &t.0);
            return Err(Memory);
        };
        Ok(number)
    }

    /// Puts the slots that are in no bin yet into theirs, so that searches find them sooner. After
    /// Memory some may be left, and nothing else changed.
    pub fn settle(&mut self) -> Result<(), Memory>
        ensures { self.new ≡ self.old }
    {
        let alloc = *self.slots.allocator();
        placing::settle(
            alloc,
            &self.points,
            &self.slots,
            &self.forgotten,
            &mut self.places,
            &mut self.levels,
        )?;
        Ok(())
    }

    /// Removes the last point.
    pub fn drop_point(&mut self)
        requires there { 0 < length self.old.points }
        requires unused { IsUnused (length self.old.points - 1) self.old.slots }
        ensures { self.new ≡ record self.old { points = take (length self.old.points - 1) self.old.points } }
    {
        let _ = self.points.pop();
        let _ = self.lists.pop();
    }

    /// Removes the last slot, live, dead or forgotten.
    pub fn drop_tet(&mut self)
        requires { 0 < length self.old.slots }
        ensures { self.new ≡ record self.old { slots = take (length self.old.slots - 1) self.old.slots; forgotten = take (length self.old.slots - 1) self.old.forgotten } }
    {
        let last = self.slots.len() - 1;
        placing::leave(&mut self.levels, &self.places, last as u32);
        self.places.truncate(last);
        if !self.forgotten[last] {
            point_lists::leave_last(&mut self.lists, &self.slots[last].tet.0);
        }
        let _ = self.slots.pop();
        let _ = self.forgotten.pop();
    }

    /// Makes a live slot dead.
    pub fn kill(&mut self, slot: u32)
        requires there { slot < length self.old.slots }
        requires live { (slot_at self.old.slots slot).live ≡ true }
        ensures slots { self.new ≡ record self.old { slots = with_live false slot self.old.slots } }
        ensures known { is_forgotten self.new.forgotten slot ≡ false }
    {
        self.slots[slot as usize].live = false;
    }

    /// Makes a dead slot live again.
    pub fn revive(&mut self, slot: u32)
        requires there { slot < length self.old.slots }
        requires dead { (slot_at self.old.slots slot).live ≡ false }
        requires known { is_forgotten self.old.forgotten slot ≡ false }
        ensures { self.new ≡ record self.old { slots = with_live true slot self.old.slots } }
    {
        self.slots[slot as usize].live = true;
    }

    /// Forgets a dead slot: it stays dead, and only `drop_tet` may change it. Takes no memory.
    pub fn forget(&mut self, slot: u32)
        requires there { slot < length self.old.slots }
        requires dead { (slot_at self.old.slots slot).live ≡ false }
        requires known { is_forgotten self.old.forgotten slot ≡ false }
        ensures { self.new ≡ record self.old { forgotten = slice_set self.old.forgotten slot true } }
    {
        point_lists::leave(&mut self.lists, &self.slots[slot as usize].tet.0, slot);
        placing::leave(&mut self.levels, &self.places, slot);
        self.forgotten[slot as usize] = true;
    }

    /// Slots of which the live ones are those that have u, in rising order. Takes no memory.
    pub fn at_point(&self, u: u32) -> &[u32]
        ensures there { All (λ i. i < length self.now.slots) result.now }
        ensures live { filter (λ i. (slot_at self.now.slots i).live) result.now ≡ numbers_of (has_corner u) 0 self.now.slots }
    {
        if u as usize >= self.lists.len() {
            return &[];
        }
        self.lists[u as usize].as_slice()
    }

    /// Makes `into` the live slots that have u, in rising order. After Memory nothing is said of it.
    pub fn having(&self, u: u32, into: &mut Vec<u32>) -> Result<(), Memory>
        ensures { OnOk result (into.new.items ≡ numbers_of (has_corner u) 0 self.now.slots) }
    {
        into.clear();
        if u as usize >= self.lists.len() {
            return Ok(());
        }
        search::find_live(&self.slots, self.lists[u as usize].as_slice(), into)?;
        Ok(())
    }

    /// Makes `into` the live slots that have both u and v, in rising order. After Memory nothing is
    /// said of it.
    pub fn having2(&self, u: u32, v: u32, into: &mut Vec<u32>) -> Result<(), Memory>
        ensures { OnOk result (into.new.items ≡ numbers_of (has_edge u v) 0 self.now.slots) }
    {
        into.clear();
        if u as usize >= self.lists.len() {
            return Ok(());
        }
        search::find_live_with(&self.slots, self.lists[u as usize].as_slice(), v, into)?;
        Ok(())
    }

    /// Makes `into` the live slots whose bounding box meets the box from `lo` to `hi`, where touching
    /// counts, in rising order. After Memory nothing is said of it.
    pub fn meeting(&self, lo: Point, hi: Point, into: &mut Vec<u32>) -> Result<(), Memory>
        ensures { OnOk result (into.new.items ≡ numbers_of (meets self.now.points lo hi) 0 self.now.slots) }
    {
        into.clear();
        let quest = Quest {
            points: &self.points,
            slots: &self.slots,
            lo,
            hi,
        };
        quest.find(&self.levels, into)?;
        quest.find_from(self.places.len(), into)?;
        sorting::rise(into);
        Ok(())
    }

    /// The point of a number.
    pub fn point(&self, u: u32) -> Point
        requires { u < length self.now.points }
        ensures { result ≡ point_at self.now.points u }
    {
        self.points[u as usize]
    }

    /// The tetrahedron of a slot, live or dead.
    pub fn tet(&self, slot: u32) -> Tet
        requires { slot < length self.now.slots }
        ensures value { result ≡ (slot_at self.now.slots slot).tet }
        ensures corners { IsTet (length self.now.points) result.0 }
    {
        self.slots[slot as usize].tet
    }

    /// Whether a slot is live.
    pub fn live(&self, slot: u32) -> bool
        requires { slot < length self.now.slots }
        ensures { result ≡ (slot_at self.now.slots slot).live }
    {
        self.slots[slot as usize].live
    }

    /// The number of points.
    pub fn points(&self) -> u32
        ensures count { result ≡ length self.now.points }
        ensures sound { AreSoundSlots self.now }
    {
        self.points.len() as u32
    }

    /// The number of slots, live and dead.
    pub fn made(&self) -> u32
        ensures count { result ≡ length self.now.slots }
        ensures sound { AreSoundSlots self.now }
    {
        self.slots.len() as u32
    }
}

/// Pushes a value to each of two lists. After Memory nothing changed.
fn push_both<A: Drop, B: Drop>(
    left: &mut Vec<A>,
    a: A,
    right: &mut Vec<B>,
    b: B,
) -> Result<(), Memory>
    ensures left_ok { OnOk result (left.new.items ≡ left.old.items ++ a ∷ []) }
    ensures right_ok { OnOk result (right.new.items ≡ right.old.items ++ b ∷ []) }
    ensures left_err { OnErr result (left.new.items ≡ left.old.items) }
    ensures right_err { OnErr result (right.new.items ≡ right.old.items) }
{
    left.push(a)?;
    let Ok(()) = right.push(b) else {
        let _ = left.pop();
        return Err(Memory);
    };
    Ok(())
}

#[cfg(test)]
mod tests;
