// The search for the slots that meet a box, through the bins.
ghost use Rattle.grid.specs.Simplices.{IsTet, has};
ghost use Rattle.std.specs.Prelude.{All, OnOk, [], length, nat_le, slice_index_or, true, ℕ, ◌&&◌, ◌++◌, ◌-◌, ◌<◌, ◌^◌, ◌∷◌, ◌≡◌, ◌≤◌};
ghost use Rattle.indexmap.specs.IndexMap.{keys};
ghost use Rattle.std.specs.List.{Contains, filter};
ghost use Rattle.tet_slots.specs.Bins.{bin_entries, in_bin, slots_of};
ghost use Rattle.tet_slots.specs.Extents.{IsEntryOf};
ghost use Rattle.tet_slots.specs.Levels.{in_place};
ghost use Rattle.tet_slots.specs.Places.{cell, offset};
ghost use Rattle.tet_slots.specs.Quests.{AreAllNear, AreNear, Finds, Grows, is_inside, passes};
ghost use Rattle.tet_slots.specs.declared.bins.Bin.{Bin};
ghost use Rattle.tet_slots.specs.declared.bins.Entry.{Entry};

use crate::bins::{Bin, Entry, Level};
use crate::place::{cell, offset};
use crate::search;
use crate::slot::Slot;
use grid::{Memory, Point};

/// A search for the live slots whose bounding box meets the box from lo to hi.
#[derive(Clone, Copy)]
pub(crate) struct Quest<'a> {
    pub(crate) points: &'a [Point],
    pub(crate) slots: &'a [Slot],
    pub(crate) lo: Point,
    pub(crate) hi: Point,
}

/// The bins from a low one to a high one, both among them.
#[derive(Clone, Copy)]
pub(crate) struct Block {
    low: Bin,
    high: Bin,
}

impl Block {
    /// How many bins there are.
    fn count(self) -> u64 {
        let x = u64::from(self.high.x.saturating_sub(self.low.x)) + 1;
        let y = u64::from(self.high.y.saturating_sub(self.low.y)) + 1;
        let z = u64::from(self.high.z.saturating_sub(self.low.z)) + 1;
        x.saturating_mul(y).saturating_mul(z)
    }

    /// Whether a bin is one of them.
    #[tactic(auto, unfolding(crate::specs::Quests::is_inside))]
    fn has(self, bin: Bin) -> bool
        ensures { result ≡ is_inside self.low self.high bin }
    {
        lies_from(self.low.x, bin.x, self.high.x)
            && lies_from(self.low.y, bin.y, self.high.y)
            && lies_from(self.low.z, bin.z, self.high.z)
    }
}

fn lies_from(low: u32, x: u32, high: u32) -> bool
    ensures { result ≡ (nat_le low x && nat_le x high) }
{
    low <= x && x <= high
}

impl<'a> Quest<'a> {
    /// Adds what is found on the levels in use.
    pub(crate) fn find(&self, levels: &[Level], into: &mut Vec<u32>) -> Result<(), Memory>
        requires { AreAllNear self.now.points.now self.now.slots.now levels.now }
        ensures grows { OnOk result (Grows (passes self.now.points.now self.now.slots.now self.now.lo self.now.hi) into.old.items into.new.items) }
        ensures found { OnOk result ((l : ℕ) (b : Bin) → Finds (passes self.now.points.now self.now.slots.now self.now.lo self.now.hi) (in_place levels.now l b) into.new.items) }
    {
        for level in 0..levels.len() {
            self.find_in_level(&levels[level], level, into)?;
        }
        Ok(())
    }

    /// Adds what is found among the slots from the first one on.
    pub(crate) fn find_from(&self, first: usize, into: &mut Vec<u32>) -> Result<(), Memory>
        requires corners { All (λ s. IsTet (length self.now.points.now) s.tet.0) self.now.slots.now }
        requires few { length self.now.slots.now ≤ 2 ^ 31 }
        ensures grows { OnOk result (Grows (passes self.now.points.now self.now.slots.now self.now.lo self.now.hi) into.old.items into.new.items) }
        ensures found { OnOk result ((i : ℕ) → first ≤ i → i < length self.now.slots.now → passes self.now.points.now self.now.slots.now self.now.lo self.now.hi i ≡ true → has into.new.items i ≡ true) }
    {
        for i in first..self.slots.len() {
            self.find_slot(i as u32, into)?;
        }
        Ok(())
    }

    /// Adds what is found in the bins that may have a slot that meets the box. Where all bins are not
    /// many more it goes through these, since a bin is passed over sooner than looked up.
    fn find_in_level(&self, bins: &Level, level: usize, into: &mut Vec<u32>) -> Result<(), Memory>
        requires { AreNear self.now.points.now self.now.slots.now level bins.now }
        ensures grows { OnOk result (Grows (passes self.now.points.now self.now.slots.now self.now.lo self.now.hi) into.old.items into.new.items) }
        ensures found { OnOk result ((b : Bin) → Finds (passes self.now.points.now self.now.slots.now self.now.lo self.now.hi) (in_bin bins.now b) into.new.items) }
    {
        let block = self.block(level);
        if (bins.len() as u64) < block.count().saturating_mul(8) {
            self.find_in_all(bins, block, into)?;
        } else {
            self.find_in_block(bins, block, into)?;
        }
        Ok(())
    }

    /// The bins of a level that may have a slot that meets the box.
    fn block(&self, level: usize) -> Block
        ensures x_low { result.low.x ≡ cell level (offset self.now.lo.x) - 1 }
        ensures x_high { result.high.x ≡ cell level (offset self.now.hi.x) }
        ensures y_low { result.low.y ≡ cell level (offset self.now.lo.y) - 1 }
        ensures y_high { result.high.y ≡ cell level (offset self.now.hi.y) }
        ensures z_low { result.low.z ≡ cell level (offset self.now.lo.z) - 1 }
        ensures z_high { result.high.z ≡ cell level (offset self.now.hi.z) }
    {
        Block {
            low: Bin {
                x: cell(offset(self.lo.x), level).saturating_sub(1),
                y: cell(offset(self.lo.y), level).saturating_sub(1),
                z: cell(offset(self.lo.z), level).saturating_sub(1),
            },
            high: Bin {
                x: cell(offset(self.hi.x), level),
                y: cell(offset(self.hi.y), level),
                z: cell(offset(self.hi.z), level),
            },
        }
    }

    fn find_in_all(&self, bins: &Level, block: Block, into: &mut Vec<u32>) -> Result<(), Memory>
        requires boxed { (b : Bin) (e : Entry) → Contains (bin_entries bins.now b) e → IsEntryOf self.now.points.now self.now.slots.now e }
        requires inside { (b : Bin) (i : ℕ) → has (in_bin bins.now b) i ≡ true → passes self.now.points.now self.now.slots.now self.now.lo self.now.hi i ≡ true → is_inside block.low block.high b ≡ true }
        ensures grows { OnOk result (Grows (passes self.now.points.now self.now.slots.now self.now.lo self.now.hi) into.old.items into.new.items) }
        ensures found { OnOk result ((b : Bin) → Finds (passes self.now.points.now self.now.slots.now self.now.lo self.now.hi) (in_bin bins.now b) into.new.items) }
    {
        for k in 0..bins.len() {
            self.find_in_nth(bins, block, k, into)?;
        }
        Ok(())
    }

    fn find_in_block(&self, bins: &Level, block: Block, into: &mut Vec<u32>) -> Result<(), Memory>
        requires { (b : Bin) (e : Entry) → Contains (bin_entries bins.now b) e → IsEntryOf self.now.points.now self.now.slots.now e }
        ensures grows { OnOk result (Grows (passes self.now.points.now self.now.slots.now self.now.lo self.now.hi) into.old.items into.new.items) }
        ensures found { OnOk result ((x y z : ℕ) → block.low.x ≤ x → x ≤ block.high.x → block.low.y ≤ y → y ≤ block.high.y → block.low.z ≤ z → z ≤ block.high.z → Finds (passes self.now.points.now self.now.slots.now self.now.lo self.now.hi) (in_bin bins.now (record { x = x; y = y; z = z })) into.new.items) }
    {
        for x in block.low.x..=block.high.x {
            self.find_in_slab(bins, block, x, into)?;
        }
        Ok(())
    }

    fn find_in_slab(
        &self,
        bins: &Level,
        block: Block,
        x: u32,
        into: &mut Vec<u32>,
    ) -> Result<(), Memory>
        requires { (b : Bin) (e : Entry) → Contains (bin_entries bins.now b) e → IsEntryOf self.now.points.now self.now.slots.now e }
        ensures grows { OnOk result (Grows (passes self.now.points.now self.now.slots.now self.now.lo self.now.hi) into.old.items into.new.items) }
        ensures found { OnOk result ((y z : ℕ) → block.low.y ≤ y → y ≤ block.high.y → block.low.z ≤ z → z ≤ block.high.z → Finds (passes self.now.points.now self.now.slots.now self.now.lo self.now.hi) (in_bin bins.now (record { x = x; y = y; z = z })) into.new.items) }
    {
        for y in block.low.y..=block.high.y {
            self.find_in_row(bins, block, x, y, into)?;
        }
        Ok(())
    }

    fn find_in_row(
        &self,
        bins: &Level,
        block: Block,
        x: u32,
        y: u32,
        into: &mut Vec<u32>,
    ) -> Result<(), Memory>
        requires { (b : Bin) (e : Entry) → Contains (bin_entries bins.now b) e → IsEntryOf self.now.points.now self.now.slots.now e }
        ensures grows { OnOk result (Grows (passes self.now.points.now self.now.slots.now self.now.lo self.now.hi) into.old.items into.new.items) }
        ensures found { OnOk result ((z : ℕ) → block.low.z ≤ z → z ≤ block.high.z → Finds (passes self.now.points.now self.now.slots.now self.now.lo self.now.hi) (in_bin bins.now (record { x = x; y = y; z = z })) into.new.items) }
    {
        for z in block.low.z..=block.high.z {
            self.find_in_bin(bins, Bin { x, y, z }, into)?;
        }
        Ok(())
    }

    fn find_in_nth(
        &self,
        bins: &Level,
        block: Block,
        k: usize,
        into: &mut Vec<u32>,
    ) -> Result<(), Memory>
        requires boxed { (b : Bin) (e : Entry) → Contains (bin_entries bins.now b) e → IsEntryOf self.now.points.now self.now.slots.now e }
        requires inside { (b : Bin) (i : ℕ) → has (in_bin bins.now b) i ≡ true → passes self.now.points.now self.now.slots.now self.now.lo self.now.hi i ≡ true → is_inside block.low block.high b ≡ true }
        requires within { k < length (keys bins.now) }
        ensures grows { OnOk result (Grows (passes self.now.points.now self.now.slots.now self.now.lo self.now.hi) into.old.items into.new.items) }
        ensures found { OnOk result ((d : Bin) → Finds (passes self.now.points.now self.now.slots.now self.now.lo self.now.hi) (in_bin bins.now (slice_index_or (keys bins.now) k d)) into.new.items) }
    {
        let Some((bin, list)) = bins.get_index(k) else {
            return Ok(());
        };
        if !block.has(*bin) {
            return Ok(());
        }
        self.find_in_list(list.as_slice(), into)?;
        Ok(())
    }

    fn find_in_bin(&self, bins: &Level, bin: Bin, into: &mut Vec<u32>) -> Result<(), Memory>
        requires { (b : Bin) (e : Entry) → Contains (bin_entries bins.now b) e → IsEntryOf self.now.points.now self.now.slots.now e }
        ensures grows { OnOk result (Grows (passes self.now.points.now self.now.slots.now self.now.lo self.now.hi) into.old.items into.new.items) }
        ensures found { OnOk result (Finds (passes self.now.points.now self.now.slots.now self.now.lo self.now.hi) (in_bin bins.now bin) into.new.items) }
    {
        match bins.get(&bin) {
            None => Ok(()),
            Some(list) => self.find_in_list(list.as_slice(), into),
        }
    }

    fn find_in_list(&self, list: &[Entry], into: &mut Vec<u32>) -> Result<(), Memory>
        requires { All (IsEntryOf self.now.points.now self.now.slots.now) list.now }
        ensures grows { OnOk result (Grows (passes self.now.points.now self.now.slots.now self.now.lo self.now.hi) into.old.items into.new.items) }
        ensures found { OnOk result (Finds (passes self.now.points.now self.now.slots.now self.now.lo self.now.hi) (slots_of list.now) into.new.items) }
    {
        for entry in list {
            self.find_entry(*entry, into)?;
        }
        Ok(())
    }

    /// Adds the slot of an entry if it is live and the box of the entry meets the box.
    fn find_entry(&self, entry: Entry, into: &mut Vec<u32>) -> Result<(), Memory>
        requires { IsEntryOf self.now.points.now self.now.slots.now entry }
        ensures { OnOk result (into.new.items ≡ into.old.items ++ filter (passes self.now.points.now self.now.slots.now self.now.lo self.now.hi) (entry.slot ∷ [])) }
    {
        if !entry.extents.meets(self.lo, self.hi) {
            return Ok(());
        }
        if !self.slots[entry.slot as usize].live {
            return Ok(());
        }
        into.push(entry.slot)?;
        Ok(())
    }

    /// Adds a slot if it is live and its bounding box meets the box.
    fn find_slot(&self, slot: u32, into: &mut Vec<u32>) -> Result<(), Memory>
        requires corners { All (λ s. IsTet (length self.now.points.now) s.tet.0) self.now.slots.now }
        requires there { slot < length self.now.slots.now }
        ensures { OnOk result (into.new.items ≡ into.old.items ++ filter (passes self.now.points.now self.now.slots.now self.now.lo self.now.hi) (slot ∷ [])) }
    {
        let Slot { tet, live } = self.slots[slot as usize];
        if !live {
            return Ok(());
        }
        if !search::meets_box(self.points, tet, self.lo, self.hi) {
            return Ok(());
        }
        into.push(slot)?;
        Ok(())
    }
}
