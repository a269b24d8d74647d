// The five changes that leave a mark.
ghost use Rattle.grid.specs.Boxes.{IsInBox};
ghost use Rattle.grid.specs.Limits.{most_points, most_made};
ghost use Rattle.grid.specs.Meshes.{IsTriple};
ghost use Rattle.grid.specs.Simplices.{IsTet};
ghost use Rattle.mesh_store.specs.Changes.{face_put, point_made, slot_killed, tet_made, with_parts};
ghost use Rattle.std.specs.Prelude.{IsSome, OnErr, OnOk, Some, false, length, nat_abs, true, ◌<◌, ◌≡◌};
ghost use Rattle.tet_slots.specs.Slots.{slot_at};
ghost use Rattle.tracked.specs.Keys.{state_of};

use super::Store;
use crate::undoing;
use grid::{Face, Memory, Point, Tet};
use undo_record::Mark;

impl Store {
    /// Makes a point.
    pub(super) fn make_point(&mut self, p: Point) -> Result<(), Memory>
        requires open { IsSome self.old.at_begin }
        requires room { length self.old.parts.points < most_points }
        requires in_box { IsInBox (nat_abs self.old.side) p }
        ensures ok { OnOk result (self.new ≡ with_parts self.old (point_made p self.old.parts)) }
        ensures err { OnErr result (self.new ≡ self.old) }
    {
        self.undo.push(Mark::PointMade)?;
        let Ok(_) = self.slots.add_point(p) else {
            let _ = self.undo.pop();
            return Err(Memory);
        };
        Ok(())
    }

    /// Makes a live slot.
    pub(super) fn make_tet(&mut self, t: Tet) -> Result<(), Memory>
        requires open { IsSome self.old.at_begin }
        requires room { length self.old.parts.slots < most_made }
        requires corners { IsTet (length self.old.parts.points) t.0 }
        ensures ok { OnOk result (self.new ≡ with_parts self.old (tet_made t.0 self.old.parts)) }
        ensures err { OnErr result (self.new ≡ self.old) }
    {
        self.undo.push(Mark::TetMade)?;
        let Ok(_) = self.slots.add_tet(t) else {
            let _ = self.undo.pop();
            return Err(Memory);
        };
        Ok(())
    }

    /// Kills a live slot.
    pub(super) fn kill(&mut self, slot: u32) -> Result<(), Memory>
        requires open { IsSome self.old.at_begin }
        requires there { slot < length self.old.parts.slots }
        requires live { (slot_at self.old.parts.slots slot).live ≡ true }
        ensures ok { OnOk result (self.new ≡ with_parts self.old (slot_killed slot self.old.parts)) }
        ensures err { OnErr result (self.new ≡ self.old) }
    {
        self.undo.push(Mark::Killed(slot))?;
        self.slots.kill(slot);
        Ok(())
    }

    /// Takes a tracked face out.
    pub(super) fn untrack(&mut self, f: Face) -> Result<(), Memory>
        requires open { IsSome self.old.at_begin }
        requires tracked { state_of f self.old.parts.keys ≡ Some true }
        ensures ok { OnOk result (self.new ≡ with_parts self.old (face_put f false self.old.parts)) }
        ensures err { OnErr result (self.new ≡ self.old) }
    {
        self.undo.push(Mark::FaceOut(f))?;
        self.tracked.take_out(f);
        Ok(())
    }

    /// Tracks a face, if it is not tracked.
    pub(super) fn track_one(&mut self, f: Face) -> Result<(), Memory>
        requires open { IsSome self.old.at_begin }
        requires triple { IsTriple (length self.old.parts.points) f.0 }
        ensures ok { OnOk result (self.new ≡ with_parts self.old (face_put f true self.old.parts)) }
        ensures err { OnErr result (self.new ≡ self.old) }
    {
        undoing::track_marked(&mut self.tracked, &mut self.undo, f)?;
        Ok(())
    }
}
