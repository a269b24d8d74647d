// The end of a transaction: undoing the marks, last first, or forgetting the slots that they name.
ghost use Rattle.grid.specs.Simplices.{Rises};
ghost use Rattle.mesh_store.specs.Forgetting.{CanForget, CanRevive, IsForgettable, kills, slots_forgotten, slots_undone};
ghost use Rattle.mesh_store.specs.Parts.{parts_of};
ghost use Rattle.mesh_store.specs.Undoing.{CanUndo, CanUndoAll, all_undone, track_marks, undone};
ghost use Rattle.std.specs.Prelude.{OnErr, OnOk, [], true, ℕ, ◌++◌, ◌<◌, ◌∷◌, ◌≡◌};
ghost use Rattle.tet_slots.specs.Slots.{is_forgotten};
ghost use Rattle.tracked.specs.Keys.{put, state_of};

use grid::{Face, Memory};
use tet_slots::Slots;
use tracked::{Added, Tracked};
use undo_record::{Mark, Undo};

/// Undoes one mark.
pub(crate) fn undo_mark(slots: &mut Slots, tracked: &mut Tracked, mark: Mark)
    requires can { CanUndo mark (parts_of slots.old tracked.old) }
    requires known { CanRevive (mark ∷ []) slots.old }
    ensures parts { parts_of slots.new tracked.new ≡ undone mark (parts_of slots.old tracked.old) }
    ensures slots { slots.new ≡ slots_undone mark slots.old }
{
    match mark {
        Mark::PointMade => slots.drop_point(),
        Mark::TetMade => slots.drop_tet(),
        Mark::Killed(slot) => slots.revive(slot),
        Mark::FaceNew => tracked.drop_last(),
        Mark::FaceIn(face) => tracked.take_out(face),
        Mark::FaceOut(face) => tracked.put_back(face),
    }
}

/// Undoes the marks, last first, and leaves none.
pub(crate) fn undo_marks(slots: &mut Slots, tracked: &mut Tracked, undo: &mut Undo)
    requires can { CanUndoAll undo.old (parts_of slots.old tracked.old) }
    requires known { CanRevive undo.old slots.old }
    ensures parts { parts_of slots.new tracked.new ≡ all_undone undo.old (parts_of slots.old tracked.old) }
    ensures known { CanRevive [] slots.new }
    ensures none { undo.new ≡ [] }
{
    while let Some(mark) = undo.pop() {
        undo_mark(slots, tracked, mark);
    }
}

/// Forgets the slots that the marks say were killed, and leaves no marks.
pub(crate) fn forget_killed(slots: &mut Slots, undo: &mut Undo)
    requires { CanForget undo.old slots.old }
    ensures points { slots.new.points ≡ slots.old.points }
    ensures slots { slots.new.slots ≡ slots.old.slots }
    ensures forgotten { (i : ℕ) → 0 < kills i undo.old → is_forgotten slots.new.forgotten i ≡ true }
    ensures known { CanForget [] slots.new }
    ensures none { undo.new ≡ [] }
{
    while let Some(mark) = undo.pop() {
        forget_marked(slots, mark);
    }
}

/// Forgets the slot that the mark says was killed, if it says so.
fn forget_marked(slots: &mut Slots, mark: Mark)
    requires { IsForgettable mark slots.old }
    ensures { slots.new ≡ slots_forgotten mark slots.old }
{
    match mark {
        Mark::Killed(slot) => slots.forget(slot),
        Mark::PointMade | Mark::TetMade | Mark::FaceNew | Mark::FaceIn(_) | Mark::FaceOut(_) => {}
    }
}

/// Tracks a face, with the mark of what was changed.
pub(crate) fn track_marked(tracked: &mut Tracked, undo: &mut Undo, f: Face) -> Result<(), Memory>
    requires { Rises f.0 }
    ensures keys { OnOk result (tracked.new ≡ put f true tracked.old) }
    ensures marks { OnOk result (undo.new ≡ undo.old ++ track_marks f (state_of f tracked.old)) }
    ensures keys_stay { OnErr result (tracked.new ≡ tracked.old) }
    ensures marks_stay { OnErr result (undo.new ≡ undo.old) }
{
    match tracked.add(f)? {
        Added::Already => Ok(()),
        Added::Restored => {
            let Ok(()) = undo.push(Mark::FaceIn(f)) else {
                tracked.take_out(f);
                return Err(Memory);
            };
            Ok(())
        }
        Added::New => {
            let Ok(()) = undo.push(Mark::FaceNew) else {
                tracked.drop_last();
                return Err(Memory);
            };
            Ok(())
        }
    }
}
