// The step that all changes of a mesh share, in an open transaction.
ghost use Rattle.grid.specs.Limits.{most_made};
ghost use Rattle.grid.specs.Meshes.{IsTriple};
ghost use Rattle.grid.specs.Simplices.{IsTet};
ghost use Rattle.grid.specs.Views.{corners_of, triples_of};
ghost use Rattle.mesh_store.specs.Changes.{IsSameTransaction, tets_made, with_parts};
ghost use Rattle.mesh_store.specs.Exchanges.{CanKill, CanTake, all_taken, exchanged, slots_killed};
ghost use Rattle.std.specs.Prelude.{All, Err, IsSome, OnOk, length, ◌+◌, ◌<◌, ◌≡◌};

use super::Store;
use crate::issue::StoreIssue;
use grid::{Face, MOST_MADE, Memory, Tet};

impl Store {
    /// Kills slots, makes live slots after the last, takes tracked faces out and tracks others.
    pub(super) fn exchange(
        &mut self,
        gone: &[u32],
        fresh: &[Tet],
        out: &[Face],
        into: &[Face],
    ) -> Result<(), StoreIssue>
        requires open { IsSome self.old.at_begin }
        requires can_kill { CanKill gone.now self.old.parts.slots }
        requires corners { All (λ t. IsTet (length self.old.parts.points) t.0) fresh.now }
        requires can_take { CanTake (triples_of out.now) self.old.parts.keys }
        requires triples { All (λ f. IsTriple (length self.old.parts.points) f.0) into.now }
        ensures ok { OnOk result (self.new ≡ with_parts self.old (exchanged gone.now (corners_of fresh.now) (triples_of out.now) (triples_of into.now) self.old.parts)) }
        ensures goes_on { IsSameTransaction self.old self.new }
        ensures full { result ≡ Err StoreIssue.Full → most_made < length self.old.parts.slots + length fresh.now }
    {
        self.kill_all(gone)?;
        self.make_tets(fresh)?;
        self.untrack_all(out)?;
        self.track_all(into)?;
        Ok(())
    }

    /// Kills slots, one after another.
    fn kill_all(&mut self, gone: &[u32]) -> Result<(), Memory>
        requires open { IsSome self.old.at_begin }
        requires can_kill { CanKill gone.now self.old.parts.slots }
        ensures ok { OnOk result (self.new ≡ with_parts self.old (slots_killed gone.now self.old.parts)) }
        ensures goes_on { IsSameTransaction self.old self.new }
    {
        for slot in gone {
            self.kill(*slot)?;
        }
        Ok(())
    }

    /// Makes live slots, in order.
    fn make_tets(&mut self, tets: &[Tet]) -> Result<(), StoreIssue>
        requires open { IsSome self.old.at_begin }
        requires corners { All (λ t. IsTet (length self.old.parts.points) t.0) tets.now }
        ensures ok { OnOk result (self.new ≡ with_parts self.old (tets_made (corners_of tets.now) self.old.parts)) }
        ensures goes_on { IsSameTransaction self.old self.new }
        ensures full { result ≡ Err StoreIssue.Full → most_made < length self.old.parts.slots + length tets.now }
    {
        for tet in tets {
            if self.slots.made() >= MOST_MADE {
                return Err(StoreIssue::Full);
            }
            self.make_tet(*tet)?;
        }
        Ok(())
    }

    /// Takes tracked faces out, one after another.
    fn untrack_all(&mut self, faces: &[Face]) -> Result<(), Memory>
        requires open { IsSome self.old.at_begin }
        requires can_take { CanTake (triples_of faces.now) self.old.parts.keys }
        ensures ok { OnOk result (self.new ≡ with_parts self.old (all_taken (triples_of faces.now) self.old.parts)) }
        ensures goes_on { IsSameTransaction self.old self.new }
    {
        for face in faces {
            self.untrack(*face)?;
        }
        Ok(())
    }
}
