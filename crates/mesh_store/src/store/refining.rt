// Refining, in an open transaction.
ghost use Rattle.grid.specs.Boxes.{IsInBox};
ghost use Rattle.grid.specs.Limits.{most_points, most_made};
ghost use Rattle.grid.specs.Meshes.{IsTriple, IsWithinLimits};
ghost use Rattle.grid.specs.Simplices.{IsTet};
ghost use Rattle.grid.specs.Views.{corners_of};
ghost use Rattle.mesh_store.specs.Changes.{IsRefined, IsSameTransaction, IsSplit, points_made, slots_split, with_parts};
ghost use Rattle.mesh_store.specs.Parts.{mesh_in};
ghost use Rattle.mesh_types.specs.CutLists.{AreCuts};
ghost use Rattle.mesh_types.specs.Refines.{new_pieces, refine};
ghost use Rattle.std.specs.Prelude.{All, Err, IfOk, IsSome, OnOk, length, nat_abs, ◌+◌, ◌<◌, ◌^◌, ◌≡◌};

use super::Store;
use crate::issue::StoreIssue;
use crate::{splitting, touching};
use grid::{MOST_POINTS, Memory, Tet};
use mesh_types::Cut;

impl Store {
    /// The tetrahedra that `refine` would put in place of those that have both ends of a cut, in its order.
    /// Their new corners are numbered from the number of points on. Nothing changes.
    pub fn pieces(&self, cuts: &[Cut]) -> Result<Vec<Tet>, Memory>
        requires cuts { AreCuts (length self.now.parts.points) cuts.now }
        requires room { length self.now.parts.points + length cuts.now < 2 ^ 32 }
        ensures { IfOk result (λ w. corners_of w.items ≡ new_pieces (mesh_in self.now.parts) cuts.now) }
    {
        let gone = touching::touched_slots(self.alloc, &self.slots, cuts)?;
        splitting::tet_pieces(self.alloc, &self.slots, &gone, cuts, self.slots.points())
    }

    /// Refines the mesh.
    pub(super) fn refine_open(&mut self, cuts: &[Cut]) -> Result<(), StoreIssue>
        requires open { IsSome self.old.at_begin }
        requires cuts { AreCuts (length self.old.parts.points) cuts.now }
        requires in_box { All (λ e. IsInBox (nat_abs self.old.side) e.at) cuts.now }
        ensures ok { OnOk result (IsRefined cuts.now self.old.parts self.new.parts) }
        ensures goes_on { IsSameTransaction self.old self.new }
        ensures full { result ≡ Err StoreIssue.Full → ¬ IsWithinLimits (refine (mesh_in self.old.parts) cuts.now) }
    {
        let first = self.slots.points();
        self.make_points(cuts)?;
        self.split_touched(cuts, first)?;
        Ok(())
    }

    /// Makes the points of the cuts, in order.
    fn make_points(&mut self, cuts: &[Cut]) -> Result<(), StoreIssue>
        requires open { IsSome self.old.at_begin }
        requires in_box { All (λ e. IsInBox (nat_abs self.old.side) e.at) cuts.now }
        ensures ok { OnOk result (self.new ≡ with_parts self.old (points_made cuts.now self.old.parts)) }
        ensures goes_on { IsSameTransaction self.old self.new }
        ensures full { result ≡ Err StoreIssue.Full → most_points < length self.old.parts.points + length cuts.now }
    {
        for cut in cuts {
            if self.slots.points() >= MOST_POINTS {
                return Err(StoreIssue::Full);
            }
            self.make_point(cut.at)?;
        }
        Ok(())
    }

    /// Puts the pieces of the tetrahedra and the tracked faces that a cut touches in their place. The
    /// new points are numbered from `first` on.
    fn split_touched(&mut self, cuts: &[Cut], first: u32) -> Result<(), StoreIssue>
        requires open { IsSome self.old.at_begin }
        requires numbered { first + length cuts.now ≡ length self.old.parts.points }
        requires cuts { AreCuts first cuts.now }
        requires tets { All (λ s. IsTet first s.tet.0) self.old.parts.slots }
        requires triples { All (λ k. IsTriple first k.0.0) self.old.parts.keys }
        ensures ok { OnOk result (IsSplit cuts.now first self.old.parts self.new.parts) }
        ensures goes_on { IsSameTransaction self.old self.new }
        ensures full { result ≡ Err StoreIssue.Full → most_made < length (slots_split cuts.now first self.old.parts.slots) }
    {
        let gone = touching::touched_slots(self.alloc, &self.slots, cuts)?;
        let fresh = splitting::tet_pieces(self.alloc, &self.slots, &gone, cuts, first)?;
        let out = touching::touched_faces(self.alloc, &self.tracked, cuts)?;
        let into = splitting::face_pieces(self.alloc, &out, cuts, first)?;
        self.exchange(&gone, &fresh, &out, &into)?;
        Ok(())
    }
}
