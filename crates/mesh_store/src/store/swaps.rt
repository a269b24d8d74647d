// Face swaps and edge swaps, in an open transaction.
ghost use Rattle.grid.specs.Meshes.{IsWithinLimits};
ghost use Rattle.mesh_store.specs.Changes.{AddedAreLive, IsGrown, IsSameTransaction};
ghost use Rattle.mesh_store.specs.Parts.{mesh_in};
ghost use Rattle.mesh_types.specs.Results.{edge_swap, face_swap};
ghost use Rattle.std.specs.Prelude.{Err, IsSome, OnOk, ◌≡◌};

use super::Store;
use crate::issue::StoreIssue;
use crate::swapping;
use grid::Face;

impl Store {
    /// Face swap (2-3): the two tetrahedra at the face become three.
    pub(super) fn swap23_open(&mut self, a: u32, b: u32, c: u32) -> Result<(), StoreIssue>
        requires open { IsSome self.old.at_begin }
        ensures ok { OnOk result (mesh_in self.new.parts ≡ (face_swap (mesh_in self.old.parts) a b c).mesh) }
        ensures grown { OnOk result (IsGrown self.old.parts self.new.parts) }
        ensures added { OnOk result (AddedAreLive self.old.parts self.new.parts) }
        ensures goes_on { IsSameTransaction self.old self.new }
        ensures full { result ≡ Err StoreIssue.Full → ¬ IsWithinLimits (face_swap (mesh_in self.old.parts) a b c).mesh }
    {
        let mut around = Vec::new(self.alloc);
        self.slots.having2(a, b, &mut around)?;
        let face = Face([a, b, c]);
        let Some(first) = swapping::first_at_face(&self.slots, &around, face) else {
            return Ok(());
        };
        let x = self.slots.tet(first);
        let Some(second) = swapping::first_across(&self.slots, &around, face, x) else {
            return Ok(());
        };
        let Some(e) = swapping::outside_corner(x, self.slots.tet(second)) else {
            return Ok(());
        };
        let fresh = [x.subst(a, e), x.subst(b, e), x.subst(c, e)];
        self.exchange(&[first, second], &fresh, &[], &[])?;
        Ok(())
    }

    /// Edge swap (3-2): the tetrahedra at the edge become two.
    pub(super) fn swap32_open(&mut self, u: u32, v: u32) -> Result<(), StoreIssue>
        requires open { IsSome self.old.at_begin }
        ensures ok { OnOk result (mesh_in self.new.parts ≡ (edge_swap (mesh_in self.old.parts) u v).mesh) }
        ensures grown { OnOk result (IsGrown self.old.parts self.new.parts) }
        ensures added { OnOk result (AddedAreLive self.old.parts self.new.parts) }
        ensures goes_on { IsSameTransaction self.old self.new }
        ensures full { result ≡ Err StoreIssue.Full → ¬ IsWithinLimits (edge_swap (mesh_in self.old.parts) u v).mesh }
    {
        let mut gone = Vec::new(self.alloc);
        self.slots.having2(u, v, &mut gone)?;
        if gone.is_empty() {
            return Ok(());
        }
        let x = self.slots.tet(gone[0]);
        let Some(c) = swapping::first_outside(&self.slots, &gone, x) else {
            return Ok(());
        };
        let fresh = [x.subst(v, c), x.subst(u, c)];
        self.exchange(&gone, &fresh, &[], &[])?;
        Ok(())
    }
}
