// A point in place of another, in an open transaction.
ghost use Rattle.grid.specs.Boxes.{IsInBox};
ghost use Rattle.grid.specs.Limits.{most_made};
ghost use Rattle.grid.specs.Meshes.{IsWithinLimits};
ghost use Rattle.mesh_store.specs.Changes.{IsGrown, IsSameTransaction, point_made};
ghost use Rattle.mesh_store.specs.Exchanges.{IsMoved, moved_tets};
ghost use Rattle.mesh_store.specs.Parts.{live_tets, mesh_in};
ghost use Rattle.mesh_types.specs.Results.{collapse, shift};
ghost use Rattle.std.specs.Prelude.{Err, IsSome, OnOk, length, nat_abs, ◌+◌, ◌<◌, ◌≡◌};

use super::Store;
use crate::issue::StoreIssue;
use crate::{planning, touching};
use grid::{MOST_POINTS, Point};

impl Store {
    /// Makes a point and puts it in place of u.
    pub(super) fn shift_open(&mut self, u: u32, at: Point) -> Result<(), StoreIssue>
        requires open { IsSome self.old.at_begin }
        requires in_box { IsInBox (nat_abs self.old.side) at }
        ensures ok { OnOk result (IsMoved u (length self.old.parts.points) (point_made at self.old.parts) self.new.parts) }
        ensures grown { OnOk result (IsGrown self.old.parts self.new.parts) }
        ensures goes_on { IsSameTransaction self.old self.new }
        ensures full { result ≡ Err StoreIssue.Full → ¬ IsWithinLimits (shift (mesh_in self.old.parts) u at).mesh }
    {
        let k = self.slots.points();
        if k >= MOST_POINTS {
            return Err(StoreIssue::Full);
        }
        self.make_point(at)?;
        self.replace_corner(u, k)?;
        Ok(())
    }

    /// Puts v in place of u.
    pub(super) fn collapse_open(&mut self, u: u32, v: u32) -> Result<(), StoreIssue>
        requires open { IsSome self.old.at_begin }
        requires there { v < length self.old.parts.points }
        ensures ok { OnOk result (IsMoved u v self.old.parts self.new.parts) }
        ensures grown { OnOk result (IsGrown self.old.parts self.new.parts) }
        ensures goes_on { IsSameTransaction self.old self.new }
        ensures full { result ≡ Err StoreIssue.Full → ¬ IsWithinLimits (collapse (mesh_in self.old.parts) u v).mesh }
    {
        self.replace_corner(u, v)?;
        Ok(())
    }

    /// Puts v in place of u in the tetrahedra and the tracked faces that have u and not v. Those that
    /// have both go.
    fn replace_corner(&mut self, u: u32, v: u32) -> Result<(), StoreIssue>
        requires open { IsSome self.old.at_begin }
        requires there { v < length self.old.parts.points }
        ensures ok { OnOk result (IsMoved u v self.old.parts self.new.parts) }
        ensures grown { OnOk result (IsGrown self.old.parts self.new.parts) }
        ensures goes_on { IsSameTransaction self.old self.new }
        ensures full { result ≡ Err StoreIssue.Full → most_made < length self.old.parts.slots + length (moved_tets u v (live_tets self.old.parts.slots)) }
    {
        let mut gone = Vec::new(self.alloc);
        self.slots.having(u, &mut gone)?;
        let fresh = planning::moved_tets(self.alloc, &self.slots, &gone, u, v)?;
        let out = touching::faces_at(self.alloc, &self.tracked, u)?;
        let into = planning::moved_faces(self.alloc, &out, u, v)?;
        self.exchange(&gone, &fresh, &out, &into)?;
        Ok(())
    }
}
