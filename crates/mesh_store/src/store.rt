// The store of a mesh, with transactions.
ghost use Rattle.grid.specs.Boxes.{IsInBox};
ghost use Rattle.grid.specs.Meshes.{IsTriple, IsWithinLimits};
ghost use Rattle.grid.specs.Views.{triples_of};
ghost use Rattle.mesh_store.specs.Changes.{AddedAreLive, HasSameSlots, IsGrown, IsSameTransaction};
ghost use Rattle.mesh_store.specs.Parts.{mesh_in, parts_from, rolled_back};
ghost use Rattle.mesh_store.specs.Sound.{IsFirstMesh, IsSoundStore};
ghost use Rattle.mesh_types.specs.CutLists.{AreCuts};
ghost use Rattle.mesh_types.specs.Refines.{refine};
ghost use Rattle.mesh_types.specs.Results.{collapse, edge_swap, face_swap, shift};
ghost use Rattle.mesh_types.specs.Tracking.{with_tracked};
ghost use Rattle.mesh_types.specs.Views.{mesh_of};
ghost use Rattle.std.specs.Prelude.{All, Err, IfOk, IsSome, IsTrue, None, OnErr, OnOk, Some, length, nat_abs, ◌<◌, ◌≡◌, ◌≢◌, ◌↔◌};

mod exchanging;
mod moving;
mod refining;
mod steps;
mod swaps;
mod tracking;

use crate::issue::StoreIssue;
use crate::{filling, listing, undoing};
use grid::{Face, Memory, Point};
use items::Items;
use mesh_types::{Cut, Lists};
use std::alloc::Global;
use std::marker::Model;
use tet_slots::Slots;
use tracked::Tracked;
use undo_record::Undo;

/// A mesh in a box, and while a transaction is open the marks of its changes.
#[derive(Drop)]
pub struct Store {
    slots: Slots,
    tracked: Tracked,
    undo: Undo,
    opened: bool,
    side: i32,
    alloc: Global,
}

impl Model for Store {
    ghost use Rattle.mesh_store.specs.Parts.{StoreView};

    ghost Value = { StoreView };

    ghost use Rattle.mesh_store.specs.Store.{IsUndoable, store_view};

    ghost view = { store_view };

    ghost invariant = { IsUndoable };
}

impl Store {
    /// A closed store of the mesh, in the box of that side in grid steps.
    pub fn new(alloc: Global, mesh: &Lists, side: i32) -> Result<Store, Memory>
        requires { IsFirstMesh side mesh.now }
        ensures view { IfOk result (λ s. s ≡ record { parts = parts_from mesh.now; at_begin = None; side = side }) }
        ensures mesh { IfOk result (λ s. mesh_in s.parts ≡ mesh_of mesh.now) }
    {
        let mut slots = filling::fill_slots(alloc, mesh)?;
        slots.settle()?;
        let tracked = filling::tracking(alloc, mesh.tracked.as_slice(), mesh.points.len())?;
        Ok(Store {
            slots,
            tracked,
            undo: Undo::new(alloc),
            opened: false,
            side,
            alloc,
        })
    }

    /// Opens a transaction. May take memory, so that searches are fast, and does without where there is
    /// none.
    pub fn begin(&mut self)
        requires { self.old.at_begin ≡ None }
        ensures { self.new ≡ record self.old { at_begin = Some self.old.parts } }
    {
        let _ = self.slots.settle();
        self.opened = true;
    }

    /// Whether a transaction is open.
    pub fn is_open(&self) -> bool
        ensures { IsTrue result ↔ IsSome self.now.at_begin }
    {
        self.opened
    }

    /// Splits every tetrahedron and tracked face that has both ends of a cut, one cut after the other.
    /// Refused where a limit would be passed, and then the mesh is the one at begin and the store is
    /// closed, as after want of memory.
    pub fn refine(&mut self, cuts: &[Cut]) -> Result<(), StoreIssue>
        requires open { IsSome self.old.at_begin }
        requires cuts { AreCuts (length self.old.parts.points) cuts.now }
        requires in_box { All (λ e. IsInBox (nat_abs self.old.side) e.at) cuts.now }
        ensures mesh { OnOk result (mesh_in self.new.parts ≡ refine (mesh_in self.old.parts) cuts.now) }
        ensures grown { OnOk result (IsGrown self.old.parts self.new.parts) }
        ensures added { OnOk result (AddedAreLive self.old.parts self.new.parts) }
        ensures goes_on { OnOk result (IsSameTransaction self.old self.new) }
        ensures within { OnOk result (IsWithinLimits (mesh_in self.new.parts)) }
        ensures full { result ≡ Err StoreIssue.Full → ¬ IsWithinLimits (refine (mesh_in self.old.parts) cuts.now) }
        ensures err { OnErr result (self.new ≡ rolled_back self.old) }
    {
        // The type says what holds of the fields before and after.
        let _ = &self.opened;
        match self.refine_open(cuts) {
            Ok(()) => {
                let _ = &self.opened;
                Ok(())
            }
            Err(issue) => {
                self.rollback();
                Err(issue)
            }
        }
    }

    /// Makes a point and puts it in place of u in every tetrahedron and tracked face that has u.
    /// Refused where a limit would be passed, and then the mesh is the one at begin and the store is
    /// closed, as after want of memory.
    pub fn shift(&mut self, u: u32, at: Point) -> Result<(), StoreIssue>
        requires open { IsSome self.old.at_begin }
        requires there { u < length self.old.parts.points }
        requires in_box { IsInBox (nat_abs self.old.side) at }
        ensures mesh { OnOk result (mesh_in self.new.parts ≡ (shift (mesh_in self.old.parts) u at).mesh) }
        ensures grown { OnOk result (IsGrown self.old.parts self.new.parts) }
        ensures added { OnOk result (AddedAreLive self.old.parts self.new.parts) }
        ensures goes_on { OnOk result (IsSameTransaction self.old self.new) }
        ensures within { OnOk result (IsWithinLimits (mesh_in self.new.parts)) }
        ensures full { result ≡ Err StoreIssue.Full → ¬ IsWithinLimits (shift (mesh_in self.old.parts) u at).mesh }
        ensures err { OnErr result (self.new ≡ rolled_back self.old) }
    {
        // The type says what holds of the fields before and after.
        let _ = &self.opened;
        match self.shift_open(u, at) {
            Ok(()) => {
                let _ = &self.opened;
                Ok(())
            }
            Err(issue) => {
                self.rollback();
                Err(issue)
            }
        }
    }

    /// Edge collapse: puts v in place of u in every tetrahedron and tracked face that has u, and
    /// takes away those that have both. Refused where a limit would be passed, and then the mesh is
    /// the one at begin and the store is closed, as after want of memory.
    pub fn collapse(&mut self, u: u32, v: u32) -> Result<(), StoreIssue>
        requires open { IsSome self.old.at_begin }
        requires u_there { u < length self.old.parts.points }
        requires v_there { v < length self.old.parts.points }
        requires differ { u ≢ v }
        ensures mesh { OnOk result (mesh_in self.new.parts ≡ (collapse (mesh_in self.old.parts) u v).mesh) }
        ensures grown { OnOk result (IsGrown self.old.parts self.new.parts) }
        ensures added { OnOk result (AddedAreLive self.old.parts self.new.parts) }
        ensures goes_on { OnOk result (IsSameTransaction self.old self.new) }
        ensures within { OnOk result (IsWithinLimits (mesh_in self.new.parts)) }
        ensures full { result ≡ Err StoreIssue.Full → ¬ IsWithinLimits (collapse (mesh_in self.old.parts) u v).mesh }
        ensures err { OnErr result (self.new ≡ rolled_back self.old) }
    {
        // The type says what holds of the fields before and after.
        let _ = &self.opened;
        match self.collapse_open(u, v) {
            Ok(()) => {
                let _ = &self.opened;
                Ok(())
            }
            Err(issue) => {
                self.rollback();
                Err(issue)
            }
        }
    }

    /// Face swap (2-3): the two tetrahedra on the sides of the face become three round the edge between
    /// their fourth corners. Nothing changes where there are no such two. Refused where a limit would
    /// be passed, and then the mesh is the one at begin and the store is closed, as after want of
    /// memory.
    pub fn swap23(&mut self, a: u32, b: u32, c: u32) -> Result<(), StoreIssue>
        requires open { IsSome self.old.at_begin }
        ensures mesh { OnOk result (mesh_in self.new.parts ≡ (face_swap (mesh_in self.old.parts) a b c).mesh) }
        ensures grown { OnOk result (IsGrown self.old.parts self.new.parts) }
        ensures added { OnOk result (AddedAreLive self.old.parts self.new.parts) }
        ensures goes_on { OnOk result (IsSameTransaction self.old self.new) }
        ensures within { OnOk result (IsWithinLimits (mesh_in self.new.parts)) }
        ensures full { result ≡ Err StoreIssue.Full → ¬ IsWithinLimits (face_swap (mesh_in self.old.parts) a b c).mesh }
        ensures err { OnErr result (self.new ≡ rolled_back self.old) }
    {
        // The type says what holds of the fields before and after.
        let _ = &self.opened;
        match self.swap23_open(a, b, c) {
            Ok(()) => {
                let _ = &self.opened;
                Ok(())
            }
            Err(issue) => {
                self.rollback();
                Err(issue)
            }
        }
    }

    /// Edge swap (3-2): the tetrahedra at the edge become two on the sides of a face. Nothing changes
    /// where the others at the edge have no corner that the first has not. Refused where a limit would
    /// be passed, and then the mesh is the one at begin and the store is closed, as after want of
    /// memory.
    pub fn swap32(&mut self, u: u32, v: u32) -> Result<(), StoreIssue>
        requires open { IsSome self.old.at_begin }
        ensures mesh { OnOk result (mesh_in self.new.parts ≡ (edge_swap (mesh_in self.old.parts) u v).mesh) }
        ensures grown { OnOk result (IsGrown self.old.parts self.new.parts) }
        ensures added { OnOk result (AddedAreLive self.old.parts self.new.parts) }
        ensures goes_on { OnOk result (IsSameTransaction self.old self.new) }
        ensures within { OnOk result (IsWithinLimits (mesh_in self.new.parts)) }
        ensures full { result ≡ Err StoreIssue.Full → ¬ IsWithinLimits (edge_swap (mesh_in self.old.parts) u v).mesh }
        ensures err { OnErr result (self.new ≡ rolled_back self.old) }
    {
        // The type says what holds of the fields before and after.
        let _ = &self.opened;
        match self.swap32_open(u, v) {
            Ok(()) => {
                let _ = &self.opened;
                Ok(())
            }
            Err(issue) => {
                self.rollback();
                Err(issue)
            }
        }
    }

    /// Tracks the faces that are not tracked yet. After want of memory the mesh is the one at begin
    /// and the store is closed.
    pub fn track(&mut self, faces: &[Face]) -> Result<(), Memory>
        requires open { IsSome self.old.at_begin }
        requires triples { All (λ f. IsTriple (length self.old.parts.points) f.0) faces.now }
        ensures mesh { OnOk result (mesh_in self.new.parts ≡ with_tracked (mesh_in self.old.parts) (triples_of faces.now)) }
        ensures slots { OnOk result (HasSameSlots self.old.parts self.new.parts) }
        ensures goes_on { OnOk result (IsSameTransaction self.old self.new) }
        ensures err { OnErr result (self.new ≡ rolled_back self.old) }
    {
        // The type says what holds of the fields before and after.
        let _ = &self.opened;
        match self.track_all(faces) {
            Ok(()) => {
                let _ = &self.opened;
                Ok(())
            }
            Err(Memory) => {
                self.rollback();
                Err(Memory)
            }
        }
    }

    /// Keeps the mesh and closes. Takes no memory and always succeeds.
    pub fn commit(&mut self)
        requires { IsSome self.old.at_begin }
        ensures { self.new ≡ record self.old { at_begin = None } }
    {
        undoing::forget_killed(&mut self.slots, &mut self.undo);
        self.opened = false;
    }

    /// Gives back the mesh at begin, list for list, and closes. Takes no memory and always succeeds.
    pub fn rollback(&mut self)
        requires { IsSome self.old.at_begin }
        ensures { self.new ≡ rolled_back self.old }
    {
        undoing::undo_marks(&mut self.slots, &mut self.tracked, &mut self.undo);
        self.opened = false;
    }

    /// The lists of the mesh.
    pub fn lists(&self, alloc: Global) -> Result<Lists, Memory>
        ensures { IfOk result (λ m. mesh_of m ≡ mesh_in self.now.parts) }
    {
        let points = listing::listed_points(alloc, &self.slots)?;
        let tets = listing::listed_tets(alloc, &self.slots)?;
        let tracked = self.tracked.list(alloc)?;
        Ok(Lists {
            points: Items::from_vec(points),
            tets: Items::from_vec(tets),
            tracked: Items::from_vec(tracked),
            made: self.slots.made(),
        })
    }

    /// The points and the slots.
    pub fn slots(&self) -> &Slots
        ensures points { result.now.points ≡ self.now.parts.points }
        ensures slots { result.now.slots ≡ self.now.parts.slots }
        ensures sound { IsSoundStore self.now.side self.now.parts }
    {
        &self.slots
    }

    /// The tracked faces.
    pub fn tracked(&self) -> &Tracked
        ensures keys { result.now ≡ self.now.parts.keys }
        ensures sound { IsSoundStore self.now.side self.now.parts }
    {
        &self.tracked
    }

    /// The side of the box in grid steps.
    pub fn side(&self) -> i32
        ensures { result ≡ self.now.side }
    {
        self.side
    }
}

#[cfg(test)]
mod tests;
