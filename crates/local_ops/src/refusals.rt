// The reasons to refuse a try before it is made.
ghost use Rattle.grid.specs.declared.shapes.Tri.{Tri};
ghost use Rattle.local_ops.specs.Attempts.{IsRefusedOr};
ghost use Rattle.mesh_store.specs.Parts.{mesh_in};
ghost use Rattle.mesh_store.specs.Sound.{IsSoundStore};
ghost use Rattle.mesh_types.specs.Journals.{setting};
ghost use Rattle.mesh_types.specs.Tries.{is_candidate};
ghost use Rattle.mesh_types.specs.Verdicts.{PassesBox, PassesRim};
ghost use Rattle.std.specs.Prelude.{IfOk, IsTrue, List, nat_abs, true, ℕ, ◌≡◌, ◌↔◌};

use crate::sides::keeps_sides;
use crate::surface::{is_rim, keeps_tracked};
use grid::Memory;
use mesh_store::Store;
use mesh_types::{Try, Why};
use std::alloc::Global;

/// Box, Rim or Tracked: the first of them that holds.
pub(crate) fn refusal(alloc: Global, store: &Store, attempt: Try) -> Result<Option<Why>, Memory>
    requires sound { IsSoundStore store.now.side store.now.parts }
    requires candidate { is_candidate (mesh_in store.now.parts).tets attempt ≡ true }
    ensures { (triangles : List Tri) (e : ℕ) → IfOk result (IsRefusedOr 3 (setting triangles e store.now.side) (mesh_in store.now.parts) attempt) }
{
    if keeps_sides(store, attempt) {
        refusal_on_sides(alloc, store, attempt)
    } else {
        Ok(Some(Why::Box))
    }
}

/// Where nothing is taken off a side of the box.
fn refusal_on_sides(alloc: Global, store: &Store, attempt: Try) -> Result<Option<Why>, Memory>
    requires candidate { is_candidate (mesh_in store.now.parts).tets attempt ≡ true }
    requires sides { PassesBox (nat_abs store.now.side) (mesh_in store.now.parts) attempt }
    ensures { (triangles : List Tri) (e : ℕ) → IfOk result (IsRefusedOr 3 (setting triangles e store.now.side) (mesh_in store.now.parts) attempt) }
{
    if keeps_rim(store, attempt) {
        refusal_on_rim(alloc, store, attempt)
    } else {
        Ok(Some(Why::Rim))
    }
}

/// Where no point of the rim is moved, too.
fn refusal_on_rim(alloc: Global, store: &Store, attempt: Try) -> Result<Option<Why>, Memory>
    requires candidate { is_candidate (mesh_in store.now.parts).tets attempt ≡ true }
    requires sides { PassesBox (nat_abs store.now.side) (mesh_in store.now.parts) attempt }
    requires rim { PassesRim (mesh_in store.now.parts) attempt }
    ensures { (triangles : List Tri) (e : ℕ) → IfOk result (IsRefusedOr 3 (setting triangles e store.now.side) (mesh_in store.now.parts) attempt) }
{
    if keeps_tracked(alloc, store, attempt)? {
        Ok(None)
    } else {
        Ok(Some(Why::Tracked))
    }
}

/// Whether the try moves no point of the rim of the tracked faces.
fn keeps_rim(store: &Store, attempt: Try) -> bool
    ensures { IsTrue result ↔ PassesRim (mesh_in store.now.parts) attempt }
{
    match attempt {
        Try::Shift(u, _) => !is_rim(store, u),
        Try::Collapse(u, _) => !is_rim(store, u),
        Try::Split(..) | Try::FaceSwap(..) | Try::EdgeSwap(..) => true,
    }
}
