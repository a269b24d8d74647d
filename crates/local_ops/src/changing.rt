// The change of the mesh that a try makes.
ghost use Rattle.grid.specs.Meshes.{IsWithinLimits};
ghost use Rattle.local_ops.specs.Attempts.{IsChanged};
ghost use Rattle.mesh_store.specs.Parts.{mesh_in};
ghost use Rattle.mesh_store.specs.Sound.{IsSoundStore};
ghost use Rattle.mesh_types.specs.Results.{result_of};
ghost use Rattle.mesh_types.specs.Tries.{is_candidate};
ghost use Rattle.std.specs.Prelude.{Err, None, OnErr, OnOk, nat_abs, true, ◌≡◌};

use crate::smoothing::{midpoint, target};
use mesh_store::{Store, StoreIssue};
use mesh_types::{Cut, Try};
use std::alloc::Global;

/// Opens the store and makes the try. Where that would pass a limit, and after want of memory, the store
/// is as it was.
pub(crate) fn change(alloc: Global, store: &mut Store, attempt: Try) -> Result<(), StoreIssue>
    requires closed { store.old.at_begin ≡ None }
    requires sound { IsSoundStore store.old.side store.old.parts }
    requires candidate { is_candidate (mesh_in store.old.parts).tets attempt ≡ true }
    ensures ok { OnOk result (IsChanged attempt store.old store.new) }
    ensures full { result ≡ Err StoreIssue.Full → ¬ IsWithinLimits (result_of (nat_abs store.old.side) (mesh_in store.old.parts) attempt).mesh }
    ensures err { OnErr result (store.new ≡ store.old) }
{
    match attempt {
        Try::Split(u, v) => split(store, u, v),
        Try::Shift(u, way) => shift(alloc, store, u, way),
        Try::Collapse(u, v) => collapse(store, u, v),
        Try::FaceSwap(a, b, c) => swap_face(store, a, b, c),
        Try::EdgeSwap(u, v) => swap_edge(store, u, v),
    }
}

fn split(store: &mut Store, u: u32, v: u32) -> Result<(), StoreIssue>
    requires closed { store.old.at_begin ≡ None }
    requires sound { IsSoundStore store.old.side store.old.parts }
    requires candidate { is_candidate (mesh_in store.old.parts).tets (Try.Split u v) ≡ true }
    ensures ok { OnOk result (IsChanged (Try.Split u v) store.old store.new) }
    ensures full { result ≡ Err StoreIssue.Full → ¬ IsWithinLimits (result_of (nat_abs store.old.side) (mesh_in store.old.parts) (Try.Split u v)).mesh }
    ensures err { OnErr result (store.new ≡ store.old) }
{
    let at = midpoint(store.slots().point(u), store.slots().point(v));
    store.begin();
    store.refine(&[Cut { u, v, at }])
}

fn shift(alloc: Global, store: &mut Store, u: u32, way: u8) -> Result<(), StoreIssue>
    requires closed { store.old.at_begin ≡ None }
    requires sound { IsSoundStore store.old.side store.old.parts }
    requires candidate { is_candidate (mesh_in store.old.parts).tets (Try.Shift u way) ≡ true }
    ensures ok { OnOk result (IsChanged (Try.Shift u way) store.old store.new) }
    ensures full { result ≡ Err StoreIssue.Full → ¬ IsWithinLimits (result_of (nat_abs store.old.side) (mesh_in store.old.parts) (Try.Shift u way)).mesh }
    ensures err { OnErr result (store.new ≡ store.old) }
{
    let at = target(alloc, store, u, way)?;
    store.begin();
    store.shift(u, at)
}

fn collapse(store: &mut Store, u: u32, v: u32) -> Result<(), StoreIssue>
    requires closed { store.old.at_begin ≡ None }
    requires sound { IsSoundStore store.old.side store.old.parts }
    requires candidate { is_candidate (mesh_in store.old.parts).tets (Try.Collapse u v) ≡ true }
    ensures ok { OnOk result (IsChanged (Try.Collapse u v) store.old store.new) }
    ensures full { result ≡ Err StoreIssue.Full → ¬ IsWithinLimits (result_of (nat_abs store.old.side) (mesh_in store.old.parts) (Try.Collapse u v)).mesh }
    ensures err { OnErr result (store.new ≡ store.old) }
{
    store.begin();
    store.collapse(u, v)
}

fn swap_face(store: &mut Store, a: u32, b: u32, c: u32) -> Result<(), StoreIssue>
    requires closed { store.old.at_begin ≡ None }
    ensures ok { OnOk result (IsChanged (Try.FaceSwap a b c) store.old store.new) }
    ensures full { result ≡ Err StoreIssue.Full → ¬ IsWithinLimits (result_of (nat_abs store.old.side) (mesh_in store.old.parts) (Try.FaceSwap a b c)).mesh }
    ensures err { OnErr result (store.new ≡ store.old) }
{
    store.begin();
    store.swap23(a, b, c)
}

fn swap_edge(store: &mut Store, u: u32, v: u32) -> Result<(), StoreIssue>
    requires closed { store.old.at_begin ≡ None }
    ensures ok { OnOk result (IsChanged (Try.EdgeSwap u v) store.old store.new) }
    ensures full { result ≡ Err StoreIssue.Full → ¬ IsWithinLimits (result_of (nat_abs store.old.side) (mesh_in store.old.parts) (Try.EdgeSwap u v)).mesh }
    ensures err { OnErr result (store.new ≡ store.old) }
{
    store.begin();
    store.swap32(u, v)
}
