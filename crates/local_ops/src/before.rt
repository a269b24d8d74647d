// What is read off the mesh before a try.
ghost use Rattle.local_ops.specs.Attempts.{IsBefore, may_go, pivot_of};
ghost use Rattle.std.specs.Prelude.{IfOk, ◌≡◌};
ghost use Rattle.tet_slots.specs.Searches.{numbers_of};

use crate::surface::faces_at;
use grid::{Face, Memory};
use mesh_store::Store;
use mesh_types::Try;
use std::alloc::Global;
use tet_slots::Slots;

/// What a try is judged against: the mesh before it, as far as it matters.
#[derive(Drop)]
pub(crate) struct Before {
    /// The number of slots.
    pub made: u32,
    /// The slots that the try may kill.
    pub near: Vec<u32>,
    /// A corner of each face that the try tracks anew: the point that it makes, or for a collapse the
    /// point that stays.
    pub pivot: u32,
    /// The tracked faces that have this corner.
    pub faces: Vec<Face>,
}

/// Reads it; `near` are the slots that the try may kill.
pub(crate) fn read(
    alloc: Global,
    store: &Store,
    attempt: Try,
    near: Vec<u32>,
) -> Result<Before, Memory>
    requires { near.items ≡ numbers_of (may_go attempt) 0 store.now.parts.slots }
    ensures { IfOk result (IsBefore attempt store.now.parts) }
{
    let pivot = pivot(store.slots().points(), attempt);
    let faces = faces_at(alloc, store, pivot)?;
    Ok(Before {
        made: store.slots().made(),
        near,
        pivot,
        faces,
    })
}

/// The slots that the try may kill.
pub(crate) fn near_slots(alloc: Global, slots: &Slots, attempt: Try) -> Result<Vec<u32>, Memory>
    ensures { IfOk result (λ v. v.items ≡ numbers_of (may_go attempt) 0 slots.now.slots) }
{
    let mut near = Vec::new(alloc);
    match attempt {
        Try::Split(u, v) => slots.having2(u, v, &mut near)?,
        Try::Shift(u, _) => slots.having(u, &mut near)?,
        Try::Collapse(u, _) => slots.having(u, &mut near)?,
        Try::FaceSwap(a, b, _) => slots.having2(a, b, &mut near)?,
        Try::EdgeSwap(u, v) => slots.having2(u, v, &mut near)?,
    }
    Ok(near)
}

fn pivot(points: u32, attempt: Try) -> u32
    ensures { result ≡ pivot_of points attempt }
{
    match attempt {
        Try::Collapse(_, v) => v,
        Try::Split(..) | Try::Shift(..) | Try::FaceSwap(..) | Try::EdgeSwap(..) => points,
    }
}
