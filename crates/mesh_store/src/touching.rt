// What a list of cuts touches, and the tracked faces at a point.
ghost use Rattle.grid.specs.Meshes.{Ordered};
ghost use Rattle.grid.specs.Simplices.{has, same_triple};
ghost use Rattle.grid.specs.Views.{triples_of};
ghost use Rattle.mesh_store.specs.Changes.{is_split};
ghost use Rattle.mesh_store.specs.Exchanges.{at_corner};
ghost use Rattle.mesh_store.specs.Parts.{tracked_in};
ghost use Rattle.mesh_types.specs.Refines.{is_touched};
ghost use Rattle.std.specs.List.{filter, list_any};
ghost use Rattle.std.specs.Prelude.{IfOk, List, OnOk, ℕ, ◌++◌, ◌≡◌};
ghost use Rattle.tet_slots.specs.Searches.{numbers_of};

use grid::{Face, Memory};
use mesh_types::Cut;
use std::alloc::Global;
use tet_slots::Slots;
use tracked::Tracked;

/// The live slots that have both ends of a cut, in rising order.
pub(crate) fn touched_slots(alloc: Global, slots: &Slots, cuts: &[Cut]) -> Result<Vec<u32>, Memory>
    ensures { IfOk result (λ w. w.items ≡ numbers_of (is_split cuts.now) 0 slots.now.slots) }
{
    let mut touched = Vec::new(alloc);
    let mut at_edge = Vec::new(alloc);
    for cut in cuts {
        slots.having2(cut.u, cut.v, &mut at_edge)?;
        touched.extend_from_slice(&at_edge)?;
    }
    tet_slots::rise(&mut touched);
    Ok(touched)
}

/// The tracked faces that have both ends of a cut, in rising order.
pub(crate) fn touched_faces(
    alloc: Global,
    tracked: &Tracked,
    cuts: &[Cut],
) -> Result<Vec<Face>, Memory>
    ensures { IfOk result (λ w. triples_of w.items ≡ filter (is_touched cuts.now) (tracked_in tracked.now)) }
{
    let mut touched = Vec::new(alloc);
    let mut at_end = Vec::new(alloc);
    for cut in cuts {
        tracked.at_point(cut.u, &mut at_end)?;
        push_having(&mut touched, &at_end, cut.v)?;
    }
    rise(&mut touched);
    Ok(touched)
}

/// The tracked faces that have u, in rising order.
pub(crate) fn faces_at(alloc: Global, tracked: &Tracked, u: u32) -> Result<Vec<Face>, Memory>
    ensures { IfOk result (λ w. triples_of w.items ≡ at_corner u (tracked_in tracked.now)) }
{
    let mut faces = Vec::new(alloc);
    tracked.at_point(u, &mut faces)?;
    rise(&mut faces);
    Ok(faces)
}

/// Adds the faces that have v.
fn push_having(touched: &mut Vec<Face>, faces: &[Face], v: u32) -> Result<(), Memory>
    ensures { OnOk result (touched.new.items ≡ touched.old.items ++ filter (λ f. has f.0 v) faces.now) }
{
    for face in faces {
        if face.has(v) {
            touched.push(*face)?;
        }
    }
    Ok(())
}

/// Puts faces into rising order, each once. Takes no memory.
fn rise(faces: &mut Vec<Face>)
    ensures ordered { Ordered (triples_of faces.new.items) }
    ensures same { (x : List ℕ) → list_any (same_triple x) (triples_of faces.new.items) ≡ list_any (same_triple x) (triples_of faces.old.items) }
{
    faces.sort_unstable();
    faces.dedup();
}
