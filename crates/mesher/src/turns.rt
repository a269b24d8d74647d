// Triangles inserted in turn.
ghost use Rattle.grid.specs.Determinants.{IsPositive};
ghost use Rattle.grid.specs.Limits.{most_epsilon};
ghost use Rattle.insertion.specs.InTurn.{AreSomeTurns, AreTurns};
ghost use Rattle.mesh_store.specs.Parts.{live_tets, mesh_in};
ghost use Rattle.std.specs.List.{range_with_len};
ghost use Rattle.std.specs.Prelude.{All, IfOk, None, OnErr, length, ◌≡◌, ◌≤◌};

use envelope_tree::Envelope;
use grid::Memory;
use insertion::insert;
use mesh_store::Store;
use mesh_types::Outcome;
use std::alloc::Global;

/// Inserts all triangles of the envelope in turn, and answers what became of each. One that is rolled
/// back leaves the mesh as it was. After want of memory the mesh is the one after a front of them.
pub(crate) fn insert_all(
    alloc: Global,
    store: &mut Store,
    env: &Envelope,
    e: u32,
) -> Result<Vec<Outcome>, Memory>
    requires closed { store.old.at_begin ≡ None }
    requires positive { All (IsPositive store.old.parts.points) (live_tets store.old.parts.slots) }
    requires e_low { 1 ≤ e }
    requires e_high { e ≤ most_epsilon }
    ensures closed { store.new.at_begin ≡ None }
    ensures side { store.new.side ≡ store.old.side }
    ensures turns { IfOk result (λ os. AreTurns env.now e (range_with_len 0 (length env.now)) (mesh_in store.old.parts) os.items (mesh_in store.new.parts)) }
    ensures memory { OnErr result (AreSomeTurns env.now e (range_with_len 0 (length env.now)) (mesh_in store.old.parts) (mesh_in store.new.parts)) }
{
    let mut outcomes = Vec::new(alloc);
    for t in 0..env.len() {
        let outcome = insert(alloc, store, env, t, e)?;
        outcomes.push(outcome)?;
    }
    Ok(outcomes)
}
