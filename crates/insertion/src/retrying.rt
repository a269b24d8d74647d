// A second turn for the triangles that were rolled back.
ghost use Rattle.grid.specs.Determinants.{IsPositive};
ghost use Rattle.grid.specs.Limits.{most_epsilon};
ghost use Rattle.insertion.specs.InTurn.{AreSomeTurns, AreTurns, outcomes_of, triangles_of};
ghost use Rattle.mesh_store.specs.Parts.{live_tets, mesh_in};
ghost use Rattle.mesh_types.specs.Turns.{is_rolled_back, rolled_back};
ghost use Rattle.std.specs.Prelude.{All, IfOk, None, OnErr, length, ◌≡◌, ◌≤◌};

use crate::inserting::insert;
use envelope_tree::Envelope;
use grid::Memory;
use mesh_store::Store;
use mesh_types::{Again, Outcome};
use std::alloc::Global;

fn has_defect(outcome: Outcome) -> bool
    ensures { result ≡ is_rolled_back outcome }
{
    match outcome {
        Outcome::Inserted { points: _ } => false,
        Outcome::RolledBack(_) => true,
    }
}

/// Inserts once more each triangle of the envelope that was rolled back, in rising order, and answers
/// what became of these. `outcomes` has one for each triangle. One that is rolled back again leaves the
/// mesh as it was. After want of memory the mesh is the one after a front of them. The store is closed
/// in every case.
pub fn second_turn(
    alloc: Global,
    store: &mut Store,
    env: &Envelope,
    outcomes: &[Outcome],
    e: u32,
) -> Result<Vec<Again>, Memory>
    requires closed { store.old.at_begin ≡ None }
    requires positive { All (IsPositive store.old.parts.points) (live_tets store.old.parts.slots) }
    requires one_each { length outcomes.now ≡ length env.now }
    requires e_low { 1 ≤ e }
    requires e_high { e ≤ most_epsilon }
    ensures closed { store.new.at_begin ≡ None }
    ensures side { store.new.side ≡ store.old.side }
    ensures triangles { IfOk result (λ again. triangles_of again.items ≡ rolled_back 0 outcomes.now) }
    ensures turns { IfOk result (λ again. AreTurns env.now e (rolled_back 0 outcomes.now) (mesh_in store.old.parts) (outcomes_of again.items) (mesh_in store.new.parts)) }
    ensures memory { OnErr result (AreSomeTurns env.now e (rolled_back 0 outcomes.now) (mesh_in store.old.parts) (mesh_in store.new.parts)) }
{
    let mut again = Vec::new(alloc);
    for t in 0..env.len() {
        if has_defect(outcomes[t as usize]) {
            let outcome = insert(alloc, store, env, t, e)?;
            again.push(Again {
                triangle: t,
                outcome,
            })?;
        }
    }
    Ok(again)
}
