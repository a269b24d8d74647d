// The parts of a run: triangles in turn, and then tries within a budget.
ghost use Rattle.grid.specs.Limits.{most_epsilon};
ghost use Rattle.grid.specs.Meshes.{Tiles};
ghost use Rattle.mesh_store.specs.Parts.{mesh_in};
ghost use Rattle.mesh_types.specs.Journals.{AllCovered, setting};
ghost use Rattle.mesh_types.specs.Turns.{rolled_back};
ghost use Rattle.mesher.specs.Meshed.{IsPart, IsSecondOrNone};
ghost use Rattle.std.specs.List.{range_with_len};
ghost use Rattle.std.specs.Prelude.{IfOk, None, OnOk, length, nat_abs, ◌≡◌, ◌≤◌};

use crate::turns::insert_all;
use envelope_tree::Envelope;
use grid::Memory;
use improve::{Improved, improve};
use insertion::second_turn;
use items::Items;
use mesh_store::Store;
use mesh_types::{End, Journal, Outcome};
use report_text::Second;
use std::alloc::Global;

/// What became of each triangle and of each try.
#[derive(Drop)]
pub(crate) struct First {
    pub outcomes: Vec<Outcome>,
    pub journal: Journal,
    pub end: End,
}

/// Inserts all triangles of the envelope in turn, and improves the mesh by at most `budget` tries.
pub(crate) fn first_part(
    alloc: Global,
    store: &mut Store,
    env: &Envelope,
    e: u32,
    budget: u32,
) -> Result<First, Memory>
    requires closed { store.old.at_begin ≡ None }
    requires tiles { Tiles (mesh_in store.old.parts) (nat_abs store.old.side) }
    requires e_least { 1 ≤ e }
    requires e_most { e ≤ most_epsilon }
    requires budget_most { budget ≤ 1000000 }
    ensures closed { store.new.at_begin ≡ None }
    ensures side { store.new.side ≡ store.old.side }
    ensures part { IfOk result (λ f. IsPart (setting env.now e store.old.side) (range_with_len 0 (length env.now)) budget (mesh_in store.old.parts) f.outcomes.items f.journal.lines f.end (mesh_in store.new.parts)) }
    ensures few { IfOk result (λ f. length f.journal.lines ≤ budget) }
    ensures tiles { OnOk result (Tiles (mesh_in store.new.parts) (nat_abs store.old.side)) }
    ensures covered { OnOk result (AllCovered (setting env.now e store.old.side) (mesh_in store.old.parts) → AllCovered (setting env.now e store.old.side) (mesh_in store.new.parts)) }
{
    // The type says what holds of the store, here and below.
    let _ = store.slots();
    let outcomes = insert_all(alloc, store, env, e)?;
    let _ = store.slots();
    let Improved { journal, end } = improve(alloc, store, env, e, budget)?;
    Ok(First {
        outcomes,
        journal,
        end,
    })
}

/// Where triangles were rolled back, inserts these once more, in rising order, and improves the mesh by at
/// most `budget` tries. None exactly where none was rolled back, and then nothing changes.
pub(crate) fn second_part(
    alloc: Global,
    store: &mut Store,
    env: &Envelope,
    outcomes: &[Outcome],
    e: u32,
    budget: u32,
) -> Result<Option<Second>, Memory>
    requires closed { store.old.at_begin ≡ None }
    requires tiles { Tiles (mesh_in store.old.parts) (nat_abs store.old.side) }
    requires one_each { length outcomes.now ≡ length env.now }
    requires e_least { 1 ≤ e }
    requires e_most { e ≤ most_epsilon }
    requires budget_most { budget ≤ 1000000 }
    ensures closed { store.new.at_begin ≡ None }
    ensures side { store.new.side ≡ store.old.side }
    ensures part { IfOk result (λ second. IsSecondOrNone (setting env.now e store.old.side) (rolled_back 0 outcomes.now) budget (mesh_in store.old.parts) second (mesh_in store.new.parts)) }
    ensures tiles { OnOk result (Tiles (mesh_in store.new.parts) (nat_abs store.old.side)) }
    ensures covered { OnOk result (AllCovered (setting env.now e store.old.side) (mesh_in store.old.parts) → AllCovered (setting env.now e store.old.side) (mesh_in store.new.parts)) }
{
    let _ = store.slots();
    let again = Items::from_vec(second_turn(alloc, store, env, outcomes, e)?);
    let _ = store.slots();
    if again.as_slice().is_empty() {
        return Ok(None);
    }
    let Improved { journal, end } = improve(alloc, store, env, e, budget)?;
    Ok(Some(Second {
        again,
        journal,
        end,
    }))
}
