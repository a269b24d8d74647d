// The verdict on a try that was made.
ghost use Rattle.grid.specs.Limits.{most_epsilon};
ghost use Rattle.local_ops.specs.Attempts.{IsBefore, IsMade, PassesBelow, start_of};
ghost use Rattle.mesh_store.specs.Parts.{mesh_in};
ghost use Rattle.mesh_types.specs.Journals.{setting};
ghost use Rattle.mesh_types.specs.Verdicts.{IsVerdict};
ghost use Rattle.std.specs.Prelude.{IfOk, IsTrue, ◌≤◌};

use crate::before::Before;
use crate::covering::are_covered;
use crate::measures::{all_positive, largest_dead, largest_new};
use crate::single::are_single;
use envelope_tree::Envelope;
use grid::Memory;
use mesh_store::Store;
use mesh_types::{Try, Verdict, Why};
use std::alloc::Global;

/// Inverted, Doubled, Worse or Uncovered, the first of them that holds, else Kept. `better` says that only
/// the last can hold.
pub(crate) fn judge(
    alloc: Global,
    store: &Store,
    env: &Envelope,
    e: u32,
    attempt: Try,
    before: &Before,
    better: bool,
) -> Result<Verdict, Memory>
    requires e_in { e ≤ most_epsilon }
    requires made { IsMade attempt store.now }
    requires before { IsBefore attempt (start_of store.now) before.now }
    requires passed { PassesBelow (setting env.now e store.now.side) (mesh_in (start_of store.now)) attempt 4 }
    requires better { IsTrue better → PassesBelow (setting env.now e store.now.side) (mesh_in (start_of store.now)) attempt 7 }
    ensures { IfOk result (IsVerdict (setting env.now e store.now.side) (mesh_in (start_of store.now)) attempt) }
{
    if better {
        return judge_better(alloc, store, env, e, attempt, before);
    }
    if all_positive(store.slots(), before.made) {
        judge_positive(alloc, store, env, e, attempt, before)
    } else {
        Ok(Verdict::Refused(Why::Inverted))
    }
}

fn judge_positive(
    alloc: Global,
    store: &Store,
    env: &Envelope,
    e: u32,
    attempt: Try,
    before: &Before,
) -> Result<Verdict, Memory>
    requires e_in { e ≤ most_epsilon }
    requires made { IsMade attempt store.now }
    requires before { IsBefore attempt (start_of store.now) before.now }
    requires passed { PassesBelow (setting env.now e store.now.side) (mesh_in (start_of store.now)) attempt 5 }
    ensures { IfOk result (IsVerdict (setting env.now e store.now.side) (mesh_in (start_of store.now)) attempt) }
{
    if are_single(alloc, store.slots(), before.made)? {
        judge_single(alloc, store, env, e, attempt, before)
    } else {
        Ok(Verdict::Refused(Why::Doubled))
    }
}

fn judge_single(
    alloc: Global,
    store: &Store,
    env: &Envelope,
    e: u32,
    attempt: Try,
    before: &Before,
) -> Result<Verdict, Memory>
    requires e_in { e ≤ most_epsilon }
    requires made { IsMade attempt store.now }
    requires before { IsBefore attempt (start_of store.now) before.now }
    requires passed { PassesBelow (setting env.now e store.now.side) (mesh_in (start_of store.now)) attempt 6 }
    ensures { IfOk result (IsVerdict (setting env.now e store.now.side) (mesh_in (start_of store.now)) attempt) }
{
    let slots = store.slots();
    if largest_new(slots, before.made) < largest_dead(slots, &before.near) {
        judge_better(alloc, store, env, e, attempt, before)
    } else {
        Ok(Verdict::Refused(Why::Worse))
    }
}

fn judge_better(
    alloc: Global,
    store: &Store,
    env: &Envelope,
    e: u32,
    attempt: Try,
    before: &Before,
) -> Result<Verdict, Memory>
    requires e_in { e ≤ most_epsilon }
    requires made { IsMade attempt store.now }
    requires before { IsBefore attempt (start_of store.now) before.now }
    requires passed { PassesBelow (setting env.now e store.now.side) (mesh_in (start_of store.now)) attempt 7 }
    ensures { IfOk result (IsVerdict (setting env.now e store.now.side) (mesh_in (start_of store.now)) attempt) }
{
    if are_covered(alloc, store, env, e, before)? {
        Ok(Verdict::Kept)
    } else {
        Ok(Verdict::Refused(Why::Uncovered))
    }
}
