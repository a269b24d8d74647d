// A try, from its candidate to its verdict.
ghost use Rattle.grid.specs.Limits.{most_epsilon};
ghost use Rattle.local_ops.specs.Attempts.{IsBefore, IsMade, PassesBelow, may_go, start_of};
ghost use Rattle.mesh_store.specs.Parts.{mesh_in};
ghost use Rattle.mesh_store.specs.Sound.{IsSoundStore};
ghost use Rattle.mesh_types.specs.Journals.{AllPositive, NoFaceTwice, StaysSound, after, line, setting};
ghost use Rattle.mesh_types.specs.Tries.{is_candidate};
ghost use Rattle.mesh_types.specs.Verdicts.{IsVerdict};
ghost use Rattle.std.specs.Prelude.{IfOk, IsTrue, None, OnErr, false, nat_abs, true, ◌≡◌, ◌≤◌};
ghost use Rattle.tet_slots.specs.Searches.{numbers_of};

use crate::before::{Before, near_slots, read};
use crate::changing::change;
use crate::foreseeing::{Sight, foresee};
use crate::judging::judge;
use crate::refusals::refusal;
use envelope_tree::Envelope;
use grid::Memory;
use mesh_store::{Store, StoreIssue};
use mesh_types::{Try, Verdict, Why};
use std::alloc::Global;

/// Makes a try, and keeps it where no reason speaks against it. Where it is refused, and after want of
/// memory, the mesh is as it was. The store is closed in every case.
pub fn attempt(
    alloc: Global,
    store: &mut Store,
    env: &Envelope,
    e: u32,
    attempt: Try,
) -> Result<Verdict, Memory>
    requires closed { store.old.at_begin ≡ None }
    requires candidate { is_candidate (mesh_in store.old.parts).tets attempt ≡ true }
    requires positive { AllPositive (mesh_in store.old.parts) }
    requires e_least { 1 ≤ e }
    requires e_most { e ≤ most_epsilon }
    ensures verdict { IfOk result (λ v. IsVerdict (setting env.now e store.old.side) (mesh_in store.old.parts) attempt v) }
    ensures mesh { IfOk result (λ v. mesh_in store.new.parts ≡ after (nat_abs store.old.side) (mesh_in store.old.parts) (line attempt v)) }
    ensures memory { OnErr result (mesh_in store.new.parts ≡ mesh_in store.old.parts) }
    ensures closed { store.new.at_begin ≡ None }
    ensures side { store.new.side ≡ store.old.side }
    ensures sound { StaysSound (setting env.now e store.old.side) (mesh_in store.old.parts) (mesh_in store.new.parts) }
    ensures gone { NoFaceTwice (mesh_in store.old.parts)
        → result ≡ Ok Verdict.Kept
        → is_candidate (mesh_in store.new.parts).tets attempt ≡ false }
{
    // The type says what holds of the store.
    let _ = store.slots();
    try_out(alloc, store, env, e, attempt, false)
}

/// Makes a try as `attempt` does, on a mesh in which no oriented face occurs twice. That is known
/// beforehand, so more of the refusals are seen without making the try.
pub fn attempt_on_once(
    alloc: Global,
    store: &mut Store,
    env: &Envelope,
    e: u32,
    attempt: Try,
) -> Result<Verdict, Memory>
    requires closed { store.old.at_begin ≡ None }
    requires candidate { is_candidate (mesh_in store.old.parts).tets attempt ≡ true }
    requires positive { AllPositive (mesh_in store.old.parts) }
    requires once { NoFaceTwice (mesh_in store.old.parts) }
    requires e_least { 1 ≤ e }
    requires e_most { e ≤ most_epsilon }
    ensures verdict { IfOk result (λ v. IsVerdict (setting env.now e store.old.side) (mesh_in store.old.parts) attempt v) }
    ensures mesh { IfOk result (λ v. mesh_in store.new.parts ≡ after (nat_abs store.old.side) (mesh_in store.old.parts) (line attempt v)) }
    ensures memory { OnErr result (mesh_in store.new.parts ≡ mesh_in store.old.parts) }
    ensures closed { store.new.at_begin ≡ None }
    ensures side { store.new.side ≡ store.old.side }
    ensures sound { StaysSound (setting env.now e store.old.side) (mesh_in store.old.parts) (mesh_in store.new.parts) }
    ensures gone { result ≡ Ok Verdict.Kept → is_candidate (mesh_in store.new.parts).tets attempt ≡ false }
{
    // The type says what holds of the store.
    let _ = store.slots();
    try_out(alloc, store, env, e, attempt, true)
}

/// Makes a try. `once` says that no oriented face of the mesh occurs twice.
fn try_out(
    alloc: Global,
    store: &mut Store,
    env: &Envelope,
    e: u32,
    attempt: Try,
    once: bool,
) -> Result<Verdict, Memory>
    requires closed { store.old.at_begin ≡ None }
    requires sound { IsSoundStore store.old.side store.old.parts }
    requires candidate { is_candidate (mesh_in store.old.parts).tets attempt ≡ true }
    requires positive { AllPositive (mesh_in store.old.parts) }
    requires once { IsTrue once → NoFaceTwice (mesh_in store.old.parts) }
    requires e_most { e ≤ most_epsilon }
    ensures verdict { IfOk result (λ v. IsVerdict (setting env.now e store.old.side) (mesh_in store.old.parts) attempt v) }
    ensures mesh { IfOk result (λ v. mesh_in store.new.parts ≡ after (nat_abs store.old.side) (mesh_in store.old.parts) (line attempt v)) }
    ensures memory { OnErr result (mesh_in store.new.parts ≡ mesh_in store.old.parts) }
    ensures closed { store.new.at_begin ≡ None }
    ensures side { store.new.side ≡ store.old.side }
{
    let found = refusal(alloc, store, attempt)?;
    match found {
        Some(why) => Ok(Verdict::Refused(why)),
        None => make(alloc, store, env, e, attempt, once),
    }
}

/// Makes a try that is not refused before.
fn make(
    alloc: Global,
    store: &mut Store,
    env: &Envelope,
    e: u32,
    attempt: Try,
    once: bool,
) -> Result<Verdict, Memory>
    requires closed { store.old.at_begin ≡ None }
    requires sound { IsSoundStore store.old.side store.old.parts }
    requires candidate { is_candidate (mesh_in store.old.parts).tets attempt ≡ true }
    requires positive { AllPositive (mesh_in store.old.parts) }
    requires once { IsTrue once → NoFaceTwice (mesh_in store.old.parts) }
    requires e_most { e ≤ most_epsilon }
    requires passed { PassesBelow (setting env.now e store.old.side) (mesh_in store.old.parts) attempt 3 }
    ensures verdict { IfOk result (λ v. IsVerdict (setting env.now e store.old.side) (mesh_in store.old.parts) attempt v) }
    ensures mesh { IfOk result (λ v. mesh_in store.new.parts ≡ after (nat_abs store.old.side) (mesh_in store.old.parts) (line attempt v)) }
    ensures memory { OnErr result (mesh_in store.new.parts ≡ mesh_in store.old.parts) }
    ensures closed { store.new.at_begin ≡ None }
    ensures side { store.new.side ≡ store.old.side }
{
    let near = near_slots(alloc, store.slots(), attempt)?;
    match foresee(alloc, store, attempt, &near, once)? {
        Sight::Refused(why) => Ok(Verdict::Refused(why)),
        Sight::Better => make_so(alloc, store, env, e, attempt, near, true),
        Sight::Unseen => make_so(alloc, store, env, e, attempt, near, false),
    }
}

/// Makes a try that no refusal was seen of. `better` says that only its tracked faces can speak against it.
fn make_so(
    alloc: Global,
    store: &mut Store,
    env: &Envelope,
    e: u32,
    attempt: Try,
    near: Vec<u32>,
    better: bool,
) -> Result<Verdict, Memory>
    requires closed { store.old.at_begin ≡ None }
    requires sound { IsSoundStore store.old.side store.old.parts }
    requires candidate { is_candidate (mesh_in store.old.parts).tets attempt ≡ true }
    requires positive { AllPositive (mesh_in store.old.parts) }
    requires e_most { e ≤ most_epsilon }
    requires near { near.items ≡ numbers_of (may_go attempt) 0 store.old.parts.slots }
    requires passed { PassesBelow (setting env.now e store.old.side) (mesh_in store.old.parts) attempt 3 }
    requires better { IsTrue better → PassesBelow (setting env.now e store.old.side) (mesh_in store.old.parts) attempt 7 }
    ensures verdict { IfOk result (λ v. IsVerdict (setting env.now e store.old.side) (mesh_in store.old.parts) attempt v) }
    ensures mesh { IfOk result (λ v. mesh_in store.new.parts ≡ after (nat_abs store.old.side) (mesh_in store.old.parts) (line attempt v)) }
    ensures memory { OnErr result (mesh_in store.new.parts ≡ mesh_in store.old.parts) }
    ensures closed { store.new.at_begin ≡ None }
    ensures side { store.new.side ≡ store.old.side }
{
    let before = read(alloc, store, attempt, near)?;
    match change(alloc, store, attempt) {
        Ok(()) => settle(alloc, store, env, e, attempt, before, better),
        Err(StoreIssue::Full) => Ok(Verdict::Refused(Why::Full)),
        Err(StoreIssue::Memory) => Err(Memory),
    }
}

/// Keeps the mesh that a try made, or gives back the mesh before it.
fn settle(
    alloc: Global,
    store: &mut Store,
    env: &Envelope,
    e: u32,
    attempt: Try,
    before: Before,
    better: bool,
) -> Result<Verdict, Memory>
    requires e_in { e ≤ most_epsilon }
    requires made { IsMade attempt store.old }
    requires before { IsBefore attempt (start_of store.old) before }
    requires passed { PassesBelow (setting env.now e store.old.side) (mesh_in (start_of store.old)) attempt 4 }
    requires better { IsTrue better → PassesBelow (setting env.now e store.old.side) (mesh_in (start_of store.old)) attempt 7 }
    ensures verdict { IfOk result (λ v. IsVerdict (setting env.now e store.old.side) (mesh_in (start_of store.old)) attempt v) }
    ensures mesh { IfOk result (λ v. mesh_in store.new.parts ≡ after (nat_abs store.old.side) (mesh_in (start_of store.old)) (line attempt v)) }
    ensures memory { OnErr result (mesh_in store.new.parts ≡ mesh_in (start_of store.old)) }
    ensures closed { store.new.at_begin ≡ None }
    ensures side { store.new.side ≡ store.old.side }
{
    match judge(alloc, store, env, e, attempt, &before, better) {
        Ok(Verdict::Kept) => {
            store.commit();
            Ok(Verdict::Kept)
        }
        Ok(Verdict::Refused(why)) => {
            store.rollback();
            Ok(Verdict::Refused(why))
        }
        Err(Memory) => {
            store.rollback();
            Err(Memory)
        }
    }
}
