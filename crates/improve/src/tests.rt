// Tries on six tetrahedra.
ghost use Rattle.mesh_store.specs.Parts.{mesh_in};
ghost use Rattle.mesh_types.specs.Journals.{AllPositive, NoFaceTwice};
ghost use Rattle.std.specs.Prelude.{IfOk, None, ◌≡◌};

use crate::{Improved, improve};
use background::lattice;
use envelope_tree::Envelope;
use grid::Memory;
use mesh_store::Store;
use mesh_types::{End, Try, TryLine, Verdict, Why};
use std::alloc::Global;
use std::test::Fail;

/// A box of six tetrahedra.
fn six_tetrahedra(alloc: Global) -> Result<Store, Memory>
    ensures closed { IfOk result (λ s. s.at_begin ≡ None) }
    ensures positive { IfOk result (λ s. AllPositive (mesh_in s.parts)) }
    ensures once { IfOk result (λ s. NoFaceTwice (mesh_in s.parts)) }
{
    let start = lattice(alloc, 16, 1)?;
    Store::new(alloc, &start, 16)
}

fn improved(alloc: Global, budget: u32) -> Result<Improved, Memory> {
    let mut store = six_tetrahedra(alloc)?;
    let env = Envelope::build(alloc, &[])?;
    improve(alloc, &mut store, &env, 2, budget.min(1_000_000))
}

fn split(v: u32, verdict: Verdict) -> TryLine {
    TryLine {
        attempt: Try::Split(0, v),
        verdict,
    }
}

#[test]
fn splits_of_sides_make_worse(rt: HostRuntime) -> Result<(), Fail> {
    let done = improved(rt.alloc(), 2)?;
    let worse = Verdict::Refused(Why::Worse);
    assert_eq!(rt;
        done.journal.lines.as_slice(),
        [split(1, worse), split(2, worse)].as_slice()
    );
    assert_eq!(rt; done.end, End::Stopped);
    Ok(())
}

#[test]
fn keeps_the_split_of_the_diagonal(rt: HostRuntime) -> Result<(), Fail> {
    let done = improved(rt.alloc(), 7)?;
    let lines = done.journal.lines.as_slice();
    assert_eq!(rt; lines.len(), 7);
    assert_eq!(rt; lines.last().copied(), Some(split(7, Verdict::Kept)));
    assert_eq!(rt; done.end, End::Stopped);
    Ok(())
}

#[test]
fn without_a_budget_nothing_is_tried(rt: HostRuntime) -> Result<(), Fail> {
    let done = improved(rt.alloc(), 0)?;
    assert!(rt; done.journal.lines.as_slice().is_empty());
    assert_eq!(rt; done.end, End::Stopped);
    Ok(())
}
