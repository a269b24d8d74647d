// On the largest background mesh a call costs what it touches, and not the mesh.
ghost use Rattle.grid.specs.Boxes.{IsInBox};
ghost use Rattle.grid.specs.Limits.{IsCells, IsSide};
ghost use Rattle.mesh_store.specs.Sound.{IsBox, IsFirstMesh};
ghost use Rattle.mesh_types.specs.CutLists.{AreCuts};
ghost use Rattle.std.specs.Prelude.{All, IfOk, None, OnOk, length, nat_abs, pos, ◌*◌, ◌≡◌, ◌≤ℤ◌};

use crate::{Store, StoreIssue};
use background::lattice;
use grid::{Memory, Point};
use mesh_types::{Cut, Lists};
use std::alloc::Global;
use std::test::Fail;
use tet_slots::Slots;

/// The side of a box in grid steps, and the cubes along each axis.
#[derive(Clone, Copy)]
struct Size {
    side: i32,
    cells: u32,
}

fn largest() -> Size
    ensures cells { IsCells result.cells }
    ensures side { IsSide result.side }
    ensures room { pos (4 * result.cells) ≤ℤ result.side }
    ensures bounds { IsBox result.side }
    ensures wide { pos 4096 ≤ℤ result.side }
{
    Size {
        side: 262_144,
        cells: 32,
    }
}

fn background_of(alloc: Global, side: i32, cells: u32) -> Result<Lists, Memory>
    requires cells { IsCells cells }
    requires side { IsSide side }
    requires room { pos (4 * cells) ≤ℤ side }
    requires bounds { IsBox side }
    ensures { IfOk result (λ m. IsFirstMesh side m) }
{
    let mesh = lattice(alloc, side, cells)?;
    Ok(mesh)
}

/// A closed store of the largest background mesh.
fn largest_store(alloc: Global) -> Result<Store, Memory>
    ensures closed { IfOk result (λ s. s.at_begin ≡ None) }
    ensures wide { IfOk result (λ s. pos 4096 ≤ℤ s.side) }
{
    let size = largest();
    let mesh = background_of(alloc, size.side, size.cells)?;
    Store::new(alloc, &mesh, size.side)
}

fn many() -> u32 {
    500_000
}

/// The middle of the edge from 0 to 1.
fn middle() -> Point
    ensures { result ≡ record { x = pos 4096; y = pos 0; z = pos 0 } }
{
    Point {
        x: 4096,
        y: 0,
        z: 0,
    }
}

fn split_and_back(store: &mut Store, cuts: &[Cut]) -> Result<(), StoreIssue>
    requires closed { store.old.at_begin ≡ None }
    requires cuts { AreCuts (length store.old.parts.points) cuts.now }
    requires in_box { All (λ e. IsInBox (nat_abs store.old.side) e.at) cuts.now }
    ensures { OnOk result (store.new ≡ store.old) }
{
    store.begin();
    store.refine(cuts)?;
    store.rollback();
    Ok(())
}

/// Splits at the cuts and rolls back, so many times.
fn split_often(store: &mut Store, cuts: &[Cut], times: u32) -> Result<(), StoreIssue>
    requires closed { store.old.at_begin ≡ None }
    requires cuts { AreCuts (length store.old.parts.points) cuts.now }
    requires in_box { All (λ e. IsInBox (nat_abs store.old.side) e.at) cuts.now }
    ensures { OnOk result (store.new ≡ store.old) }
{
    for _ in 0..times {
        split_and_back(store, cuts)?;
    }
    Ok(())
}

/// Splits the edge from 0 to 1 at its middle so many times, takes each back, and splits it once more.
/// The lists before and after that last split, or None where there is no such edge.
fn split_first_edge(
    alloc: Global,
    store: &mut Store,
    times: u32,
) -> Result<Option<(Lists, Lists)>, StoreIssue>
    requires closed { store.old.at_begin ≡ None }
    requires wide { pos 4096 ≤ℤ store.old.side }
{
    if store.slots().points() < 2 {
        return Ok(None);
    }
    let cuts = [Cut {
        u: 0,
        v: 1,
        at: middle(),
    }];
    split_often(store, &cuts, times)?;
    let before = store.lists(alloc)?;
    store.begin();
    store.refine(&cuts)?;
    let after = store.lists(alloc)?;
    Ok(Some((before, after)))
}

/// Whether the lists are the same, `made` included.
fn are_same(a: &Lists, b: &Lists) -> bool {
    a.points.as_slice() == b.points.as_slice()
        && a.tets.as_slice() == b.tets.as_slice()
        && a.tracked.as_slice() == b.tracked.as_slice()
        && a.made == b.made
}

fn have_counts(lists: &Lists, points: usize, tets: usize) -> bool {
    lists.points.len() == points && lists.tets.len() == tets
}

/// The lists at the beginning, and what the splits give.
fn split_largest(alloc: Global, times: u32) -> Result<Option<(Lists, Lists)>, StoreIssue> {
    let mut store = largest_store(alloc)?;
    split_first_edge(alloc, &mut store, times)
}

/// Whether the edge from 0 to 1, split and taken back, leaves the mesh as it was, and has two tetrahedra.
fn are_right(first: &Lists, before: &Lists, after: &Lists) -> bool {
    are_same(before, first) && have_counts(after, 35_938, 196_610)
}

fn splits_and_backs(alloc: Global) -> Result<bool, StoreIssue> {
    let first = largest_store(alloc)?.lists(alloc)?;
    match split_largest(alloc, many())? {
        Some((before, after)) => Ok(are_right(&first, &before, &after)),
        None => Ok(false),
    }
}

/// Whether the slots at the first point are 0 to 5, each of so many times.
fn meets_first_six(alloc: Global, slots: &Slots, times: u32) -> Result<bool, Memory> {
    let first = Point { x: 0, y: 0, z: 0 };
    let mut found = Vec::new(alloc);
    for _ in 0..times {
        slots.meeting(first, first, &mut found)?;
        if found.as_slice() != &[0, 1, 2, 3, 4, 5][..] {
            return Ok(false);
        }
    }
    Ok(true)
}

fn searches(alloc: Global) -> Result<bool, Memory> {
    let store = largest_store(alloc)?;
    meets_first_six(alloc, store.slots(), many())
}

#[test]
fn a_split_costs_its_neighbourhood(rt: HostRuntime) -> Result<(), Fail> {
    assert!(rt; splits_and_backs(rt.alloc())?);
    Ok(())
}

#[test]
fn a_search_costs_its_neighbourhood(rt: HostRuntime) -> Result<(), Fail> {
    assert!(rt; searches(rt.alloc())?);
    Ok(())
}
