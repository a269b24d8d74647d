// Transactions on small meshes.
ghost use Rattle.std.specs.Prelude.{IfOk, IsSome, None, length, pos, ◌≡◌};

mod long;

use super::*;
use grid::{Point, Tet};
use std::test::Fail;

fn point(x: i32, y: i32, z: i32) -> Point
    ensures { result ≡ record { x = x; y = y; z = z } }
{
    Point { x, y, z }
}

/// A closed store of a box of side 16, cut into six tetrahedra round the edge from 0 to 7.
fn cube(alloc: Global) -> Result<Store, Memory>
    ensures closed { IfOk result (λ s. s.at_begin ≡ None) }
    ensures points { IfOk result (λ s. length s.parts.points ≡ 8) }
    ensures side { IfOk result (λ s. s.side ≡ pos 16) }
{
    let points = [
        point(0, 0, 0),
        point(16, 0, 0),
        point(0, 16, 0),
        point(16, 16, 0),
        point(0, 0, 16),
        point(16, 0, 16),
        point(0, 16, 16),
        point(16, 16, 16),
    ];
    let tets = [
        Tet([0, 1, 3, 7]),
        Tet([0, 5, 1, 7]),
        Tet([0, 3, 2, 7]),
        Tet([0, 2, 6, 7]),
        Tet([0, 4, 5, 7]),
        Tet([0, 6, 4, 7]),
    ];
    let mesh = Lists {
        points: Items::from_slice(alloc, &points)?,
        tets: Items::from_slice(alloc, &tets)?,
        tracked: Items::new(alloc),
        made: 6,
    };
    Store::new(alloc, &mesh, 16)
}

/// The cube, open, with its edge from 0 to 7 split at the middle.
fn split_cube(alloc: Global) -> Result<Store, StoreIssue>
    ensures open { IfOk result (λ s. IsSome s.at_begin) }
    ensures side { IfOk result (λ s. s.side ≡ pos 16) }
{
    let mut store = cube(alloc)?;
    store.begin();
    let cuts = [Cut {
        u: 0,
        v: 7,
        at: point(8, 8, 8),
    }];
    store.refine(&cuts)?;
    Ok(store)
}

#[test]
fn rolls_back(rt: HostRuntime) -> Result<(), Fail> {
    let alloc = rt.alloc();
    let mut store = split_cube(alloc)?;
    store.rollback();
    assert!(rt; !store.is_open());
    let before = store.lists(alloc)?;
    assert_eq!(rt; before.points.len(), 8);
    assert_eq!(rt; before.tets.len(), 6);
    assert_eq!(rt; before.made, 6);
    Ok(())
}

#[test]
fn gives_the_pieces_at_an_edge(rt: HostRuntime) -> Result<(), Fail> {
    let store = cube(rt.alloc())?;
    let cuts = [Cut {
        u: 0,
        v: 3,
        at: point(8, 8, 0),
    }];
    let pieces = store.pieces(&cuts)?;
    let expected = [
        Tet([8, 1, 3, 7]),
        Tet([0, 1, 8, 7]),
        Tet([8, 3, 2, 7]),
        Tet([0, 8, 2, 7]),
    ];
    assert_eq!(rt; pieces.as_slice(), expected.as_slice());
    assert_eq!(rt; store.slots().points(), 8);
    Ok(())
}

#[test]
fn commits(rt: HostRuntime) -> Result<(), Fail> {
    let alloc = rt.alloc();
    let mut store = cube(alloc)?;
    assert_eq!(rt; store.side(), 16);
    store.begin();
    store.track(&[Face([0, 1, 3])])?;
    store.commit();
    assert!(rt; !store.is_open());
    assert!(rt; store.tracked().has(Face([0, 1, 3])));
    assert_eq!(rt; store.slots().made(), 6);
    Ok(())
}

#[test]
fn shifts_a_point(rt: HostRuntime) -> Result<(), Fail> {
    let alloc = rt.alloc();
    let mut store = split_cube(alloc)?;
    assert_eq!(rt; store.slots().points(), 9);
    store.shift(8, point(8, 8, 9))?;
    let shifted = store.lists(alloc)?;
    assert_eq!(rt; shifted.points.len(), 10);
    assert_eq!(rt; shifted.tets.len(), 12);
    assert_eq!(rt; shifted.made, 30);
    Ok(())
}

#[test]
fn collapses_an_edge(rt: HostRuntime) -> Result<(), Fail> {
    let alloc = rt.alloc();
    let mut store = split_cube(alloc)?;
    assert_eq!(rt; store.slots().points(), 9);
    store.collapse(8, 0)?;
    let collapsed = store.lists(alloc)?;
    assert_eq!(rt; collapsed.points.len(), 9);
    assert_eq!(rt; collapsed.tets.len(), 6);
    assert_eq!(rt; collapsed.made, 24);
    Ok(())
}

/// The cube, open, with the two tetrahedra at the face (0, 1, 7) swapped for three.
fn swapped_cube(alloc: Global) -> Result<Store, StoreIssue>
    ensures open { IfOk result (λ s. IsSome s.at_begin) }
{
    let mut store = cube(alloc)?;
    store.begin();
    store.swap23(0, 1, 7)?;
    Ok(store)
}

#[test]
fn swaps_two_for_three(rt: HostRuntime) -> Result<(), Fail> {
    let alloc = rt.alloc();
    let store = swapped_cube(alloc)?;
    let swapped = store.lists(alloc)?;
    let expected = [
        Tet([0, 3, 2, 7]),
        Tet([0, 2, 6, 7]),
        Tet([0, 4, 5, 7]),
        Tet([0, 6, 4, 7]),
        Tet([5, 1, 3, 7]),
        Tet([0, 5, 3, 7]),
        Tet([0, 1, 3, 5]),
    ];
    assert_eq!(rt; swapped.tets.as_slice(), &expected[..]);
    Ok(())
}

#[test]
fn swaps_three_for_two(rt: HostRuntime) -> Result<(), Fail> {
    let alloc = rt.alloc();
    let mut store = swapped_cube(alloc)?;
    store.swap32(3, 5)?;
    let swapped = store.lists(alloc)?;
    let expected = [
        Tet([0, 3, 2, 7]),
        Tet([0, 2, 6, 7]),
        Tet([0, 4, 5, 7]),
        Tet([0, 6, 4, 7]),
        Tet([0, 1, 3, 7]),
        Tet([5, 1, 0, 7]),
    ];
    assert_eq!(rt; swapped.tets.as_slice(), &expected[..]);
    assert_eq!(rt; swapped.made, 11);
    Ok(())
}
