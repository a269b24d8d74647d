//! A cube without one triangle, in the midst of a box of side 16: its open side has a rim.
ghost use Rattle.grid.specs.Boxes.{IsInBox, IsTriInBox};
ghost use Rattle.grid.specs.Limits.{largest_side};
ghost use Rattle.grid.specs.Meshes.{Tiles};
ghost use Rattle.mesh_store.specs.Parts.{mesh_in};
ghost use Rattle.std.specs.Prelude.{All, IfOk, None, length, nat_abs, pos, ◌^◌, ◌≡◌, ◌≤◌, ◌≤ℤ◌};

use crate::parts::first_part;
use background::lattice;
use envelope_tree::Envelope;
use grid::{Memory, Point, Tri};
use local_ops::{attempt, is_candidate};
use mesh_store::Store;
use mesh_types::{Try, Verdict, Why};
use std::alloc::Global;
use std::test::Fail;

fn lattice_store(alloc: Global) -> Result<Store, Memory>
    ensures closed { IfOk result (λ s. s.at_begin ≡ None) }
    ensures tiles { IfOk result (λ s. Tiles (mesh_in s.parts) (nat_abs s.side)) }
{
    let start = lattice(alloc, 16, 4)?;
    let store = Store::new(alloc, &start, 16)?;
    Ok(store)
}

/// The verdict on a try, if it can be made, where all triangles were inserted.
fn verdict_then(
    alloc: Global,
    store: &mut Store,
    env: &Envelope,
    try_made: Try,
) -> Result<Option<Verdict>, Memory>
    requires closed { store.old.at_begin ≡ None }
    requires tiles { Tiles (mesh_in store.old.parts) (nat_abs store.old.side) }
{
    let _ = first_part(alloc, store, env, 2, 0)?;
    if !is_candidate(store, &try_made) {
        return Ok(None);
    }
    let verdict = attempt(alloc, store, env, 2, try_made)?;
    Ok(Some(verdict))
}

/// A coordinate of a corner of the cube.
fn coordinate(is_far: bool) -> i32
    ensures low { pos 0 ≤ℤ result }
    ensures high { result ≤ℤ pos 16 }
{
    if is_far { 12 } else { 4 }
}

fn corner(number: u8) -> Point
    ensures { IsInBox largest_side result }
{
    Point {
        x: coordinate(number & 1 != 0),
        y: coordinate(number & 2 != 0),
        z: coordinate(number & 4 != 0),
    }
}

fn tri(a: u8, b: u8, c: u8) -> Tri
    ensures { IsTriInBox largest_side result }
{
    Tri([corner(a), corner(b), corner(c)])
}

/// The triangles by the numbers of their corners. The cube's last one, 2 7 6, is not there.
const CORNERS: [[u8; 3]; 11] = [
    [0, 1, 3],
    [0, 3, 2],
    [4, 5, 7],
    [4, 7, 6],
    [0, 2, 6],
    [0, 6, 4],
    [1, 3, 7],
    [1, 7, 5],
    [0, 1, 5],
    [0, 5, 4],
    [2, 3, 7],
];

fn open_cube(alloc: Global) -> Result<Vec<Tri>, Memory>
    ensures few { IfOk result (λ v. length v.items ≤ 2 ^ 24) }
    ensures inside { IfOk result (λ v. All (IsTriInBox largest_side) v.items) }
{
    let mut triangles = Vec::new(alloc);
    for i in 0..CORNERS.len() {
        let [a, b, c] = CORNERS[i];
        triangles.push(tri(a, b, c))?;
    }
    Ok(triangles)
}

#[test]
fn refuses_a_shift_of_the_rim(rt: HostRuntime) -> Result<(), Fail> {
    let alloc = rt.alloc();
    let triangles = open_cube(alloc)?;
    let env = Envelope::build(alloc, &triangles)?;
    let mut store = lattice_store(alloc)?;
    let verdict = verdict_then(alloc, &mut store, &env, Try::Shift(66, 0))?;
    assert_eq!(rt; verdict, Some(Verdict::Refused(Why::Rim)));
    assert_eq!(rt; store.lists(alloc)?.tracked.len(), 44);
    Ok(())
}
