// Triangles cut into small lattices.
ghost use Rattle.grid.specs.Boxes.{IsInBox, IsTriInBox};
ghost use Rattle.grid.specs.Limits.{largest_side, most_epsilon};
ghost use Rattle.grid.specs.Planes.{IsDegenerate};
ghost use Rattle.mesh_store.specs.Changes.{IsSameTransaction};
ghost use Rattle.std.specs.Prelude.{IfOk, IsSome, None, OnOk, pos, ◌<◌, ◌≡◌, ◌≤◌};

use crate::first::first_inverted;
use crate::{insert, second_turn};
use background::lattice;
use cutter::{first_wanted, phase, section};
use envelope_tree::Envelope;
use grid::{Memory, Point, Tri};
use mesh_store::{Store, StoreIssue};
use mesh_types::{Again, Cut, Defect, Outcome};
use std::alloc::Global;
use std::test::Fail;

fn point(x: i32, y: i32, z: i32) -> Point
    ensures { result ≡ record { x = x; y = y; z = z } }
{
    Point { x, y, z }
}

// The box of side 16 in 64 cubes.
fn fine_store(alloc: Global) -> Result<Store, Memory>
    ensures closed { IfOk result (λ s. s.at_begin ≡ None) }
{
    let mesh = lattice(alloc, 16, 4)?;
    Store::new(alloc, &mesh, 16)
}

// The box of side 16 in one cube.
fn coarse_store(alloc: Global) -> Result<Store, Memory>
    ensures closed { IfOk result (λ s. s.at_begin ≡ None) }
    ensures side { IfOk result (λ s. s.side ≡ pos 16) }
{
    let mesh = lattice(alloc, 16, 1)?;
    Store::new(alloc, &mesh, 16)
}

// Inserts one triangle, where all tetrahedra are positive.
fn insert_one(alloc: Global, store: &mut Store, tri: Tri, e: u32) -> Result<Option<Outcome>, Memory>
    requires closed { store.old.at_begin ≡ None }
    requires tri_in { IsTriInBox largest_side tri }
    requires e_low { 1 ≤ e }
    requires e_high { e ≤ most_epsilon }
{
    let env = Envelope::build(alloc, &[tri])?;
    match first_inverted(store.slots(), 0) {
        Some(_) => Ok(None),
        None => Ok(Some(insert(alloc, store, &env, 0, e)?)),
    }
}

// Gives one triangle a second turn, where all tetrahedra are positive.
fn try_again(
    alloc: Global,
    store: &mut Store,
    tri: Tri,
    outcome: Outcome,
) -> Result<Vec<Again>, Memory>
    requires closed { store.old.at_begin ≡ None }
    requires tri_in { IsTriInBox largest_side tri }
{
    let env = Envelope::build(alloc, &[tri])?;
    match first_inverted(store.slots(), 0) {
        Some(_) => Ok(Vec::new(alloc)),
        None => second_turn(alloc, store, &env, &[outcome], 2),
    }
}

// Splits an edge, where its ends are there.
fn split(store: &mut Store, u: u32, v: u32, at: Point) -> Result<bool, StoreIssue>
    requires open { IsSome store.old.at_begin }
    requires side { store.old.side ≡ pos 16 }
    requires rises { u < v }
    requires at_in { IsInBox 16 at }
    ensures goes_on { OnOk result (IsSameTransaction store.old store.new) }
{
    if v >= store.slots().points() {
        return Ok(false);
    }
    store.refine(&[Cut { u, v, at }])?;
    Ok(true)
}

#[derive(Clone, Copy)]
struct Cutting {
    cuts: [u32; 4],
    is_open: bool,
    faces: usize,
}

// The number of cuts of each phase, whether an edge is wanted then, and the number of section faces.
fn cut_one(alloc: Global, store: &mut Store, tri: &Tri) -> Result<Cutting, StoreIssue>
    requires open { IsSome store.old.at_begin }
    requires tri_in { IsTriInBox largest_side tri.now }
    requires some_area { ¬ IsDegenerate tri.now }
{
    let a = phase(alloc, store, tri, 0)?;
    let b = phase(alloc, store, tri, 1)?;
    let c = phase(alloc, store, tri, 2)?;
    let d = phase(alloc, store, tri, 3)?;
    Ok(Cutting {
        cuts: [a, b, c, d],
        is_open: first_wanted(alloc, store, tri)?.is_some(),
        faces: section(alloc, store, tri)?.len(),
    })
}

#[test]
fn phases_of_a_triangle(rt: HostRuntime) -> Result<(), Fail> {
    let alloc = rt.alloc();
    let mut store = fine_store(alloc)?;
    let tri = Tri([point(4, 4, 6), point(12, 4, 6), point(12, 12, 6)]);
    store.begin();
    let cutting = cut_one(alloc, &mut store, &tri)?;
    assert_eq!(rt; cutting.cuts, [15, 0, 0, 0]);
    assert!(rt; !cutting.is_open);
    assert_eq!(rt; cutting.faces, 16);
    Ok(())
}

#[test]
fn inserts_between_lattice_planes(rt: HostRuntime) -> Result<(), Fail> {
    let alloc = rt.alloc();
    let mut store = fine_store(alloc)?;
    let tri = Tri([point(4, 4, 6), point(12, 4, 6), point(12, 12, 6)]);
    assert_eq!(rt;
        insert_one(alloc, &mut store, tri, 2)?,
        Some(Outcome::Inserted { points: 15 })
    );
    let lists = store.lists(alloc)?;
    assert_eq!(rt; lists.points.len(), 140);
    assert_eq!(rt; lists.tets.len(), 466);
    assert_eq!(rt; lists.tracked.len(), 16);
    Ok(())
}

#[test]
fn inserts_near_a_lattice_plane(rt: HostRuntime) -> Result<(), Fail> {
    let alloc = rt.alloc();
    let mut store = fine_store(alloc)?;
    let tri = Tri([point(4, 4, 5), point(12, 4, 5), point(12, 12, 5)]);
    assert_eq!(rt;
        insert_one(alloc, &mut store, tri, 2)?,
        Some(Outcome::Inserted { points: 0 })
    );
    let lists = store.lists(alloc)?;
    assert_eq!(rt; lists.points.len(), 125);
    assert_eq!(rt; lists.tets.len(), 384);
    assert_eq!(rt; lists.tracked.len(), 4);
    Ok(())
}

#[test]
fn rolls_back_a_stray_face(rt: HostRuntime) -> Result<(), Fail> {
    let alloc = rt.alloc();
    let mut store = fine_store(alloc)?;
    let tri = Tri([point(4, 5, 5), point(12, 5, 5), point(12, 13, 5)]);
    let stray = Defect::Stray([point(4, 4, 4), point(8, 4, 4), point(8, 8, 4)]);
    assert_eq!(rt;
        insert_one(alloc, &mut store, tri, 1)?,
        Some(Outcome::RolledBack(stray))
    );
    assert_eq!(rt; store.lists(alloc)?.tracked.len(), 0);
    Ok(())
}

#[test]
fn rolls_back_an_inverted_tetrahedron(rt: HostRuntime) -> Result<(), Fail> {
    let alloc = rt.alloc();
    let mut store = coarse_store(alloc)?;
    store.begin();
    assert!(rt; split(&mut store, 1, 3, point(16, 8, 0))?);
    assert!(rt; split(&mut store, 3, 8, point(16, 9, 0))?);
    store.commit();
    let tri = Tri([point(3, 0, 0), point(3, 16, 0), point(3, 0, 16)]);
    let inverted = Defect::Inverted([
        point(3, 2, 0),
        point(3, 2, 0),
        point(16, 9, 0),
        point(3, 3, 3),
    ]);
    assert_eq!(rt;
        insert_one(alloc, &mut store, tri, 2)?,
        Some(Outcome::RolledBack(inverted))
    );
    let lists = store.lists(alloc)?;
    assert_eq!(rt; lists.points.len(), 10);
    assert_eq!(rt; lists.tets.len(), 8);
    Ok(())
}

#[test]
fn rolls_back_a_degenerate_triangle(rt: HostRuntime) -> Result<(), Fail> {
    let alloc = rt.alloc();
    let mut store = coarse_store(alloc)?;
    let tri = Tri([point(3, 3, 3), point(6, 6, 6), point(9, 9, 9)]);
    assert_eq!(rt;
        insert_one(alloc, &mut store, tri, 2)?,
        Some(Outcome::RolledBack(Defect::Degenerate))
    );
    Ok(())
}

#[test]
fn inserts_again_what_was_rolled_back(rt: HostRuntime) -> Result<(), Fail> {
    let alloc = rt.alloc();
    let mut store = fine_store(alloc)?;
    let tri = Tri([point(4, 4, 6), point(12, 4, 6), point(12, 12, 6)]);
    let full = Outcome::RolledBack(Defect::Full);
    let again = try_again(alloc, &mut store, tri, full)?;
    let inserted = Again {
        triangle: 0,
        outcome: Outcome::Inserted { points: 15 },
    };
    assert_eq!(rt; again.as_slice(), [inserted].as_slice());
    Ok(())
}
