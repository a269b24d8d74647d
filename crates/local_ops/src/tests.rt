// Tries on small lattices, and what a try costs.
ghost use Rattle.grid.specs.Limits.{IsCells};
ghost use Rattle.grid.specs.Meshes.{IsTriple};
ghost use Rattle.mesh_store.specs.Parts.{mesh_in};
ghost use Rattle.mesh_types.specs.Journals.{AllPositive};
ghost use Rattle.mesh_types.specs.Tries.{is_candidate};
ghost use Rattle.std.specs.Prelude.{All, IfOk, None, Ok, length, true, ◌*◌, ◌≡◌, ◌≤◌};

use crate::{attempt, is_candidate};
use background::lattice;
use envelope_tree::Envelope;
use grid::{Face, Memory, Point, Tet};
use items::Items;
use mesh_store::Store;
use mesh_types::{Lists, Try, Verdict, Why};
use std::alloc::Global;
use std::test::Fail;

fn background_store(alloc: Global, cells: u32) -> Result<Store, Memory>
    requires cells_in { IsCells cells }
    requires room { 4 * cells ≤ 16 }
    ensures closed { IfOk result (λ s. s.at_begin ≡ None) }
    ensures positive { IfOk result (λ s. AllPositive (mesh_in s.parts)) }
{
    let start = lattice(alloc, 16, cells)?;
    Store::new(alloc, &start, 16)
}

fn track(store: &mut Store, faces: &[Face]) -> Result<(), Memory>
    requires closed { store.old.at_begin ≡ None }
    requires positive { AllPositive (mesh_in store.old.parts) }
    requires triples { All (λ f. IsTriple (length store.old.parts.points) f.0) faces.now }
    ensures closed { store.new.at_begin ≡ None }
    ensures positive { AllPositive (mesh_in store.new.parts) }
{
    store.begin();
    match store.track(faces) {
        Ok(()) => {
            store.commit();
            Ok(())
        }
        Err(Memory) => Err(Memory),
    }
}

/// The verdict on a try, if it can be made.
fn verdict(alloc: Global, store: &mut Store, try_made: Try) -> Result<Option<Verdict>, Memory>
    requires closed { store.old.at_begin ≡ None }
    requires positive { AllPositive (mesh_in store.old.parts) }
    ensures closed { store.new.at_begin ≡ None }
    ensures positive { AllPositive (mesh_in store.new.parts) }
{
    let env = Envelope::build(alloc, &[])?;
    if is_candidate(store, &try_made) {
        let verdict = attempt(alloc, store, &env, 2, try_made)?;
        Ok(Some(verdict))
    } else {
        Ok(None)
    }
}

#[test]
fn tries_on_the_coarsest_background(rt: HostRuntime) -> Result<(), Fail> {
    let alloc = rt.alloc();
    let mut store = background_store(alloc, 1)?;
    let worse = Some(Verdict::Refused(Why::Worse));
    assert_eq!(rt; verdict(alloc, &mut store, Try::Split(1, 0))?, None);
    assert_eq!(rt; verdict(alloc, &mut store, Try::Split(0, 1))?, worse);
    let inverted = Some(Verdict::Refused(Why::Inverted));
    assert_eq!(rt;
        verdict(alloc, &mut store, Try::FaceSwap(0, 1, 7))?,
        inverted
    );
    assert_eq!(rt;
        verdict(alloc, &mut store, Try::Split(0, 7))?,
        Some(Verdict::Kept)
    );
    assert_eq!(rt; verdict(alloc, &mut store, Try::Collapse(8, 0))?, worse);
    let off_the_box = Some(Verdict::Refused(Why::Box));
    assert_eq!(rt;
        verdict(alloc, &mut store, Try::Collapse(0, 8))?,
        off_the_box
    );
    assert_eq!(rt; verdict(alloc, &mut store, Try::Shift(8, 0))?, worse);
    Ok(())
}

#[test]
fn keeps_tracked_faces(rt: HostRuntime) -> Result<(), Fail> {
    let alloc = rt.alloc();
    let mut store = background_store(alloc, 4)?;
    assert!(rt; store.slots().points() > 37);
    track(&mut store, &[Face([31, 32, 37])])?;
    let tracked = Some(Verdict::Refused(Why::Tracked));
    assert_eq!(rt;
        verdict(alloc, &mut store, Try::FaceSwap(31, 32, 37))?,
        tracked
    );
    let rim = Some(Verdict::Refused(Why::Rim));
    assert_eq!(rt; verdict(alloc, &mut store, Try::Shift(31, 0))?, rim);
    assert_eq!(rt; verdict(alloc, &mut store, Try::Collapse(31, 32))?, rim);
    Ok(())
}

fn point(x: i32, y: i32, z: i32) -> Point
    ensures { result ≡ record { x = x; y = y; z = z } }
{
    Point { x, y, z }
}

/// Two tetrahedra on the sides of a face, and a third on the far side of one of theirs.
fn three(alloc: Global) -> Result<Store, Memory>
    ensures closed { IfOk result (λ s. s.at_begin ≡ None) }
    ensures positive { IfOk result (λ s. AllPositive (mesh_in s.parts)) }
{
    let points = [
        point(0, 0, 4),
        point(8, 0, 4),
        point(0, 8, 4),
        point(2, 2, 8),
        point(2, 2, 0),
    ];
    let tets = [Tet([0, 1, 2, 3]), Tet([0, 2, 1, 4]), Tet([4, 1, 2, 3])];
    let mesh = Lists {
        points: Items::from_slice(alloc, &points)?,
        tets: Items::from_slice(alloc, &tets)?,
        tracked: Items::new(alloc),
        made: 3,
    };
    Store::new(alloc, &mesh, 16)
}

#[test]
fn refuses_a_doubled_face(rt: HostRuntime) -> Result<(), Fail> {
    let alloc = rt.alloc();
    let mut store = three(alloc)?;
    let doubled = Some(Verdict::Refused(Why::Doubled));
    assert_eq!(rt;
        verdict(alloc, &mut store, Try::FaceSwap(0, 1, 2))?,
        doubled
    );
    let lists = store.lists(alloc)?;
    assert_eq!(rt; lists.points.len(), 5);
    let before = [Tet([0, 1, 2, 3]), Tet([0, 2, 1, 4]), Tet([4, 1, 2, 3])];
    assert_eq!(rt; lists.tets.as_slice(), &before[..]);
    assert_eq!(rt; lists.made, 3);
    Ok(())
}

/// A lattice of 196608 tetrahedra.
fn large_store(alloc: Global) -> Result<Store, Memory>
    ensures closed { IfOk result (λ s. s.at_begin ≡ None) }
    ensures positive { IfOk result (λ s. AllPositive (mesh_in s.parts)) }
{
    let start = lattice(alloc, 262144, 32)?;
    Store::new(alloc, &start, 262144)
}

/// Whether the try is refused, as it makes the mesh worse. It can be made again then.
fn is_worse(alloc: Global, store: &mut Store, env: &Envelope, try_made: Try) -> Result<bool, Memory>
    requires closed { store.old.at_begin ≡ None }
    requires positive { AllPositive (mesh_in store.old.parts) }
    requires candidate { is_candidate (mesh_in store.old.parts).tets try_made ≡ true }
    ensures closed { store.new.at_begin ≡ None }
    ensures same { result ≡ Ok true → mesh_in store.new.parts ≡ mesh_in store.old.parts }
{
    let verdict = attempt(alloc, store, env, 2, try_made)?;
    match verdict {
        Verdict::Refused(Why::Worse) => Ok(true),
        _ => Ok(false),
    }
}

/// Whether the try is refused so many times in turn, as it makes the mesh worse.
fn is_always_worse(
    alloc: Global,
    store: &mut Store,
    try_made: Try,
    times: u32,
) -> Result<bool, Memory>
    requires closed { store.old.at_begin ≡ None }
    requires positive { AllPositive (mesh_in store.old.parts) }
    requires candidate { is_candidate (mesh_in store.old.parts).tets try_made ≡ true }
{
    let env = Envelope::build(alloc, &[])?;
    for _ in 0..times {
        if !is_worse(alloc, store, &env, try_made)? {
            return Ok(false);
        }
    }
    Ok(true)
}

#[test]
fn a_try_costs_its_neighbourhood(rt: HostRuntime) -> Result<(), Fail> {
    let alloc = rt.alloc();
    let mut store = large_store(alloc)?;
    let split = Try::Split(0, 1);
    assert!(rt; is_candidate(&store, &split));
    assert!(rt; is_always_worse(alloc, &mut store, split, 100_000)?);
    Ok(())
}
