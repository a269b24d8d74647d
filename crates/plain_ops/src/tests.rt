// Refining, inserting and trying, the slow way.
ghost use Rattle.grid.specs.Limits.{most_points};
ghost use Rattle.mesh_types.specs.declared.tries.Try;
ghost use Rattle.mesh_types.specs.declared.tries.Verdict;
ghost use Rattle.mesh_types.specs.Journals.{after, line};
ghost use Rattle.mesh_types.specs.Lattice.{lattice};
ghost use Rattle.mesh_types.specs.Tries.{is_candidate};
ghost use Rattle.mesh_types.specs.Views.{mesh_of};
ghost use Rattle.std.specs.Prelude.{IfOk, IfSome, length, true, ◌≡◌, ◌≤◌, ◌^◌};

use crate::{attempt_plain, refine_plain};
use envelope_tree::Envelope;
use grid::{Face, Memory, Point, Tet};
use items::Items;
use mesh_types::{Cut, Lists, Try, Verdict, Why};
use std::alloc::{AllocError, Global};
use std::test::Fail;

const POINTS: [Point; 8] = [
    Point { x: 0, y: 0, z: 0 },
    Point { x: 16, y: 0, z: 0 },
    Point { x: 0, y: 16, z: 0 },
    Point { x: 16, y: 16, z: 0 },
    Point { x: 0, y: 0, z: 16 },
    Point { x: 16, y: 0, z: 16 },
    Point { x: 0, y: 16, z: 16 },
    Point {
        x: 16,
        y: 16,
        z: 16,
    },
];

const TETS: [Tet; 6] = [
    Tet([0, 1, 3, 7]),
    Tet([0, 5, 1, 7]),
    Tet([0, 3, 2, 7]),
    Tet([0, 2, 6, 7]),
    Tet([0, 4, 5, 7]),
    Tet([0, 6, 4, 7]),
];

// The cube of side 16 in six tetrahedra, with one tracked face.
fn cube(alloc: Global) -> Result<Lists, AllocError>
    ensures points { IfOk result (λ m. length m.points ≤ most_points) }
    ensures made { IfOk result (λ m. m.made ≤ 2 ^ 22) }
{
    Ok(Lists {
        points: Items::from_slice(alloc, &POINTS)?,
        tets: Items::from_slice(alloc, &TETS)?,
        tracked: Items::from_slice(alloc, &[Face([0, 1, 3])])?,
        made: 6,
    })
}

#[test]
fn splits_the_diagonal(rt: HostRuntime) -> Result<(), Fail> {
    let mesh = cube(rt.alloc())?;
    let cut = Cut {
        u: 0,
        v: 7,
        at: Point { x: 8, y: 8, z: 8 },
    };
    let refined = refine_plain(rt.alloc(), &mesh, &[cut])?;
    let expected = [
        Tet([8, 1, 3, 7]),
        Tet([0, 1, 3, 8]),
        Tet([8, 5, 1, 7]),
        Tet([0, 5, 1, 8]),
        Tet([8, 3, 2, 7]),
        Tet([0, 3, 2, 8]),
        Tet([8, 2, 6, 7]),
        Tet([0, 2, 6, 8]),
        Tet([8, 4, 5, 7]),
        Tet([0, 4, 5, 8]),
        Tet([8, 6, 4, 7]),
        Tet([0, 6, 4, 8]),
    ];
    assert_eq!(rt; refined.tets.as_slice(), expected.as_slice());
    assert_eq!(rt; refined.points.len(), 9);
    assert_eq!(rt; refined.made, 18);
    assert_eq!(rt; refined.tracked.as_slice(), [Face([0, 1, 3])].as_slice());
    Ok(())
}

#[test]
fn splits_a_tracked_face(rt: HostRuntime) -> Result<(), Fail> {
    let mesh = cube(rt.alloc())?;
    let cut = Cut {
        u: 0,
        v: 1,
        at: Point { x: 8, y: 0, z: 0 },
    };
    let refined = refine_plain(rt.alloc(), &mesh, &[cut])?;
    let expected = [Face([0, 3, 8]), Face([1, 3, 8])];
    assert_eq!(rt; refined.tracked.as_slice(), expected.as_slice());
    assert_eq!(rt; refined.tets.len(), 8);
    Ok(())
}

// The lattice of side 16 with one cell: the cube with no tracked face.
fn bare(alloc: Global) -> Result<Lists, Memory>
    ensures { IfOk result (λ m. mesh_of m ≡ lattice 16 1) }
{
    Ok(Lists {
        points: Items::from_slice(alloc, &POINTS)?,
        tets: Items::from_slice(alloc, &TETS)?,
        tracked: Items::new(alloc),
        made: 6,
    })
}

fn verdict_on(alloc: Global, attempt: Try) -> Result<Verdict, Memory>
    requires { is_candidate (lattice 16 1).tets attempt ≡ true }
{
    let mesh = bare(alloc)?;
    let env = Envelope::build(alloc, &[])?;
    let made = attempt_plain(alloc, &mesh, &env, 2, 16, attempt)?;
    Ok(made.verdict)
}

#[test]
fn tries_on_the_coarsest_background(rt: HostRuntime) -> Result<(), Fail> {
    let alloc = rt.alloc();
    let worse = Verdict::Refused(Why::Worse);
    assert_eq!(rt; verdict_on(alloc, Try::Split(0, 1))?, worse);
    let inverted = Verdict::Refused(Why::Inverted);
    assert_eq!(rt; verdict_on(alloc, Try::FaceSwap(0, 1, 7))?, inverted);
    assert_eq!(rt; verdict_on(alloc, Try::Split(0, 7))?, Verdict::Kept);
    Ok(())
}

// The lattice after the split of its diagonal, if that is kept.
fn split_cell(alloc: Global) -> Result<Option<Lists>, Memory>
    ensures { IfOk result (λ r. IfSome r (λ m. mesh_of m ≡ after 16 (lattice 16 1) (line (Try.Split 0 7) Verdict.Kept))) }
{
    let mesh = bare(alloc)?;
    let env = Envelope::build(alloc, &[])?;
    let made = attempt_plain(alloc, &mesh, &env, 2, 16, Try::Split(0, 7))?;
    match made.verdict {
        Verdict::Kept => Ok(Some(made.mesh)),
        Verdict::Refused(_) => Ok(None),
    }
}

fn verdict_in(alloc: Global, mesh: &Lists, attempt: Try) -> Result<Verdict, Memory>
    requires cell { mesh_of mesh.now ≡ after 16 (lattice 16 1) (line (Try.Split 0 7) Verdict.Kept) }
    requires candidate { is_candidate (mesh_of mesh.now).tets attempt ≡ true }
{
    let env = Envelope::build(alloc, &[])?;
    let made = attempt_plain(alloc, mesh, &env, 2, 16, attempt)?;
    Ok(made.verdict)
}

#[test]
fn tries_on_the_split_cell(rt: HostRuntime) -> Result<(), Fail> {
    let alloc = rt.alloc();
    let cell = split_cell(alloc)?;
    assert!(rt; cell.is_some());
    if let Some(mesh) = cell {
        let worse = Verdict::Refused(Why::Worse);
        let off_the_box = Verdict::Refused(Why::Box);
        assert_eq!(rt; verdict_in(alloc, &mesh, Try::Collapse(8, 0))?, worse);
        assert_eq!(rt; verdict_in(alloc, &mesh, Try::Collapse(0, 8))?, off_the_box);
        assert_eq!(rt; verdict_in(alloc, &mesh, Try::Shift(8, 0))?, worse);
    }
    Ok(())
}
