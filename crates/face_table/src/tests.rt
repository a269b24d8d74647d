// Counts and pairs of a few faces.
ghost use Rattle.std.specs.Prelude.{◌≡◌, length};

use crate::{FaceTable, Paired, pairing};
use grid::{Face, Memory, Point, Tet};

fn point(x: i32, y: i32, z: i32) -> Point {
    Point { x, y, z }
}

/// The corners of the cube from 0 to 16, the first axis running fastest.
fn corners() -> [Point; 8]
    ensures { length result ≡ 8 }
{
    [
        point(0, 0, 0),
        point(16, 0, 0),
        point(0, 16, 0),
        point(16, 16, 0),
        point(0, 0, 16),
        point(16, 0, 16),
        point(0, 16, 16),
        point(16, 16, 16),
    ]
}

#[test]
fn rotations_are_counted_together(rt: HostRuntime) -> Result<(), Memory> {
    let mut table = FaceTable::new(rt.alloc());
    table.add(Face([0, 1, 3]))?;
    table.add(Face([3, 0, 1]))?;
    assert_eq!(rt; table.count(Face([1, 3, 0])), 2);
    assert_eq!(rt; table.count(Face([0, 3, 1])), 0);
    Ok(())
}

#[test]
fn a_face_with_equal_corners_is_one(rt: HostRuntime) -> Result<(), Memory> {
    let mut table = FaceTable::new(rt.alloc());
    table.add(Face([2, 2, 5]))?;
    table.add(Face([2, 5, 2]))?;
    assert_eq!(rt; table.count(Face([5, 2, 2])), 2);
    Ok(())
}

#[test]
fn six_tetrahedra_pair(rt: HostRuntime) -> Result<(), Memory> {
    let points = corners();
    let tets = [
        Tet([0, 1, 3, 7]),
        Tet([0, 5, 1, 7]),
        Tet([0, 3, 2, 7]),
        Tet([0, 2, 6, 7]),
        Tet([0, 4, 5, 7]),
        Tet([0, 6, 4, 7]),
    ];
    assert_eq!(rt; pairing(rt.alloc(), &tets, &points, 16)?, Paired::Good);
    Ok(())
}

#[test]
fn the_first_loose_face_is_named(rt: HostRuntime) -> Result<(), Memory> {
    let points = corners();
    let tets = [
        Tet([0, 1, 3, 7]),
        Tet([0, 5, 1, 7]),
        Tet([0, 3, 2, 7]),
        Tet([0, 2, 6, 7]),
        Tet([0, 4, 5, 7]),
    ];
    assert_eq!(rt;
        pairing(rt.alloc(), &tets, &points, 16)?,
        Paired::Loose(Face([0, 7, 6]))
    );
    Ok(())
}

#[test]
fn the_first_repeat_is_named(rt: HostRuntime) -> Result<(), Memory> {
    let points = corners();
    let tets = [Tet([0, 1, 3, 7]), Tet([0, 1, 3, 7])];
    assert_eq!(rt;
        pairing(rt.alloc(), &tets, &points, 16)?,
        Paired::Twice(Face([0, 3, 1]))
    );
    Ok(())
}
