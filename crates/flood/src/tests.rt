// Regions of a cube, with faces that are tracked or doubled.
use crate::outside;
use grid::{Face, Tet};
use std::test::Fail;

// The six tetrahedra of one cube, of which none lies inside.
#[test]
fn one_cube(rt: HostRuntime) -> Result<(), Fail> {
    let tets = [
        Tet([0, 1, 3, 7]),
        Tet([0, 5, 1, 7]),
        Tet([0, 3, 2, 7]),
        Tet([0, 2, 6, 7]),
        Tet([0, 4, 5, 7]),
        Tet([0, 6, 4, 7]),
    ];
    let flags = outside(rt.alloc(), &tets, &[])?;
    assert_eq!(rt; flags.as_slice(), [true; 6].as_slice());
    Ok(())
}

// A tetrahedron with one more on each of its faces. It is kept where all its faces are tracked, and
// reached through the one that is not.
#[test]
fn behind_tracked_faces(rt: HostRuntime) -> Result<(), Fail> {
    let tets = [
        Tet([0, 2, 1, 4]),
        Tet([0, 1, 2, 3]),
        Tet([0, 1, 3, 5]),
        Tet([0, 3, 2, 6]),
        Tet([1, 2, 3, 7]),
    ];
    let tracked = [
        Face([0, 1, 2]),
        Face([0, 1, 3]),
        Face([0, 2, 3]),
        Face([1, 2, 3]),
    ];
    let flags = outside(rt.alloc(), &tets, &tracked)?;
    assert_eq!(rt;
        flags.as_slice(),
        [true, false, true, true, true].as_slice()
    );
    let flags = outside(rt.alloc(), &tets, &tracked[1..])?;
    assert_eq!(rt; flags.as_slice(), [true; 5].as_slice());
    Ok(())
}

// Two tetrahedra that close each other off, one of them doubled, and a fourth on one of their faces.
#[test]
fn doubled_faces(rt: HostRuntime) -> Result<(), Fail> {
    let tets = [
        Tet([0, 1, 2, 3]),
        Tet([0, 2, 1, 3]),
        Tet([0, 1, 2, 3]),
        Tet([0, 1, 2, 9]),
    ];
    let flags = outside(rt.alloc(), &tets[..3], &[])?;
    assert_eq!(rt; flags.as_slice(), [false; 3].as_slice());
    let flags = outside(rt.alloc(), &tets, &[])?;
    assert_eq!(rt; flags.as_slice(), [true; 4].as_slice());
    let flags = outside(rt.alloc(), &tets, &[Face([0, 1, 2])])?;
    assert_eq!(rt; flags.as_slice(), [false, false, false, true].as_slice());
    Ok(())
}

// Each face of this tetrahedron is the reverse of one of its faces.
#[test]
fn equal_corners(rt: HostRuntime) -> Result<(), Fail> {
    let flags = outside(rt.alloc(), &[Tet([0, 0, 1, 2])], &[])?;
    assert_eq!(rt; flags.as_slice(), [false].as_slice());
    Ok(())
}
