// Pieces of tetrahedra, by hand.
ghost use Rattle.grid.specs.Simplices.{IsTet};
ghost use Rattle.mesh_types.specs.CutLists.{AreCuts};
ghost use Rattle.std.specs.Prelude.{length, ◌+◌, ◌<◌, ◌^◌};

use crate::push_pieces;
use grid::{Memory, Point, Tet};
use mesh_types::Cut;
use std::alloc::Global;
use std::test::Fail;

const AT: Point = Point { x: 0, y: 0, z: 0 };

fn pieces_of(alloc: Global, cuts: &[Cut], first: u32, tet: Tet) -> Result<Vec<Tet>, Memory>
    requires cuts { AreCuts first cuts.now }
    requires corners { IsTet first tet.0 }
    requires room { first + length cuts.now < 2 ^ 32 }
{
    let mut all = Vec::new(alloc);
    let mut pieces = Vec::new(alloc);
    let mut spare = Vec::new(alloc);
    push_pieces(cuts, first, tet, &mut all, &mut pieces, &mut spare)?;
    Ok(all)
}

#[test]
fn splits_at_four_edges(rt: HostRuntime) -> Result<(), Fail> {
    let cuts = [
        Cut { u: 0, v: 2, at: AT },
        Cut { u: 0, v: 3, at: AT },
        Cut { u: 1, v: 2, at: AT },
        Cut { u: 1, v: 3, at: AT },
    ];
    let pieces = pieces_of(rt.alloc(), &cuts, 4, Tet([0, 1, 2, 3]))?;
    let expected = [
        Tet([4, 6, 2, 3]),
        Tet([4, 7, 6, 3]),
        Tet([4, 1, 6, 7]),
        Tet([5, 7, 4, 3]),
        Tet([5, 1, 4, 7]),
        Tet([0, 1, 4, 5]),
    ];
    assert_eq!(rt; pieces.as_slice(), expected.as_slice());
    Ok(())
}

#[test]
fn keeps_the_places_of_corners(rt: HostRuntime) -> Result<(), Fail> {
    let cuts = [Cut { u: 2, v: 5, at: AT }, Cut { u: 2, v: 9, at: AT }];
    let pieces = pieces_of(rt.alloc(), &cuts, 10, Tet([7, 5, 2, 6]))?;
    assert_eq!(rt;
        pieces.as_slice(),
        [Tet([7, 5, 10, 6]), Tet([7, 10, 2, 6])].as_slice()
    );
    Ok(())
}

#[test]
fn splits_at_the_edges_of_a_face(rt: HostRuntime) -> Result<(), Fail> {
    let cuts = [
        Cut { u: 0, v: 1, at: AT },
        Cut { u: 0, v: 2, at: AT },
        Cut { u: 1, v: 2, at: AT },
    ];
    let pieces = pieces_of(rt.alloc(), &cuts, 4, Tet([0, 1, 2, 3]))?;
    let expected = [
        Tet([4, 6, 2, 3]),
        Tet([4, 1, 6, 3]),
        Tet([5, 4, 2, 3]),
        Tet([0, 4, 5, 3]),
    ];
    assert_eq!(rt; pieces.as_slice(), expected.as_slice());
    Ok(())
}
