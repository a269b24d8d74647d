// Rows of the table.
use crate::{PieceList, pieces, two_sided};
use std::test::Fail;

const NONE: [u8; 4] = [0; 4];

fn row(mask: u8) -> Option<PieceList> {
    if two_sided(mask) {
        Some(pieces(mask))
    } else {
        None
    }
}

#[test]
fn gives_the_pieces_in_order(rt: HostRuntime) -> Result<(), Fail> {
    let whole = PieceList {
        count: 1,
        list: [[0, 1, 2, 3], NONE, NONE, NONE, NONE, NONE],
    };
    assert_eq!(rt; row(0), Some(whole));
    let two = PieceList {
        count: 2,
        list: [[4, 1, 2, 3], [0, 4, 2, 3], NONE, NONE, NONE, NONE],
    };
    assert_eq!(rt; row(1), Some(two));
    let three = PieceList {
        count: 3,
        list: [[4, 1, 2, 3], [5, 4, 2, 3], [0, 4, 5, 3], NONE, NONE, NONE],
    };
    assert_eq!(rt; row(3), Some(three));
    let six = PieceList {
        count: 6,
        list: [
            [5, 7, 2, 3],
            [5, 8, 7, 3],
            [5, 1, 7, 8],
            [6, 8, 5, 3],
            [6, 1, 5, 8],
            [0, 1, 5, 6],
        ],
    };
    assert_eq!(rt; row(30), Some(six));
    Ok(())
}

#[test]
fn refuses_a_triangle_of_edges(rt: HostRuntime) -> Result<(), Fail> {
    assert_eq!(rt; row(11), None);
    assert_eq!(rt; row(64), None);
    Ok(())
}
