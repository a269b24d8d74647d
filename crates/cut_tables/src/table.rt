// The table of pieces, by the set of edges that are cut.
ghost use Rattle.cut_tables.specs.Cutting.{IsTwoSided, pieces_of, IsLabelled};
ghost use Rattle.std.specs.Prelude.{[], All, IsTrue, length, replicate, ◌++◌, ◌-◌, ◌<◌, ◌∷◌, ◌≡◌, ◌↔◌, ◌≤◌};

use crate::list::PieceList;

/// Whether the ranks can be put on two sides with every edge of the mask between them. Bit i of the mask
/// stands for edge i of `PieceList`, and a mask has six bits.
pub fn two_sided(mask: u8) -> bool
    ensures { IsTrue result ↔ IsTwoSided mask }
{
    mask < 64 && TABLE[mask as usize].count > 0
}

/// The pieces of a tetrahedron that is split at the edges of a two-sided mask in turn, edge 0 first.
pub fn pieces(mask: u8) -> PieceList
    requires { IsTwoSided mask }
    ensures count { result.count ≡ length (pieces_of mask) }
    ensures six { result.count ≤ 6 }
    ensures pieces { result.list ≡ pieces_of mask ++ replicate (6 - result.count) (0 ∷ 0 ∷ 0 ∷ 0 ∷ []) }
    ensures labels { All (IsLabelled mask) (pieces_of mask) }
{
    TABLE[mask as usize]
}

const BLANK: [u8; 4] = [0; 4];

const NOT_TWO_SIDED: PieceList = PieceList {
    count: 0,
    list: [BLANK; 6],
};

macro_rules! row {
    ($a:expr) => {
        PieceList { count: 1, list: [$a, BLANK, BLANK, BLANK, BLANK, BLANK] }
    };
    ($a:expr; $b:expr) => {
        PieceList { count: 2, list: [$a, $b, BLANK, BLANK, BLANK, BLANK] }
    };
    ($a:expr; $b:expr; $c:expr) => {
        PieceList { count: 3, list: [$a, $b, $c, BLANK, BLANK, BLANK] }
    };
    ($a:expr; $b:expr; $c:expr; $d:expr) => {
        PieceList { count: 4, list: [$a, $b, $c, $d, BLANK, BLANK] }
    };
    ($a:expr; $b:expr; $c:expr; $d:expr; $e:expr) => {
        PieceList { count: 5, list: [$a, $b, $c, $d, $e, BLANK] }
    };
    ($a:expr; $b:expr; $c:expr; $d:expr; $e:expr; $f:expr) => {
        PieceList { count: 6, list: [$a, $b, $c, $d, $e, $f] }
    };
}

// The row of each mask, in the order of the masks.
static TABLE: [PieceList; 64] = [
    // 0 to 7
    row!([0, 1, 2, 3]),
    row!([4, 1, 2, 3]; [0, 4, 2, 3]),
    row!([5, 1, 2, 3]; [0, 1, 5, 3]),
    row!([4, 1, 2, 3]; [5, 4, 2, 3]; [0, 4, 5, 3]),
    row!([6, 1, 2, 3]; [0, 1, 2, 6]),
    row!([4, 1, 2, 3]; [6, 4, 2, 3]; [0, 4, 2, 6]),
    row!([5, 1, 2, 3]; [6, 1, 5, 3]; [0, 1, 5, 6]),
    row!([4, 1, 2, 3]; [5, 4, 2, 3]; [6, 4, 5, 3]; [0, 4, 5, 6]),
    // 8 to 15
    row!([0, 7, 2, 3]; [0, 1, 7, 3]),
    row!([4, 7, 2, 3]; [4, 1, 7, 3]; [0, 4, 2, 3]),
    row!([5, 7, 2, 3]; [5, 1, 7, 3]; [0, 1, 5, 3]),
    NOT_TWO_SIDED,
    row!([6, 7, 2, 3]; [6, 1, 7, 3]; [0, 7, 2, 6]; [0, 1, 7, 6]),
    row!([4, 7, 2, 3]; [4, 1, 7, 3]; [6, 4, 2, 3]; [0, 4, 2, 6]),
    row!([5, 7, 2, 3]; [5, 1, 7, 3]; [6, 1, 5, 3]; [0, 1, 5, 6]),
    NOT_TWO_SIDED,
    // 16 to 23
    row!([0, 8, 2, 3]; [0, 1, 2, 8]),
    row!([4, 8, 2, 3]; [4, 1, 2, 8]; [0, 4, 2, 3]),
    row!([5, 8, 2, 3]; [5, 1, 2, 8]; [0, 8, 5, 3]; [0, 1, 5, 8]),
    row!([4, 8, 2, 3]; [4, 1, 2, 8]; [5, 4, 2, 3]; [0, 4, 5, 3]),
    row!([6, 8, 2, 3]; [6, 1, 2, 8]; [0, 1, 2, 6]),
    NOT_TWO_SIDED,
    row!([5, 8, 2, 3]; [5, 1, 2, 8]; [6, 8, 5, 3]; [6, 1, 5, 8]; [0, 1, 5, 6]),
    NOT_TWO_SIDED,
    // 24 to 31
    row!([0, 7, 2, 3]; [0, 8, 7, 3]; [0, 1, 7, 8]),
    row!([4, 7, 2, 3]; [4, 8, 7, 3]; [4, 1, 7, 8]; [0, 4, 2, 3]),
    row!([5, 7, 2, 3]; [5, 8, 7, 3]; [5, 1, 7, 8]; [0, 8, 5, 3]; [0, 1, 5, 8]),
    NOT_TWO_SIDED,
    row!([6, 7, 2, 3]; [6, 8, 7, 3]; [6, 1, 7, 8]; [0, 7, 2, 6]; [0, 1, 7, 6]),
    NOT_TWO_SIDED,
    row!([5, 7, 2, 3]; [5, 8, 7, 3]; [5, 1, 7, 8]; [6, 8, 5, 3]; [6, 1, 5, 8]; [0, 1, 5, 6]),
    NOT_TWO_SIDED,
    // 32 to 39
    row!([0, 1, 9, 3]; [0, 1, 2, 9]),
    row!([4, 1, 9, 3]; [4, 1, 2, 9]; [0, 4, 9, 3]; [0, 4, 2, 9]),
    row!([5, 1, 9, 3]; [5, 1, 2, 9]; [0, 1, 5, 3]),
    row!([4, 1, 9, 3]; [4, 1, 2, 9]; [5, 4, 9, 3]; [5, 4, 2, 9]; [0, 4, 5, 3]),
    row!([6, 1, 9, 3]; [6, 1, 2, 9]; [0, 1, 2, 6]),
    row!([4, 1, 9, 3]; [4, 1, 2, 9]; [6, 4, 9, 3]; [6, 4, 2, 9]; [0, 4, 2, 6]),
    NOT_TWO_SIDED,
    NOT_TWO_SIDED,
    // 40 to 47
    row!([0, 7, 9, 3]; [0, 7, 2, 9]; [0, 1, 7, 3]),
    row!([4, 7, 9, 3]; [4, 7, 2, 9]; [4, 1, 7, 3]; [0, 4, 9, 3]; [0, 4, 2, 9]),
    row!([5, 7, 9, 3]; [5, 7, 2, 9]; [5, 1, 7, 3]; [0, 1, 5, 3]),
    NOT_TWO_SIDED,
    row!([6, 7, 9, 3]; [6, 7, 2, 9]; [6, 1, 7, 3]; [0, 7, 2, 6]; [0, 1, 7, 6]),
    row!([4, 7, 9, 3]; [4, 7, 2, 9]; [4, 1, 7, 3]; [6, 4, 9, 3]; [6, 4, 2, 9]; [0, 4, 2, 6]),
    NOT_TWO_SIDED,
    NOT_TWO_SIDED,
    // 48 to 55
    row!([0, 8, 9, 3]; [0, 8, 2, 9]; [0, 1, 2, 8]),
    row!([4, 8, 9, 3]; [4, 8, 2, 9]; [4, 1, 2, 8]; [0, 4, 9, 3]; [0, 4, 2, 9]),
    row!([5, 8, 9, 3]; [5, 8, 2, 9]; [5, 1, 2, 8]; [0, 8, 5, 3]; [0, 1, 5, 8]),
    row!([4, 8, 9, 3]; [4, 8, 2, 9]; [4, 1, 2, 8]; [5, 4, 9, 3]; [5, 4, 2, 9]; [0, 4, 5, 3]),
    row!([6, 8, 9, 3]; [6, 8, 2, 9]; [6, 1, 2, 8]; [0, 1, 2, 6]),
    NOT_TWO_SIDED,
    NOT_TWO_SIDED,
    NOT_TWO_SIDED,
    // 56 to 63
    NOT_TWO_SIDED,
    NOT_TWO_SIDED,
    NOT_TWO_SIDED,
    NOT_TWO_SIDED,
    NOT_TWO_SIDED,
    NOT_TWO_SIDED,
    NOT_TWO_SIDED,
    NOT_TWO_SIDED,
];
