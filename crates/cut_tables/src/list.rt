/// The pieces of a tetrahedron: the first `count` members of `list`, whose other members are four zeros.
///
/// A corner's rank is the place of its number among the four numbers of the corners. A piece has four
/// labels: 0 to 3 are the corners by rank, and `4 + i` is the new point of edge i, where the edges join
/// the ranks (0,1), (0,2), (0,3), (1,2), (1,3) and (2,3). The label at place r of a piece goes to the
/// place that the corner of rank r has in the tetrahedron.
#[derive(Clone, Copy, Debug, PartialEq, Eq)]
pub struct PieceList {
    pub count: usize,
    pub list: [[u8; 4]; 6],
}
