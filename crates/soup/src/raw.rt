// Soups as they were read, and as they are placed.
use grid::Tri;
use items::Items;

/// A soup of triangles as it was read: vertices in grid steps, before they are shifted into a box, and
/// triangles by the numbers of their vertices. Gaps, crossings and repetitions are allowed, and so are
/// vertices that no triangle has.
#[derive(Debug, Drop)]
pub struct Raw {
    pub vertices: Items<[i64; 3]>,
    pub faces: Items<[u32; 3]>,
}

/// A soup of triangles in a box of the grid, whose coordinates go from 0 to `side`. A grid point plus
/// `shift` is the point as it was read.
#[derive(Debug, Drop)]
pub struct Soup {
    pub triangles: Items<Tri>,
    pub side: i32,
    pub shift: [i64; 3],
}
