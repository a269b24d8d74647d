// The lists of a mesh.
use grid::{Face, Point, Tet};
use items::Items;

/// A mesh: its points, its tetrahedra, its tracked faces as rising triples in rising order, and how
/// many tetrahedra were ever made.
#[derive(Debug, Drop)]
pub struct Lists {
    pub points: Items<Point>,
    pub tets: Items<Tet>,
    pub tracked: Items<Face>,
    pub made: u32,
}
