// What a report says.
use grid::Face;
use items::Items;
use mesh_types::{Again, Cert, End, Journal, Outcome};

/// A tracked face, by the numbers of the file, with its certificate.
#[derive(Debug, Drop)]
pub struct Covering {
    pub face: Face,
    pub cert: Cert,
}

/// The second chance of the triangles that were rolled back, and the tries behind it.
#[derive(Debug, Drop)]
pub struct Second {
    pub again: Items<Again>,
    pub journal: Journal,
    pub end: End,
}

/// What became of each triangle and of each try, and why each tracked face lies in the envelope.
/// Outcomes hold grid points, tries hold point numbers, faces the numbers of the file.
#[derive(Debug, Drop)]
pub struct Report {
    pub epsilon: u32,
    pub cells: u32,
    pub budget: u32,
    pub digits: Option<u32>,
    pub side: i32,
    pub shift: [i64; 3],
    pub outcomes: Items<Outcome>,
    pub journal: Journal,
    pub end: End,
    pub faces: Items<Covering>,
    pub second: Option<Second>,
}

/// A journal and how it ended.
#[derive(Debug, Drop)]
pub struct Tries {
    pub journal: Journal,
    pub end: End,
}

/// The digits behind the point, where they are given, and the side of the box.
#[derive(Clone, Copy, Debug)]
pub struct Size {
    pub digits: Option<u32>,
    pub side: u32,
}

/// What stands behind the first tries: the second part, where there is one, and the number of faces.
#[derive(Debug, Drop)]
pub struct Tail {
    pub second: Option<Second>,
    pub faces: u32,
}
