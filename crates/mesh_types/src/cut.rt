// Cuts of edges.
use grid::Point;

/// An edge to cut, by the numbers of its ends, and the new point on it.
#[derive(Clone, Copy, Debug, PartialEq, Eq)]
pub struct Cut {
    pub u: u32,
    pub v: u32,
    pub at: Point,
}
