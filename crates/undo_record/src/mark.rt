// A mark of one change.
use grid::Face;

/// A change of a mesh.
#[derive(Clone, Copy, Debug, PartialEq, Eq)]
pub enum Mark {
    /// A point was made after the others.
    PointMade,
    /// A slot was made after the others.
    TetMade,
    /// The live slot of this number was killed.
    Killed(u32),
    /// A key was made after the others, and is in.
    FaceNew,
    /// A key that was out was put in.
    FaceIn(Face),
    /// A key that was in was taken out.
    FaceOut(Face),
}
