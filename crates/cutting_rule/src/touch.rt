// What is known of the corners of a tetrahedron that a triangle touches.

/// Which phases may want edges of the tetrahedron, and the snapped signs of its corners at the triangle's
/// plane, in the order of the corners.
#[derive(Clone, Copy, Debug)]
pub struct Touch {
    pub phases: [bool; 4],
    pub signs: [i8; 4],
}
