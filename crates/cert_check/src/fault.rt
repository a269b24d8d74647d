// What can be wrong with a mesh file and its report.
use grid::Face;

/// What is wrong with a mesh file or its report, in the order in which `verify` looks for it.
/// Corners of faces are node numbers, and elements have their numbers in the file.
#[derive(Clone, Copy, Debug, PartialEq, Eq)]
pub enum Fault {
    /// The report's box or shift is not the soup's, or its digits are not those asked for.
    Header,
    /// The number of the first node outside the box.
    NotInBox(u32),
    /// The number of the first tetrahedron that is not positive.
    NotPositive(u32),
    /// The first oriented face that occurs for the second time.
    Twice(Face),
    /// The first loose face whose corners share no side of the box.
    Loose(Face),
    /// What the determinants sum to, which is not six times the volume of the box.
    Volume(i128),
    /// The number of the first tracked triangle that is no face of a tetrahedron.
    NotAFace(u32),
    /// The first place, from 1, where the report's faces are not the tracked triangles, or a
    /// certificate fails.
    NotCovered(u32),
    /// The number of the first tetrahedron whose tag is not that of its region.
    Region(u32),
    /// The number of triangle lines, where it is not that of the triangles, or where the report has a
    /// second part whose triangles are not those that were rolled back, in rising order.
    TriangleLines(u32),
}

/// What `verify` finds: nothing wrong, or the first fault.
#[derive(Clone, Copy, Debug, PartialEq, Eq)]
pub enum Finding {
    /// Nothing is wrong.
    Good,
    /// The first fault.
    Bad(Fault),
}
