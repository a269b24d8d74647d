// What is asked of a mesh, and the names of its files.
use items::Text;

/// What is asked of a mesh.
#[derive(Clone, Copy, Debug)]
pub struct Asked {
    /// The greatest distance of a tracked face from the input, in grid steps, from 1 to 4095.
    pub epsilon: u32,
    /// The cubes of the background lattice along each axis: 1, 2, 4, 8, 16 or 32.
    pub cells: u32,
    /// The greatest number of tries, at most 1000000.
    pub budget: u32,
    /// The digits behind the point to which coordinates were rounded, at most 5; none where they are
    /// whole.
    pub digits: Option<u32>,
}

/// The names of the files that are written of a mesh.
#[derive(Debug, Drop)]
pub struct Names {
    pub mesh: Text,
    pub report: Text,
    /// The file of the kept part, where it is to be written.
    pub kept: Option<Text>,
}
