// What the words ask for.
use items::Text;

/// A soup to be meshed.
#[derive(Debug, Drop)]
pub struct MeshJob {
    /// The file of the soup.
    pub input: Text,
    /// The file of the mesh that is written.
    pub mesh: Text,
    /// The file of the report that is written.
    pub report: Text,
    /// The greatest distance of a tracked face from the input, in grid steps, from 1 to 4095.
    pub epsilon: u32,
    /// The cubes of the background lattice along each axis: 1, 2, 4, 8, 16 or 32.
    pub cells: u32,
    /// The greatest number of tries, at most 1000000.
    pub budget: u32,
    /// The digits behind the point to which coordinates are rounded, at most 5; none where
    /// coordinates are whole.
    pub digits: Option<u32>,
    /// The file of the kept part of the mesh, where it is to be written.
    pub kept: Option<Text>,
}

/// A mesh and its report to be checked against their soup.
#[derive(Debug, Drop)]
pub struct CheckJob {
    pub input: Text,
    pub mesh: Text,
    pub report: Text,
    /// As in a `MeshJob`.
    pub digits: Option<u32>,
}

/// A soup to be made from two numbers, and meshed.
#[derive(Debug, Drop)]
pub struct DemoJob {
    /// The squares of the height field along each axis, from 1 to 64.
    pub k: u32,
    pub seed: u32,
    /// The file of the soup that is written.
    pub off: Text,
    pub mesh: Text,
    pub report: Text,
}

/// What the words of a command line ask for. The names of a job are not empty, not `-`, and differ.
#[derive(Debug, Drop)]
pub enum Job {
    Mesh(MeshJob),
    Check(CheckJob),
    Demo(DemoJob),
}
