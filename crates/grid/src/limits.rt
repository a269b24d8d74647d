/// The largest side of the box in grid steps, thus the largest coordinate of a point.
pub const LARGEST_SIDE: u32 = 1 << 18;

/// The largest epsilon, in grid steps.
pub const MOST_EPSILON: u32 = 4095;

/// The most vertices, and the most triangles, of an input.
pub const MOST_INPUT: u32 = 1 << 20;

/// The most points that a mesh may have.
pub const MOST_POINTS: u32 = 1 << 20;

/// The most tetrahedra that may ever be made.
pub const MOST_MADE: u32 = 1 << 22;
