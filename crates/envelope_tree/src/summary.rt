// What a node of the tree tells of the triangles below it.
ghost use Rattle.grid.specs.Limits.{largest_side};
ghost use Rattle.std.specs.Prelude.{◌≡◌, ℕ, ◌<◌, List, All, length};
ghost use Rattle.grid.specs.declared.shapes.Tri.{Tri};
ghost use Rattle.grid.specs.Boxes.{IsTriInBox};
ghost use Rattle.envelope_tree.specs.Bounds.{AreInGrid};
ghost use Rattle.envelope_tree.specs.Trees.{Fits};

use crate::bounds::Bounds;
use grid::Tri;

/// What a node tells of the triangles below it: their bounding box and their least number.
#[derive(Clone, Copy, Debug)]
pub struct Summary {
    pub bounds: Bounds,
    pub least: u32,
}

impl Summary {
    /// That of the triangle of a number.
    pub fn of_one(triangles: &[Tri], number: u32) -> Summary
        requires triangles_in { All (IsTriInBox largest_side) triangles.now }
        requires number_in { number < length triangles.now }
        ensures fits { Fits triangles.now result number }
        ensures within { AreInGrid result.bounds }
    {
        Summary {
            bounds: Bounds::of_triangle(&triangles[number as usize]),
            least: number,
        }
    }

    /// That of the triangles of both.
    pub fn join(self, other: Summary) -> Summary
        requires self_in { AreInGrid self.bounds }
        requires other_in { AreInGrid other.bounds }
        ensures first { (triangles : List Tri) (t : ℕ) → Fits triangles self t → Fits triangles result t }
        ensures second { (triangles : List Tri) (t : ℕ) → Fits triangles other t → Fits triangles result t }
        ensures within { AreInGrid result.bounds }
    {
        Summary {
            bounds: self.bounds.join(other.bounds),
            least: self.least.min(other.least),
        }
    }
}
