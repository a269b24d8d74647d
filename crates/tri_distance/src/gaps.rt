// Vectors from a triangle to a point, at a scale.
ghost use Rattle.grid.specs.Boxes.{AreInBox, IsInBox};
ghost use Rattle.grid.specs.Limits.{largest_side};
ghost use Rattle.grid.specs.Vectors.{cross, difference};
ghost use Rattle.std.specs.Prelude.{pos, ◌+◌, ◌^◌, ◌≡◌, ◌≤◌};
ghost use Rattle.vectors.specs.Bounded.{IsVectorWithin, gap_of, vector_of};

use grid::Point;
use vectors::{Vector, cross, difference, scaled_difference};

/// The normal of the triangle a, b, c.
#[tactic(auto, using(vectors::proofs::VectorLemmas::wider))]
pub fn normal(a: Point, b: Point, c: Point) -> Vector
    requires corners_in { AreInBox largest_side a b c }
    ensures value { vector_of result ≡ cross (difference b a) (difference c a) }
    ensures within { IsVectorWithin (2 ^ 37) (vector_of result) }
{
    cross(difference(b, a), difference(c, a))
}

pub fn scale_of(k: u32) -> i64
    requires { k ≤ 6 }
    ensures { result ≡ pos (2 ^ k) }
{
    1 << k
}

/// p - 2^k a
pub fn gap(p: Point, k: u32, a: Point) -> Vector
    requires k_in { k ≤ 6 }
    requires p_in { IsInBox (2 ^ (18 + k)) p }
    requires a_in { IsInBox largest_side a }
    ensures value { vector_of result ≡ gap_of p (pos (2 ^ k)) a }
    ensures within { IsVectorWithin (2 ^ 24) (vector_of result) }
{
    scaled_difference(p, scale_of(k), a)
}
