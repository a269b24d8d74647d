// Vectors, and differences of points.
ghost use Rattle.grid.specs.Boxes.{IsInBox, IsUpTo};
ghost use Rattle.grid.specs.Limits.{largest_side};
ghost use Rattle.grid.specs.Vectors;
ghost use Rattle.std.specs.Prelude.{◌^◌, ◌≡◌};
ghost use Rattle.vectors.specs.Bounded.{IsVectorWithin, gap_of, vector_of};

use grid::Point;

/// A vector in grid steps, or in products of them. What the functions of this crate make has components
/// of at most 2^49 in absolute value.
#[derive(Clone, Copy, Debug)]
pub struct Vector {
    pub x: i64,
    pub y: i64,
    pub z: i64,
}

/// The vector a - b, from b to a, in grid steps.
pub fn difference(a: Point, b: Point) -> Vector
    requires a_in { IsInBox largest_side a }
    requires b_in { IsInBox largest_side b }
    ensures value { vector_of result ≡ Vectors.difference a b }
    ensures within { IsVectorWithin largest_side (vector_of result) }
{
    Vector {
        x: a.x as i64 - b.x as i64,
        y: a.y as i64 - b.y as i64,
        z: a.z as i64 - b.z as i64,
    }
}

/// The vector p - t a from the scaled point t a to p, where t is from 0 to 2^6, in the steps of p.
pub fn scaled_difference(p: Point, t: i64, a: Point) -> Vector
    requires p_in { IsInBox (2 ^ 24) p }
    requires t_in { IsUpTo (2 ^ 6) t }
    requires a_in { IsInBox largest_side a }
    ensures value { vector_of result ≡ gap_of p t a }
    ensures within { IsVectorWithin (2 ^ 24) (vector_of result) }
{
    Vector {
        x: p.x as i64 - t * a.x as i64,
        y: p.y as i64 - t * a.y as i64,
        z: p.z as i64 - t * a.z as i64,
    }
}

/// The vector m - n, for components up to 2^24.
pub fn minus(m: Vector, n: Vector) -> Vector
    requires m_in { IsVectorWithin (2 ^ 24) (vector_of m) }
    requires n_in { IsVectorWithin (2 ^ 24) (vector_of n) }
    ensures value { vector_of result ≡ Vectors.minus (vector_of m) (vector_of n) }
    ensures within { IsVectorWithin (2 ^ 25) (vector_of result) }
{
    Vector {
        x: m.x - n.x,
        y: m.y - n.y,
        z: m.z - n.z,
    }
}

/// The vector with all signs changed, for components up to 2^49.
pub fn opposite(m: Vector) -> Vector
    requires { IsVectorWithin (2 ^ 49) (vector_of m) }
    ensures value { vector_of result ≡ Vectors.opposite (vector_of m) }
    ensures within { IsVectorWithin (2 ^ 49) (vector_of result) }
    ensures short { IsVectorWithin (2 ^ 37) (vector_of m) → IsVectorWithin (2 ^ 37) (vector_of result) }
{
    Vector {
        x: -m.x,
        y: -m.y,
        z: -m.z,
    }
}
