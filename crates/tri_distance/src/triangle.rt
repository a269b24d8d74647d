// Whether the origin is near to a triangle of vectors.
ghost use Rattle.std.specs.Prelude.{◌↔◌, ◌^◌, IsTrue};
ghost use Rattle.int_algebra.specs.Within.{IsWithin};
ghost use Rattle.tri_distance.specs.Parts.{NearSegment, NearPlane, NearTriangle, IsNormal};
ghost use Rattle.vectors.specs.Bounded.{IsVectorWithin, vector_of};

use vectors::{Vector, cross, dot, minus};

/// Whether some point of the segment from x to y is at most the root of `reach` from the origin.
#[tactic(auto, using(vectors::proofs::VectorLemmas::wider))]
fn near_segment(x: Vector, y: Vector, reach: i128) -> bool
    requires x_in { IsVectorWithin (2 ^ 24) (vector_of x) }
    requires y_in { IsVectorWithin (2 ^ 24) (vector_of y) }
    requires reach_in { IsWithin (2 ^ 36) reach }
    ensures { IsTrue result ↔ NearSegment (vector_of x) (vector_of y) reach }
{
    let d = minus(x, y);
    if dot(x, d) <= 0 {
        dot(x, x) <= reach
    } else if dot(y, d) >= 0 {
        dot(y, y) <= reach
    } else {
        let n = cross(x, y);
        dot(n, n) <= reach * dot(d, d)
    }
}

/// Whether the origin's foot on the plane of the triangle x, y, z with the normal m lies inside, and
/// is at most the root of `reach` from the origin.
#[tactic(auto, using(vectors::proofs::VectorLemmas::wider))]
fn near_plane(x: Vector, y: Vector, z: Vector, m: Vector, reach: i128) -> bool
    requires x_in { IsVectorWithin (2 ^ 24) (vector_of x) }
    requires y_in { IsVectorWithin (2 ^ 24) (vector_of y) }
    requires z_in { IsVectorWithin (2 ^ 24) (vector_of z) }
    requires m_in { IsVectorWithin (2 ^ 37) (vector_of m) }
    requires reach_in { IsWithin (2 ^ 36) reach }
    ensures { IsTrue result ↔ NearPlane (vector_of x) (vector_of y) (vector_of z) (vector_of m) reach }
{
    let n = dot(m, m);
    let t = dot(m, x);
    let f = dot(m, cross(y, z));
    let g = dot(m, cross(z, x));
    let h = dot(m, cross(x, y));
    if n <= 0 {
        return false;
    }
    if f < 0 {
        return false;
    }
    if g < 0 {
        return false;
    }
    if h < 0 {
        return false;
    }
    t * t <= reach * n
}

/// Whether some point of the triangle x, y, z with the normal m is at most the root of `reach` from
/// the origin.
#[tactic(auto, using(crate::proofs::Limits::kept_reach))]
pub fn near_vectors(x: Vector, y: Vector, z: Vector, m: Vector, reach: i128) -> bool
    requires x_in { IsVectorWithin (2 ^ 24) (vector_of x) }
    requires y_in { IsVectorWithin (2 ^ 24) (vector_of y) }
    requires z_in { IsVectorWithin (2 ^ 24) (vector_of z) }
    requires m_in { IsVectorWithin (2 ^ 37) (vector_of m) }
    requires normal { IsNormal (vector_of x) (vector_of y) (vector_of z) (vector_of m) }
    requires reach_in { IsWithin (2 ^ 36) reach }
    ensures { IsTrue result ↔ NearTriangle (vector_of x) (vector_of y) (vector_of z) reach }
{
    if near_segment(x, y, reach) {
        return true;
    }
    if near_segment(y, z, reach) {
        return true;
    }
    if near_segment(z, x, reach) {
        return true;
    }
    near_plane(x, y, z, m, reach)
}
