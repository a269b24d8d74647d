// Whether a triangle lies so far to one side that it is beyond reach.
ghost use Rattle.grid.specs.Limits.{largest_side};
ghost use Rattle.int_algebra.specs.Within.{IsWithin};
ghost use Rattle.std.specs.Prelude.{IsTrue, pos, ◌-ℤ◌, ◌<ℤ◌, ◌↔◌};
ghost use Rattle.tri_distance.specs.Apart.{AreBeyond, AreFar};
ghost use Rattle.vectors.specs.Bounded.{vector_of};

use vectors::Vector;

fn is_below(n: i64, a: i64, b: i64, c: i64) -> bool
    ensures { IsTrue result ↔ ((n <ℤ a) × (n <ℤ b) × (n <ℤ c)) }
{
    if n >= a {
        return false;
    }
    if n >= b {
        return false;
    }
    n < c
}

fn is_above(n: i64, a: i64, b: i64, c: i64) -> bool
    ensures { IsTrue result ↔ ((a <ℤ n) × (b <ℤ n) × (c <ℤ n)) }
{
    if n <= a {
        return false;
    }
    if n <= b {
        return false;
    }
    n > c
}

/// Whether x, y and z lie beyond 0, all to one side, by more than far.
fn are_beyond(x: i64, y: i64, z: i64, far: i64) -> bool
    requires far_in { IsWithin largest_side far }
    ensures { IsTrue result → AreBeyond far x y z }
{
    if is_below(far, x, y, z) {
        return true;
    }
    is_above(-far, x, y, z)
}

/// Whether the origin lies outside the box round x, y and z, widened by far on every side. This is
/// seen quickly, and such a triangle is not near.
pub fn is_outside(x: Vector, y: Vector, z: Vector, far: i64) -> bool
    requires far_in { IsWithin largest_side far }
    ensures { IsTrue result → AreFar (vector_of x) (vector_of y) (vector_of z) far }
{
    if are_beyond(x.x, y.x, z.x, far) {
        return true;
    }
    if are_beyond(x.y, y.y, z.y, far) {
        return true;
    }
    are_beyond(x.z, y.z, z.z, far)
}
