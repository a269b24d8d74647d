// Whether a point is near to a triangle.
ghost use Rattle.grid.specs.Limits.{largest_side, most_epsilon};
ghost use Rattle.std.specs.Prelude.{◌≡◌, ◌↔◌, ◌≤◌, ◌+◌, ◌*◌, ◌^◌, IsTrue, pos};
ghost use Rattle.int_algebra.specs.Within.{IsWithin};
ghost use Rattle.grid.specs.Boxes.{IsInBox, AreInBox, IsTriInBox};
ghost use Rattle.grid.specs.Near.{Near, IsNearCorners};

use crate::bounding_box::is_outside;
use crate::gaps::{gap, normal, scale_of};
use crate::triangle::near_vectors;
use grid::{Point, Tri};

/// The distance e at the scale of k.
fn far_of(e: u32, k: u32) -> i64
    requires e_in { e ≤ most_epsilon }
    requires k_in { k ≤ 6 }
    ensures value { result ≡ pos (e * 2 ^ k) }
    ensures within { IsWithin largest_side result }
{
    e as i64 * scale_of(k)
}

/// The square of the distance e at the scale of k.
fn reach_of(e: u32, k: u32) -> i128
    requires e_in { e ≤ most_epsilon }
    requires k_in { k ≤ 6 }
    ensures value { result ≡ pos (e * 2 ^ k * (e * 2 ^ k)) }
    ensures within { IsWithin (2 ^ 36) result }
{
    let far = far_of(e, k) as i128;
    far * far
}

#[tactic(auto, using(crate::proofs::Limits::kept_reach))]
fn near_corners(p: Point, k: u32, a: Point, b: Point, c: Point, e: u32) -> bool
    requires k_in { k ≤ 6 }
    requires p_in { IsInBox (2 ^ (18 + k)) p }
    requires corners_in { AreInBox largest_side a b c }
    requires e_in { e ≤ most_epsilon }
    ensures { IsTrue result ↔ IsNearCorners p k e a b c }
{
    let x = gap(p, k, a);
    let y = gap(p, k, b);
    let z = gap(p, k, c);
    if is_outside(x, y, z, far_of(e, k)) {
        return false;
    }
    let reach = reach_of(e, k);
    near_vectors(x, y, z, normal(a, b, c), reach)
}

/// Whether the point p / 2^k is at distance at most e, in grid steps, from the triangle, its edges and
/// corners included. The triangle may be degenerate. The answer is exact.
pub fn near(p: Point, k: u32, tri: &Tri, e: u32) -> bool
    requires k_in { k ≤ 6 }
    requires p_in { IsInBox (2 ^ (18 + k)) p }
    requires tri_in { IsTriInBox largest_side tri.now }
    requires e_in { e ≤ most_epsilon }
    ensures { IsTrue result ↔ Near p k tri.now e }
{
    let [a, b, c] = tri.0;
    near_corners(p, k, a, b, c, e)
}

#[cfg(test)]
mod tests;
