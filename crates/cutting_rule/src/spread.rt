// How far a triangle's section reaches beyond the triangle's bounding box.
ghost use Rattle.cutting_rule.specs.Spread.{IsLengthAtMost, IsSpread, IsSpreadBox};
ghost use Rattle.grid.specs.Boxes.{IsInBox, IsUpTo};
ghost use Rattle.grid.specs.Limits.{largest_side};
ghost use Rattle.grid.specs.Vectors.{dot};
ghost use Rattle.std.specs.Prelude.{pos, ℕ, ◌*ℤ◌, ◌*◌, ◌-ℤ◌, ◌^◌, ◌≤ℤ◌, ◌≤◌};

use crate::bounds::{Bounds, Ends, point};
use grid::{LARGEST_SIDE, Point};
use planes::Plane;

/// A number that is at least the length of the plane's normal: the sum of its components.
pub(crate) fn length_above(plane: &Plane) -> u64
    ensures within { result ≤ 3 * 2 ^ 37 }
    ensures above { dot plane.now.normal plane.now.normal ≤ℤ pos (result * result) }
{
    let [x, y, z] = plane.normal();
    x.unsigned_abs() + y.unsigned_abs() + z.unsigned_abs()
}

/// The longest component of the plane's normal, and at least 1.
pub(crate) fn longest(plane: &Plane) -> u64
    ensures low { 1 ≤ result }
    ensures high { (n : ℕ) → 1 ≤ n → IsLengthAtMost plane.now.normal n → result ≤ n }
{
    let [x, y, z] = plane.normal();
    x.unsigned_abs()
        .max(y.unsigned_abs())
        .max(z.unsigned_abs())
        .max(1)
}

/// A margin for a range of one coordinate, in grid steps: by the range's length times `wide` / `area`
/// a point may lie beyond the sides, and by fewer than 2 off the plane.
fn margin_of(lo: i32, hi: i32, wide: u64, area: u64) -> u64
    requires lo_in { IsUpTo largest_side lo }
    requires hi_in { IsUpTo largest_side hi }
    requires ordered { lo ≤ℤ hi }
    requires wide_in { wide ≤ 9 * 2 ^ 37 }
    requires area_in { 1 ≤ area }
    ensures low { 2 ≤ result }
    ensures high { result ≤ 2 ^ 60 }
    ensures enough { ((hi -ℤ lo) *ℤ pos wide) ≤ℤ ((pos result -ℤ pos 2) *ℤ pos area) }
{
    (hi - lo) as u64 * wide / area + 3
}

fn spread(lo: i32, hi: i32, wide: u64, area: u64) -> Ends
    requires lo_in { IsUpTo largest_side lo }
    requires hi_in { IsUpTo largest_side hi }
    requires ordered { lo ≤ℤ hi }
    requires wide_in { wide ≤ 9 * 2 ^ 37 }
    requires area_in { 1 ≤ area }
    ensures { IsSpread lo hi wide area result.lo result.hi }
{
    let margin = margin_of(lo, hi, wide, area) as i64;
    Ends {
        lo: (lo as i64 - margin).max(0) as i32,
        hi: (hi as i64 + margin).min(LARGEST_SIDE as i64) as i32,
    }
}

/// The box, widened by a margin at each coordinate, and cut at the ends of the grid.
pub(crate) fn spread_box(bounds: Bounds, wide: u64, area: u64) -> Bounds
    requires lo_in { IsInBox largest_side bounds.lo }
    requires hi_in { IsInBox largest_side bounds.hi }
    requires x_ordered { bounds.lo.x ≤ℤ bounds.hi.x }
    requires y_ordered { bounds.lo.y ≤ℤ bounds.hi.y }
    requires z_ordered { bounds.lo.z ≤ℤ bounds.hi.z }
    requires wide_in { wide ≤ 9 * 2 ^ 37 }
    requires area_in { 1 ≤ area }
    ensures { IsSpreadBox bounds.lo bounds.hi wide area result.lo result.hi }
{
    let x = spread(bounds.lo.x, bounds.hi.x, wide, area);
    let y = spread(bounds.lo.y, bounds.hi.y, wide, area);
    let z = spread(bounds.lo.z, bounds.hi.z, wide, area);
    Bounds {
        lo: point(x.lo, y.lo, z.lo),
        hi: point(x.hi, y.hi, z.hi),
    }
}
