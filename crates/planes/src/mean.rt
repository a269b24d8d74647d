// Weighted means of two points.
ghost use Rattle.grid.specs.Boxes.{IsInBox, IsUpTo};
ghost use Rattle.grid.specs.Limits.{largest_side};
ghost use Rattle.grid.specs.Planes;
ghost use Rattle.planes.specs.Crossings.{mean_of};
ghost use Rattle.std.specs.Prelude.{pos, ◌*ℤ◌, ◌+ℤ◌, ◌+◌, ◌<◌, ◌^◌, ◌≡◌, ◌≤◌};

use grid::Point;

/// The mean of u and v with the weights g and f, each coordinate rounded, a half going up.
pub fn mean_point(u: Point, v: Point, f: u64, g: u64) -> Point
    requires u_in { IsInBox largest_side u }
    requires v_in { IsInBox largest_side v }
    requires f_in { f ≤ 2 ^ 57 }
    requires g_in { g ≤ 2 ^ 57 }
    requires some { 0 < f + g }
    ensures { result ≡ mean_of u v f g }
{
    Point {
        x: rounded_mean(u.x, v.x, f, g),
        y: rounded_mean(u.y, v.y, f, g),
        z: rounded_mean(u.z, v.z, f, g),
    }
}

fn rounded_mean(u: i32, v: i32, f: u64, g: u64) -> i32
    requires u_in { IsUpTo largest_side u }
    requires v_in { IsUpTo largest_side v }
    requires f_in { f ≤ 2 ^ 57 }
    requires g_in { g ≤ 2 ^ 57 }
    requires some { 0 < f + g }
    ensures { result ≡ Planes.rounded_mean u v f g }
{
    let weighted = weighted_sum(u, v, f, g);
    let sum = (f + g) as i128;
    (2 * weighted + sum).div_euclid(2 * sum) as i32
}

fn weighted_sum(u: i32, v: i32, f: u64, g: u64) -> i128
    requires u_in { IsUpTo largest_side u }
    requires v_in { IsUpTo largest_side v }
    requires f_in { f ≤ 2 ^ 57 }
    requires g_in { g ≤ 2 ^ 57 }
    ensures { result ≡ (u *ℤ pos g) +ℤ (v *ℤ pos f) }
{
    u as i128 * g as i128 + v as i128 * f as i128
}
