// Distances along an axis, at a scale.
ghost use Rattle.grid.specs.Limits.{largest_side};
ghost use Rattle.std.specs.Prelude.{◌≡◌, ◌^◌, ◌+ℤ◌, ◌*ℤ◌};
ghost use Rattle.int_algebra.specs.Within.{IsWithin};
ghost use Rattle.grid.specs.Boxes.{IsUpTo};
ghost use Rattle.envelope_tree.specs.Gaps.{outside_of};

/// A coordinate at a scale.
pub fn at_scale(n: i32, scale: i64) -> i64
    requires n_in { IsUpTo largest_side n }
    requires scale_in { IsWithin (2 ^ 6) scale }
    ensures value { result ≡ scale *ℤ n }
    ensures within { IsWithin (2 ^ 24) result }
{
    scale * n as i64
}

/// How far p lies below `low` or above `high`; 0 between them.
#[tactic(auto, unfolding(crate::specs::Gaps::outside_of))]
pub fn outside(p: i64, low: i64, high: i64) -> i64
    requires p_in { IsWithin (2 ^ 24) p }
    requires low_in { IsWithin (2 ^ 24) low }
    requires high_in { IsWithin (2 ^ 24) high }
    ensures value { result ≡ outside_of p low high }
    ensures within { IsWithin (2 ^ 25) result }
{
    if p < low {
        low - p
    } else if high < p {
        p - high
    } else {
        0
    }
}

/// x^2 + y^2 + z^2
pub fn sum_of_squares(x: i64, y: i64, z: i64) -> i128
    requires x_in { IsWithin (2 ^ 25) x }
    requires y_in { IsWithin (2 ^ 25) y }
    requires z_in { IsWithin (2 ^ 25) z }
    ensures value { result ≡ x *ℤ x +ℤ y *ℤ y +ℤ z *ℤ z }
    ensures within { IsWithin (2 ^ 52) result }
{
    let x = x as i128;
    let y = y as i128;
    let z = z as i128;
    x * x + y * y + z * z
}
