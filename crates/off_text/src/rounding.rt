//! Coordinates in units of a power of ten, to which they are rounded.

ghost use Rattle.std.specs.Prelude.{◌≡◌, ◌≤◌, ◌<◌, ◌-◌, ◌*◌, ◌^◌, ◌++◌, ℕ, pos, true, unsigned_abs};
ghost use Rattle.std.specs.List.{list_all};
ghost use Rattle.std.specs.Char.{is_ascii_digit};
ghost use Rattle.int_algebra.specs.Within.{IsWithin};
ghost use Rattle.off_text.specs.Numbers.{decimal_from, decimal, is_tail, with_sign};
ghost use Rattle.off_text.specs.Rounding.{exponent_of, over_power, times_power, rounded_coordinate, scale, within_most};
ghost use Rattle.off_text.specs.Cut.{IsShort, cut};
ghost use Rattle.off_text.specs.PartsView.{parts_view};

use crate::issue::OffKind;
use crate::number::decimal;
use crate::spelling::{Parts, is_negative, is_well_formed, parts_of, without_sign};

/// The largest absolute value of a coordinate.
const LARGEST: u128 = 1_000_000_000;

/// The most bytes of a coordinate.
const MOST_BYTES: usize = 32;

/// A number other than zero times ten to a power above this one is above `LARGEST`.
const MOST_POWER: i64 = 9;

/// A number of at most 32 digits times ten to this power, or to a lower one, is below a half.
const HALVED: i64 = -33;

/// The number that n and the digits behind it spell.
fn decimal_from(n: u128, digits: &[u8]) -> u128
    requires digits { list_all is_ascii_digit digits.now ≡ true }
    requires few { decimal_from n digits.now < 10 ^ 32 }
    ensures { result ≡ decimal_from n digits.now }
{
    let mut n = n;
    for d in digits {
        n = 10 * n + u128::from(*d - b'0');
    }
    n
}

/// The whole number of the digits before and behind the point.
fn mantissa(parts: &Parts) -> u128
    requires { IsShort (parts_view parts.now) }
    ensures value { result ≡ decimal (parts.now.whole.now ++ parts.now.fraction.now) }
    ensures few { result < 10 ^ 32 }
{
    let whole = decimal_from(0, parts.whole);
    decimal_from(whole, parts.fraction)
}

fn with_sign(negative: bool, n: u128) -> i128
    requires { n < 10 ^ 32 }
    ensures value { result ≡ with_sign negative n }
    ensures few { IsWithin (10 ^ 32 - 1) result }
{
    if negative { -(n as i128) } else { n as i128 }
}

/// The exponent, or the nearest one of at most 2 * 10^9 in absolute value.
fn exponent(rest: &[u8]) -> i64
    requires { is_tail rest.now ≡ true }
    ensures { result ≡ cut (exponent_of rest.now) }
{
    let [_, behind @ ..] = rest else {
        return 0;
    };
    let size = i64::from(decimal(without_sign(behind)));
    if is_negative(behind) { -size } else { size }
}

/// A coordinate, unless it is too large.
fn within_most(z: i128) -> Result<i64, OffKind>
    ensures { result ≡ within_most z }
{
    if z.unsigned_abs() > LARGEST {
        return Err(OffKind::TooLarge);
    }
    Ok(z as i64)
}

fn times_power(m: i128, power: u32) -> Result<i64, OffKind>
    requires power { power ≤ 9 }
    ensures { result ≡ within_most (times_power m power) }
{
    if m.unsigned_abs() > LARGEST {
        return Err(OffKind::TooLarge);
    }
    within_most(m * 10_i128.pow(power))
}

fn over_power(m: i128, power: u32) -> Result<i64, OffKind>
    requires m { IsWithin (10 ^ 32 - 1) m }
    requires power { power ≤ 32 }
    ensures { result ≡ within_most (over_power m power) }
{
    let unit = 10_i128.pow(power);
    within_most((2 * m + unit).div_euclid(2 * unit))
}

/// m times ten to that power, rounded.
fn scale(m: i128, power: i64) -> Result<i64, OffKind>
    requires { IsWithin (10 ^ 32 - 1) m }
    ensures { result ≡ within_most (scale m power) }
{
    if m == 0 {
        return Ok(0);
    }
    if power <= HALVED {
        return Ok(0);
    }
    if power > MOST_POWER {
        return Err(OffKind::TooLarge);
    }
    if power < 0 {
        over_power(m, (-power) as u32)
    } else {
        times_power(m, power as u32)
    }
}

/// The coordinate that a word of at most 32 bytes spells, in units of 10^-digits, rounded to the nearest
/// unit, a half going up.
pub fn rounded_coordinate(word: &[u8], digits: u32) -> Result<i64, OffKind>
    requires { digits ≤ 5 }
    ensures { result ≡ rounded_coordinate digits word.now }
{
    let parts = parts_of(without_sign(word));
    if word.len() > MOST_BYTES {
        return Err(OffKind::BadNumber);
    }
    if !is_well_formed(&parts) {
        return Err(OffKind::BadNumber);
    }
    let m = with_sign(is_negative(word), mantissa(&parts));
    let power = exponent(parts.rest) - parts.fraction.len() as i64 + i64::from(digits);
    scale(m, power)
}
