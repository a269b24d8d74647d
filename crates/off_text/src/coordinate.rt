//! Coordinates, by the words that spell them.

ghost use Rattle.std.specs.Prelude.{◌≡◌, ◌≤◌, ◌==◌, IfSome};
ghost use Rattle.std.specs.List.{list_all};
ghost use Rattle.off_text.specs.Numbers.{is_whole, with_sign, whole_coordinate};
ghost use Rattle.off_text.specs.Rounding.{coordinate_of};
ghost use Rattle.off_text.specs.PartsView.{parts_view};

use crate::issue::OffKind;
use crate::number::decimal;
use crate::rounding::rounded_coordinate;
use crate::spelling::{Parts, is_negative, is_well_formed, parts_of, without_sign};

/// The largest absolute value of a coordinate.
const LARGEST: u32 = 1_000_000_000;

fn are_zeros(digits: &[u8]) -> bool
    ensures { result ≡ list_all (λ b. b == 48) digits.now }
{
    digits.iter().all(|b| *b == b'0')
}

fn is_whole(parts: &Parts) -> bool
    ensures { result ≡ is_whole (parts_view parts.now) }
{
    parts.rest.is_empty() && are_zeros(parts.fraction)
}

fn with_sign(negative: bool, n: u32) -> i64
    ensures { result ≡ with_sign negative n }
{
    if negative {
        -i64::from(n)
    } else {
        i64::from(n)
    }
}

fn whole_coordinate(word: &[u8]) -> Result<i64, OffKind>
    ensures { result ≡ whole_coordinate word.now }
{
    let parts = parts_of(without_sign(word));
    if !is_well_formed(&parts) {
        return Err(OffKind::BadNumber);
    }
    if !is_whole(&parts) {
        return Err(OffKind::NotWhole);
    }
    let n = decimal(parts.whole);
    if n > LARGEST {
        return Err(OffKind::TooLarge);
    }
    Ok(with_sign(is_negative(word), n))
}

/// The coordinate that a word spells, or why it spells none: a whole number, or where digits are
/// given, units of 10^-digits, to which it is rounded.
#[tactic(auto, unfolding(crate::specs::Rounding::coordinate_of))]
pub fn coordinate(word: &[u8], digits: Option<u32>) -> Result<i64, OffKind>
    requires { IfSome digits (λ d. d ≤ 5) }
    ensures { result ≡ coordinate_of digits word.now }
{
    match digits {
        None => whole_coordinate(word),
        Some(digits) => rounded_coordinate(word, digits),
    }
}
