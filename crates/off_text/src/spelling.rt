//! The parts of a word that spells a coordinate.

ghost use Rattle.std.specs.Prelude.{◌≡◌};
ghost use Rattle.off_text.specs.Numbers.{without_sign, is_negative, parts_of, is_exponent, is_well_formed};
ghost use Rattle.off_text.specs.PartsView.{parts_view};

use crate::number::{leading_digits, number};

/// The parts of a coordinate behind its sign.
#[derive(Clone, Copy)]
pub struct Parts<'a> {
    pub whole: &'a [u8],
    pub fraction: &'a [u8],
    pub rest: &'a [u8],
}

pub fn without_sign(word: &[u8]) -> &[u8]
    ensures { result.now ≡ without_sign word.now }
{
    match word {
        [b'+' | b'-', rest @ ..] => rest,
        _ => word,
    }
}

pub fn is_negative(word: &[u8]) -> bool
    ensures { result ≡ is_negative word.now }
{
    matches!(word, [b'-', ..])
}

pub fn parts_of(bytes: &[u8]) -> Parts<'_>
    ensures { parts_view result ≡ parts_of bytes.now }
{
    let (whole, after) = bytes.split_at(leading_digits(bytes));
    let [b'.', behind @ ..] = after else {
        return Parts {
            whole,
            fraction: &[],
            rest: after,
        };
    };
    let (fraction, rest) = behind.split_at(leading_digits(behind));
    Parts {
        whole,
        fraction,
        rest,
    }
}

fn is_exponent(bytes: &[u8]) -> bool
    ensures { result ≡ is_exponent bytes.now }
{
    match bytes {
        [b'e' | b'E', behind @ ..] => number(without_sign(behind)).is_some(),
        _ => false,
    }
}

pub fn is_well_formed(parts: &Parts) -> bool
    ensures { result ≡ is_well_formed (parts_view parts.now) }
{
    let has_digits = !parts.whole.is_empty() || !parts.fraction.is_empty();
    has_digits && (parts.rest.is_empty() || is_exponent(parts.rest))
}
