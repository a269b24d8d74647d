//! The numbers that words spell.

ghost use Rattle.std.specs.Prelude.{◌≡◌, ◌≤◌, ◌*◌, ◌^◌, true, false, length, min, pos, MatchOption};
ghost use Rattle.std.specs.List.{prefix_len, list_all};
ghost use Rattle.std.specs.Char.{is_ascii_digit};
ghost use Rattle.off_text.specs.Numbers.{is_number, decimal};
ghost use Rattle.off_text.specs.Spelled.{Spells};

/// Larger numbers are read as this one.
const SATURATED: u64 = 2_000_000_000;

/// How many digits stand at the front.
pub fn leading_digits(bytes: &[u8]) -> usize
    ensures value { result ≡ prefix_len is_ascii_digit bytes.now }
    ensures high { result ≤ length bytes.now }
{
    for (i, b) in bytes.iter().enumerate() {
        if !b.is_ascii_digit() {
            return i;
        }
    }
    bytes.len()
}

/// The number that digits spell, or `SATURATED` where that is larger.
pub fn decimal(digits: &[u8]) -> u32
    requires { list_all is_ascii_digit digits.now ≡ true }
    ensures { result ≡ min (decimal digits.now) (2 * 10 ^ 9) }
{
    let mut n: u64 = 0;
    for d in digits {
        n = (10 * n + u64::from(*d - b'0')).min(SATURATED);
    }
    n as u32
}

/// The number that a word spells where it is one or more digits, or `SATURATED` where that is larger.
pub fn number(word: &[u8]) -> Option<u32>
    ensures { MatchOption result (is_number word.now ≡ false) (Spells word.now) }
{
    if word.is_empty() {
        return None;
    }
    if leading_digits(word) < word.len() {
        return None;
    }
    Some(decimal(word))
}
