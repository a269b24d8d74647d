//! Numbers among the words.

ghost use Rattle.std.specs.Prelude.{◌≡◌, ◌≤◌, Some, IfOk};
ghost use Rattle.std.specs.Option.{option_map};
ghost use Rattle.grid.specs.Limits.{IsCells};
ghost use Rattle.tet_words.specs.Facts.{AreDigits};
ghost use Rattle.tet_words.specs.Numbers.{number_of, number_in, is_cells, given_number, given_cells, given_digits};

use crate::fault::WordFault;

// A number of one to ten digits.
fn number_of(word: &str) -> Option<u64>
    ensures { result ≡ number_of word.now }
{
    let digits = word.as_bytes();
    if digits.is_empty() || digits.len() > 10 {
        return None;
    }
    let mut number = 0;
    for digit in digits {
        if !digit.is_ascii_digit() {
            return None;
        }
        number = 10 * number + u64::from(*digit - b'0');
    }
    Some(number)
}

/// A number between two bounds, or the fault where the word is none.
pub fn number_in(word: &str, low: u32, high: u32, fault: WordFault) -> Result<u32, WordFault>
    ensures value { result ≡ number_in low high fault word.now }
    ensures range { IfOk result (λ n. (low ≤ n) × (n ≤ high)) }
{
    match number_of(word) {
        Some(n) if n >= u64::from(low) && n <= u64::from(high) => Ok(n as u32),
        _ => Err(fault),
    }
}

/// The same of the value of an option, or the default where there is none.
pub fn given_number(
    value: Option<&str>,
    default: u32,
    low: u32,
    high: u32,
    fault: WordFault,
) -> Result<u32, WordFault>
    requires { (low ≤ default) × (default ≤ high) }
    ensures value { result ≡ given_number default low high fault (option_map (λ t. t.now) value.entry) }
    ensures range { IfOk result (λ n. (low ≤ n) × (n ≤ high)) }
{
    match value {
        Some(word) => number_in(word, low, high, fault),
        None => Ok(default),
    }
}

fn is_cells(n: u32) -> bool
    ensures { result ≡ is_cells n }
{
    matches!(n, 1 | 2 | 4 | 8 | 16 | 32)
}

fn cells_in(word: &str) -> Result<u32, WordFault>
    ensures value { result ≡ given_cells (Some word.now) }
    ensures cells { IfOk result IsCells }
{
    let n = number_in(word, 1, 32, WordFault::Cells)?;
    if !is_cells(n) {
        return Err(WordFault::Cells);
    }
    Ok(n)
}

/// The number of cells that is given, or 4.
pub fn given_cells(value: Option<&str>) -> Result<u32, WordFault>
    ensures value { result ≡ given_cells (option_map (λ t. t.now) value.entry) }
    ensures cells { IfOk result IsCells }
{
    match value {
        Some(word) => cells_in(word),
        None => Ok(4),
    }
}

/// The number of digits, where it is given.
pub fn given_digits(value: Option<&str>) -> Result<Option<u32>, WordFault>
    ensures value { result ≡ given_digits (option_map (λ t. t.now) value.entry) }
    ensures small { IfOk result AreDigits }
{
    match value {
        Some(word) => Ok(Some(number_in(word, 0, 5, WordFault::Digits)?)),
        None => Ok(None),
    }
}
