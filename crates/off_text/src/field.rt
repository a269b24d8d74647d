//! The words of a text that are looked at, each from a place on.

ghost use Rattle.grid.specs.Limits.{most_input};
ghost use Rattle.std.specs.Prelude.{◌≡◌, ◌+◌, ◌-◌, ◌≤◌, ◌^◌, [], length, IfOk, IfSome, MatchResult};
ghost use Rattle.off_text.specs.declared.issue.OffKind.TheVariants.{Ended};
ghost use Rattle.off_text.specs.Scans.{rest_at, word_at, beyond_at, IsNext};
ghost use Rattle.off_text.specs.Grammar.{next, keyword, first_count, count, edge_count, corner_count, index, coordinate, beyond_line};
ghost use Rattle.off_text.specs.Gives.{Gives};

use crate::coordinate::coordinate;
use crate::issue::{OffIssue, OffKind};
use crate::number::number;
use crate::scan::{Span, next_word};
use grid::MOST_INPUT;

/// A number that was read, and the place after its word.
#[derive(Clone, Copy)]
pub struct Number {
    pub value: u32,
    pub end: usize,
}

/// A coordinate that was read, and the place after its word.
#[derive(Clone, Copy)]
pub struct Coordinate {
    pub value: i64,
    pub end: usize,
}

fn refusal(kind: OffKind, place: usize) -> OffIssue
    ensures { result ≡ OffIssue.At kind place }
{
    OffIssue::At {
        kind,
        place: place as u64,
    }
}

/// The next word, which is needed.
fn next(bytes: &[u8], from: usize) -> Result<Span, OffIssue>
    requires { from ≤ length bytes.now }
    ensures { MatchResult result (IsNext bytes.now from) (λ e. (rest_at bytes.now from ≡ []) × (e ≡ OffIssue.At Ended (length bytes.now))) }
{
    match next_word(bytes, from) {
        Some(word) => Ok(word),
        None => Err(refusal(OffKind::Ended, bytes.len())),
    }
}

/// Reads the keyword, and answers the place after it.
pub fn read_keyword(bytes: &[u8]) -> Result<usize, OffIssue>
    ensures gives { Gives (λ end. rest_at bytes.now end) result (keyword (length bytes.now) (rest_at bytes.now 0)) }
    ensures high { IfOk result (λ end. end ≤ length bytes.now) }
{
    let Some(word) = next_word(bytes, 0) else {
        return Err(refusal(OffKind::NoKeyword, bytes.len()));
    };
    let text = &bytes[word.start..word.end];
    if text == b"OFF".as_slice() {
        Ok(word.end)
    } else if text.ends_with(b"OFF") {
        Err(refusal(OffKind::OtherKeyword, word.start))
    } else {
        Err(refusal(OffKind::NoKeyword, word.start))
    }
}

/// The count that a word spells.
fn count_of(bytes: &[u8], word: Span) -> Result<Number, OffIssue>
    requires start { word.start ≤ word.end }
    requires end { word.end ≤ length bytes.now }
    ensures gives { Gives (λ x. x.value) result (count (word_at bytes.now word)) }
    ensures end { IfOk result (λ x. x.end ≡ word.end) }
    ensures few { IfOk result (λ x. x.value ≤ most_input) }
{
    let Some(value) = number(&bytes[word.start..word.end]) else {
        return Err(refusal(OffKind::BadCount, word.start));
    };
    if value > MOST_INPUT {
        return Err(refusal(OffKind::TooMany, word.start));
    }
    Ok(Number {
        value,
        end: word.end,
    })
}

/// Reads the number of vertices.
pub fn read_first_count(bytes: &[u8], from: usize) -> Result<Number, OffIssue>
    requires { from ≤ length bytes.now }
    ensures gives { Gives (λ x. (x.value, rest_at bytes.now x.end)) result (next first_count (length bytes.now) (rest_at bytes.now from)) }
    ensures high { IfOk result (λ x. x.end ≤ length bytes.now) }
    ensures few { IfOk result (λ x. x.value ≤ most_input) }
{
    let word = next(bytes, from)?;
    let text = &bytes[word.start..word.end];
    if text == b"BINARY".as_slice() {
        return Err(refusal(OffKind::OtherKeyword, word.start));
    }
    count_of(bytes, word)
}

/// Reads the number of faces.
pub fn read_count(bytes: &[u8], from: usize) -> Result<Number, OffIssue>
    requires { from ≤ length bytes.now }
    ensures gives { Gives (λ x. (x.value, rest_at bytes.now x.end)) result (next count (length bytes.now) (rest_at bytes.now from)) }
    ensures high { IfOk result (λ x. x.end ≤ length bytes.now) }
    ensures few { IfOk result (λ x. x.value ≤ most_input) }
{
    let word = next(bytes, from)?;
    count_of(bytes, word)
}

/// Reads the number of edges, which is not used, and answers the place after it.
pub fn read_edge_count(bytes: &[u8], from: usize) -> Result<usize, OffIssue>
    requires { from ≤ length bytes.now }
    ensures gives { Gives (λ end. (tt, rest_at bytes.now end)) result (next edge_count (length bytes.now) (rest_at bytes.now from)) }
    ensures high { IfOk result (λ end. end ≤ length bytes.now) }
{
    let word = next(bytes, from)?;
    let text = &bytes[word.start..word.end];
    if number(text).is_none() {
        return Err(refusal(OffKind::BadCount, word.start));
    }
    Ok(word.end)
}

/// Reads the number of corners of a face, before which so many triangles were made.
pub fn read_corner_count(bytes: &[u8], from: usize, made: usize) -> Result<Number, OffIssue>
    requires from { from ≤ length bytes.now }
    requires made { made ≤ most_input }
    ensures gives { Gives (λ x. (x.value, rest_at bytes.now x.end)) result (next (corner_count made) (length bytes.now) (rest_at bytes.now from)) }
    ensures high { IfOk result (λ x. x.end ≤ length bytes.now) }
    ensures least { IfOk result (λ x. 3 ≤ x.value) }
    ensures room { IfOk result (λ x. made + (x.value - 2) ≤ most_input) }
{
    let word = next(bytes, from)?;
    let Some(value) = number(&bytes[word.start..word.end]) else {
        return Err(refusal(OffKind::BadCount, word.start));
    };
    if value < 3 {
        return Err(refusal(OffKind::ShortFace, word.start));
    }
    if made + (value as usize - 2) > MOST_INPUT as usize {
        return Err(refusal(OffKind::TooMany, word.start));
    }
    Ok(Number {
        value,
        end: word.end,
    })
}

/// Reads the number of a vertex, of which there are so many.
pub fn read_index(bytes: &[u8], from: usize, vertices: u32) -> Result<Number, OffIssue>
    requires from { from ≤ length bytes.now }
    requires few { vertices ≤ most_input }
    ensures gives { Gives (λ x. (x.value, rest_at bytes.now x.end)) result (next (index vertices) (length bytes.now) (rest_at bytes.now from)) }
    ensures beyond { IfOk result (λ x. beyond_line (rest_at bytes.now from) ≡ beyond_at bytes.now x.end) }
    ensures high { IfOk result (λ x. x.end ≤ length bytes.now) }
{
    let word = next(bytes, from)?;
    let Some(value) = number(&bytes[word.start..word.end]) else {
        return Err(refusal(OffKind::BadNumber, word.start));
    };
    if value >= vertices {
        return Err(refusal(OffKind::BadIndex, word.start));
    }
    Ok(Number {
        value,
        end: word.end,
    })
}

/// Reads a coordinate: a whole number, or where digits are given, units of 10^-digits.
pub fn read_coordinate(
    bytes: &[u8],
    from: usize,
    digits: Option<u32>,
) -> Result<Coordinate, OffIssue>
    requires from { from ≤ length bytes.now }
    requires digits { IfSome digits (λ d. d ≤ 5) }
    ensures gives { Gives (λ x. (x.value, rest_at bytes.now x.end)) result (next (coordinate digits) (length bytes.now) (rest_at bytes.now from)) }
    ensures high { IfOk result (λ x. x.end ≤ length bytes.now) }
{
    let word = next(bytes, from)?;
    match coordinate(&bytes[word.start..word.end], digits) {
        Ok(value) => Ok(Coordinate {
            value,
            end: word.end,
        }),
        Err(kind) => Err(refusal(kind, word.start)),
    }
}
