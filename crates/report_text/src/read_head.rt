//! The head of a report text, read by its rules.

ghost use Rattle.grid.specs.Limits.{largest_side};
ghost use Rattle.std.specs.Prelude.{◌≡◌, ◌≤◌, ◌*◌, ◌^◌, codes, unsigned_abs, All, IfOk};
ghost use Rattle.lines.specs.Fields.{feed, number};
ghost use Rattle.lines.specs.Gives.{Gives};
ghost use Rattle.report_text.specs.declared.kinds.SizeKind.TheVariants as size_kinds;
ghost use Rattle.report_text.specs.Rules.{is_one_of, sides, cell_counts, IsSide, IsCells, named, size, size_behind, shift_line};

use crate::kinds::SizeKind;
use crate::read_kinds::read_size_kind;
use crate::report::Size;
use grid::LARGEST_SIDE;
use lines::{Stop, read_coordinate, read_fixed, read_number};

// The largest number of a shift in absolute value.
const FARTHEST: u32 = 2_000_000_000;

fn is_cells(n: u32) -> bool
    ensures { result ≡ is_one_of cell_counts n }
{
    matches!(n, 1 | 2 | 4 | 8 | 16 | 32)
}

fn is_side(n: u32) -> bool
    ensures { result ≡ is_one_of sides n }
{
    matches!(
        n,
        16 | 32
            | 64
            | 128
            | 256
            | 512
            | 1024
            | 2048
            | 4096
            | 8192
            | 16384
            | 32768
            | 65536
            | 131072
            | 262144
    )
}

/// Reads the line of the cells.
pub fn read_cells(bytes: &[u8]) -> Result<(u32, &[u8]), Stop>
    ensures { Gives (λ n. n) (named (codes "cells ") IsCells) bytes.now result }
{
    let rest = read_fixed(bytes, b"cells ")?;
    let (cells, behind) = read_number(rest, b'\n', 1, 32)?;
    if !is_cells(cells) {
        return Err(Stop::At(rest.len()));
    }
    Ok((cells, behind))
}

fn read_side(bytes: &[u8]) -> Result<(u32, &[u8]), Stop>
    ensures gives { Gives (λ n. n) (number feed IsSide) bytes.now result }
    ensures small { IfOk result (λ r. r.0 ≤ largest_side) }
{
    let (side, rest) = read_number(bytes, b'\n', 16, LARGEST_SIDE)?;
    if !is_side(side) {
        return Err(Stop::At(bytes.len()));
    }
    Ok((side, rest))
}

fn read_side_alone(bytes: &[u8]) -> Result<(Size, &[u8]), Stop>
    ensures gives { Gives (λ s. (s.digits, s.side)) (size_behind size_kinds.Side) bytes.now result }
    ensures small { IfOk result (λ r. r.0.side ≤ largest_side) }
{
    let (side, rest) = read_side(bytes)?;
    Ok((Size { digits: None, side }, rest))
}

fn read_digits_and_side(bytes: &[u8]) -> Result<(Size, &[u8]), Stop>
    ensures gives { Gives (λ s. (s.digits, s.side)) (size_behind size_kinds.Digits) bytes.now result }
    ensures small { IfOk result (λ r. r.0.side ≤ largest_side) }
{
    let (digits, rest) = read_number(bytes, b'\n', 0, 5)?;
    let rest = read_fixed(rest, b"box ")?;
    let (side, rest) = read_side(rest)?;
    let digits = Some(digits);
    Ok((Size { digits, side }, rest))
}

/// Reads the digits, which may be absent, and the side.
pub fn read_size(bytes: &[u8]) -> Result<(Size, &[u8]), Stop>
    ensures gives { Gives (λ s. (s.digits, s.side)) size bytes.now result }
    ensures small { IfOk result (λ r. r.0.side ≤ largest_side) }
{
    let (kind, rest) = read_size_kind(bytes)?;
    match kind {
        SizeKind::Digits => read_digits_and_side(rest),
        SizeKind::Side => read_side_alone(rest),
    }
}

/// Reads the line of the shift.
pub fn read_shift_line(bytes: &[u8]) -> Result<([i64; 3], &[u8]), Stop>
    ensures gives { Gives (λ s. s) shift_line bytes.now result }
    ensures near { IfOk result (λ r. All (λ s. unsigned_abs s ≤ 2 * 10 ^ 9) r.0) }
{
    let rest = read_fixed(bytes, b"shift ")?;
    let (x, rest) = read_coordinate(rest, 0, b' ', FARTHEST)?;
    let (y, rest) = read_coordinate(rest, 0, b' ', FARTHEST)?;
    let (z, rest) = read_coordinate(rest, 0, b'\n', FARTHEST)?;
    Ok(([x, y, z], rest))
}
