//! Numbers and points of a report text, read by its rules.

ghost use Rattle.grid.specs.Limits.{largest_side, most_points};
ghost use Rattle.std.specs.Prelude.{◌≡◌, ◌≤◌, ◌<◌, ◌*◌, ◌^◌, ◌+◌, ◌-ℤ◌, ◌≤ℤ◌, ℕ, pos, slice_index_or, unsigned_abs, true, false, All, IfOk, MatchOption};
ghost use Rattle.std.specs.Char.{is_ascii_digit};
ghost use Rattle.lines.specs.Fields.{Between};
ghost use Rattle.lines.specs.Gives.{Gives};
ghost use Rattle.report_text.specs.Rules.{IsGrid, named, vertex, other_vertex, grid_number, point, three_points, four_points};

use grid::{MOST_POINTS, Point};
use lines::{Stop, read_coordinate, read_fixed, read_number};

// The largest coordinate in absolute value: 2 * 10^9 and the largest side.
const FARTHEST: u32 = 2_000_262_144;

/// Reads a number behind a name, on a line of its own.
pub fn read_named<'a>(
    bytes: &'a [u8],
    name: &[u8],
    low: u32,
    high: u32,
) -> Result<(u32, &'a [u8]), Stop>
    ensures gives { Gives (λ n. n) (named name.now (Between low high)) bytes.now result }
    ensures between { IfOk result (λ r. Between low high r.0) }
{
    let rest = read_fixed(bytes, name)?;
    read_number(rest, b'\n', low, high)
}

/// Reads the number of a point, from `low` on, and answers the one before it.
pub fn read_vertex(bytes: &[u8], low: u32) -> Result<(u32, &[u8]), Stop>
    requires { 1 ≤ low }
    ensures gives { Gives (λ n. n) (vertex low) bytes.now result }
    ensures small { IfOk result (λ r. r.0 < most_points) }
{
    let (n, rest) = read_number(bytes, b' ', low, MOST_POINTS)?;
    Ok((n - 1, rest))
}

/// Reads the number of a point other than u.
pub fn read_other_vertex(bytes: &[u8], u: u32) -> Result<(u32, &[u8]), Stop>
    requires { u < most_points }
    ensures { Gives (λ n. n) (other_vertex u) bytes.now result }
{
    let (n, rest) = read_number(bytes, b' ', 1, MOST_POINTS)?;
    if n == u + 1 {
        return Err(Stop::At(bytes.len()));
    }
    Ok((n - 1, rest))
}

// The coordinate without the shift, where that lies in the box.
fn grid_of(z: i64, shift: i64, side: u32) -> Option<i32>
    requires side { side ≤ largest_side }
    requires near { unsigned_abs shift ≤ 2 * 10 ^ 9 }
    requires small { unsigned_abs z ≤ 2 * 10 ^ 9 + largest_side }
    ensures { MatchOption result (IsGrid side shift z → ⊥) (λ g. (g ≡ z -ℤ shift) × IsGrid side shift z) }
{
    let moved = z - shift;
    if moved < 0 {
        return None;
    }
    if moved > i64::from(side) {
        return None;
    }
    Some(moved as i32)
}

fn read_grid(bytes: &[u8], side: u32, shift: i64, end: u8) -> Result<(i32, &[u8]), Stop>
    requires side { side ≤ largest_side }
    requires near { unsigned_abs shift ≤ 2 * 10 ^ 9 }
    requires end { is_ascii_digit end ≡ false }
    ensures { Gives (λ z. z) (grid_number side shift end) bytes.now result }
{
    let (z, rest) = read_coordinate(bytes, 0, end, FARTHEST)?;
    match grid_of(z, shift, side) {
        Some(g) => Ok((g, rest)),
        None => Err(Stop::At(bytes.len())),
    }
}

fn read_point(bytes: &[u8], side: u32, shift: [i64; 3], end: u8) -> Result<(Point, &[u8]), Stop>
    requires side { side ≤ largest_side }
    requires near { All (λ s. unsigned_abs s ≤ 2 * 10 ^ 9) shift }
    requires end { is_ascii_digit end ≡ false }
    ensures { Gives (λ p. p) (point side shift end) bytes.now result }
{
    let [by_x, by_y, by_z] = shift;
    let (x, rest) = read_grid(bytes, side, by_x, b' ')?;
    let (y, rest) = read_grid(rest, side, by_y, b' ')?;
    let (z, rest) = read_grid(rest, side, by_z, end)?;
    Ok((Point { x, y, z }, rest))
}

/// Reads three points to the end of a line.
pub fn read_three(bytes: &[u8], side: u32, shift: [i64; 3]) -> Result<([Point; 3], &[u8]), Stop>
    requires side { side ≤ largest_side }
    requires near { All (λ s. unsigned_abs s ≤ 2 * 10 ^ 9) shift }
    ensures { Gives (λ ps. ps) (three_points side shift) bytes.now result }
{
    let (p, rest) = read_point(bytes, side, shift, b' ')?;
    let (q, rest) = read_point(rest, side, shift, b' ')?;
    let (r, rest) = read_point(rest, side, shift, b'\n')?;
    Ok(([p, q, r], rest))
}

/// Reads four points to the end of a line.
pub fn read_four(bytes: &[u8], side: u32, shift: [i64; 3]) -> Result<([Point; 4], &[u8]), Stop>
    requires side { side ≤ largest_side }
    requires near { All (λ s. unsigned_abs s ≤ 2 * 10 ^ 9) shift }
    ensures { Gives (λ ps. ps) (four_points side shift) bytes.now result }
{
    let (p, rest) = read_point(bytes, side, shift, b' ')?;
    let (q, rest) = read_point(rest, side, shift, b' ')?;
    let (r, rest) = read_point(rest, side, shift, b' ')?;
    let (s, rest) = read_point(rest, side, shift, b'\n')?;
    Ok(([p, q, r, s], rest))
}
