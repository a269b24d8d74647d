//! The lists of a report text, read by its rules.

ghost use Rattle.grid.specs.Limits.{largest_side};
ghost use Rattle.std.specs.Prelude.{◌≡◌, ◌≤◌, ◌*◌, ◌^◌, [], unsigned_abs, All};
ghost use Rattle.lines.specs.Forms.{repeat};
ghost use Rattle.lines.specs.Gives.{Gives};
ghost use Rattle.report_text.specs.Rules.{more_outcomes, more_again, more_faces};

use crate::read_cert::read_cert;
use crate::read_outcome::read_outcome;
use crate::report::Covering;
use grid::{Face, MOST_POINTS};
use lines::{Stop, read_fixed, read_number};
use mesh_types::{Again, Outcome};
use std::alloc::Global;

// The levels of splits of a certificate.
const LEVELS: u32 = 6;

/// Reads a line for each of so many triangles.
pub fn read_outcomes<'a>(
    alloc: Global,
    bytes: &'a [u8],
    count: u32,
    side: u32,
    shift: [i64; 3],
) -> Result<(Vec<Outcome>, &'a [u8]), Stop>
    requires side { side ≤ largest_side }
    requires near { All (λ s. unsigned_abs s ≤ 2 * 10 ^ 9) shift }
    ensures { Gives (λ v. v.items) (repeat (more_outcomes side shift) count []) bytes.now result }
{
    let mut outcomes: Vec<Outcome> = Vec::new(alloc);
    let mut rest = bytes;
    for i in 0..count {
        let behind = read_fixed(rest, b"t ")?;
        let (_, behind) = read_number(behind, b' ', i, i)?;
        let (outcome, behind) = read_outcome(behind, side, shift)?;
        outcomes.push(outcome)?;
        rest = behind;
    }
    Ok((outcomes, rest))
}

/// Reads so many lines of the second part, whose triangles rise.
pub fn read_again<'a>(
    alloc: Global,
    bytes: &'a [u8],
    count: u32,
    triangles: u32,
    side: u32,
    shift: [i64; 3],
) -> Result<(Vec<Again>, &'a [u8]), Stop>
    requires some { 1 ≤ triangles }
    requires side { side ≤ largest_side }
    requires near { All (λ s. unsigned_abs s ≤ 2 * 10 ^ 9) shift }
    ensures { Gives (λ v. v.items) (repeat (more_again triangles side shift) count []) bytes.now result }
{
    let mut again: Vec<Again> = Vec::new(alloc);
    let mut rest = bytes;
    let mut least = 0;
    for _ in 0..count {
        let behind = read_fixed(rest, b"t ")?;
        let (triangle, behind) = read_number(behind, b' ', least, triangles - 1)?;
        let (outcome, behind) = read_outcome(behind, side, shift)?;
        again.push(Again { triangle, outcome })?;
        least = triangle + 1;
        rest = behind;
    }
    Ok((again, rest))
}

/// Reads a line for each of so many tracked faces.
pub fn read_faces<'a>(
    alloc: Global,
    bytes: &'a [u8],
    count: u32,
) -> Result<(Vec<Covering>, &'a [u8]), Stop>
    ensures { Gives (λ v. v.items) (repeat more_faces count []) bytes.now result }
{
    let mut faces: Vec<Covering> = Vec::new(alloc);
    let mut rest = bytes;
    for _ in 0..count {
        let behind = read_fixed(rest, b"f ")?;
        let (a, behind) = read_number(behind, b' ', 1, MOST_POINTS)?;
        let (b, behind) = read_number(behind, b' ', a + 1, MOST_POINTS)?;
        let (c, behind) = read_number(behind, b' ', b + 1, MOST_POINTS)?;
        let (cert, behind) = read_cert(alloc, behind, LEVELS, b'\n')?;
        let face = Face([a, b, c]);
        faces.push(Covering { face, cert })?;
        rest = behind;
    }
    Ok((faces, rest))
}
