//! The part of a report text behind the first tries, read by its rules.

ghost use Rattle.grid.specs.Limits.{largest_side};
ghost use Rattle.std.specs.Prelude.{◌≡◌, ◌≤◌, ◌*◌, ◌^◌, [], unsigned_abs, All};
ghost use Rattle.lines.specs.Gives.{Gives};
ghost use Rattle.report_text.specs.declared.kinds.PartKind.TheVariants as part_kinds;
ghost use Rattle.report_text.specs.Rules.{part_behind, second_part};

use crate::kinds::PartKind;
use crate::read_journal::read_journal;
use crate::read_kinds::read_part_kind;
use crate::read_lists::read_again;
use crate::read_words::read_named;
use crate::report::{Second, Tail};
use items::Items;
use lines::{Stop, read_number};
use std::alloc::Global;

// The largest number of tracked faces.
const MOST_FACES: u32 = 1 << 24;

fn read_tracked(bytes: &[u8]) -> Result<(Tail, &[u8]), Stop>
    ensures { Gives (λ t. (t.second, t.faces)) (part_behind 0 0 [] 0 part_kinds.Tracked) bytes.now result }
{
    let (faces, rest) = read_number(bytes, b'\n', 0, MOST_FACES)?;
    Ok((
        Tail {
            second: None,
            faces,
        },
        rest,
    ))
}

fn read_members<'a>(
    alloc: Global,
    bytes: &'a [u8],
    triangles: u32,
    side: u32,
    shift: [i64; 3],
    most: u32,
) -> Result<(Tail, &'a [u8]), Stop>
    requires side { side ≤ largest_side }
    requires near { All (λ s. unsigned_abs s ≤ 2 * 10 ^ 9) shift }
    ensures { Gives (λ t. (t.second, t.faces)) (part_behind triangles side shift most part_kinds.Second) bytes.now result }
{
    let (members, rest) = read_number(bytes, b'\n', 1, triangles)?;
    let (again, rest) = read_again(alloc, rest, members, triangles, side, shift)?;
    let (tries, rest) = read_journal(alloc, rest, most)?;
    let (faces, rest) = read_named(rest, b"tracked ", 0, MOST_FACES)?;
    let second = Second {
        again: Items::from_vec(again),
        journal: tries.journal,
        end: tries.end,
    };
    Ok((
        Tail {
            second: Some(second),
            faces,
        },
        rest,
    ))
}

/// Reads the second part, which may be absent, and the number of faces.
pub fn read_second<'a>(
    alloc: Global,
    bytes: &'a [u8],
    triangles: u32,
    side: u32,
    shift: [i64; 3],
    most: u32,
) -> Result<(Tail, &'a [u8]), Stop>
    requires side { side ≤ largest_side }
    requires near { All (λ s. unsigned_abs s ≤ 2 * 10 ^ 9) shift }
    ensures { Gives (λ t. (t.second, t.faces)) (second_part triangles side shift most) bytes.now result }
{
    let (kind, rest) = read_part_kind(bytes)?;
    match kind {
        PartKind::Second => read_members(alloc, rest, triangles, side, shift, most),
        PartKind::Tracked => read_tracked(rest),
    }
}
