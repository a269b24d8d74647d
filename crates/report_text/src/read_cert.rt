//! Certificates of a report text, read by its rules.

ghost use Rattle.std.specs.Prelude.{◌≡◌, ◌<◌, false, IfOk, MatchOption};
ghost use Rattle.std.specs.Char.{is_ascii_digit};
ghost use Rattle.lines.specs.Forms.{field};
ghost use Rattle.lines.specs.Gives.{Gives};
ghost use Rattle.report_text.specs.Rules.{certificate, certificate_text, CertificateAllowed};

use grid::MOST_INPUT;
use lines::{Stop, read_fixed, read_number, strip_text};
use mesh_types::Cert;
use sqlite_items::Boxed;
use std::alloc::Global;

// The largest number of a triangle.
const LAST_TRIANGLE: u32 = MOST_INPUT - 1;

// A leaf and the byte that ends it, or nothing where a split begins.
fn read_top(bytes: &[u8], levels: u32, end: u8) -> Result<(Option<u32>, &[u8]), Stop>
    requires end { is_ascii_digit end ≡ false }
    ensures gives { Gives (λ t. t) (field (certificate_text end) (CertificateAllowed levels)) bytes.now result }
    ensures level { IfOk result (λ r. MatchOption r.0 (0 < levels) (λ t. Unit {0})) }
{
    if let Some(rest) = strip_text(bytes, b"(") {
        if levels == 0 {
            return Err(Stop::At(bytes.len()));
        }
        return Ok((None, rest));
    }
    let (t, rest) = read_number(bytes, end, 0, LAST_TRIANGLE)?;
    Ok((Some(t), rest))
}

/// Reads a certificate of at most so many levels of splits, and the byte that ends it.
pub fn read_cert(alloc: Global, bytes: &[u8], levels: u32, end: u8) -> Result<(Cert, &[u8]), Stop>
    requires end { is_ascii_digit end ≡ false }
    ensures { Gives (λ c. c) (certificate levels end) bytes.now result }
{
    let (top, rest) = read_top(bytes, levels, end)?;
    if let Some(t) = top {
        return Ok((Cert::Leaf(t), rest));
    }
    let (a, rest) = read_cert(alloc, rest, levels - 1, b' ')?;
    let (b, rest) = read_cert(alloc, rest, levels - 1, b' ')?;
    let (c, rest) = read_cert(alloc, rest, levels - 1, b' ')?;
    let (d, rest) = read_cert(alloc, rest, levels - 1, b')')?;
    let rest = read_fixed(rest, &[end])?;
    let parts = Boxed::new(alloc, [a, b, c, d])?;
    Ok((Cert::Split(parts), rest))
}
