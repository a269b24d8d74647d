//! The whole of a report text.

ghost use Rattle.std.specs.Prelude.{◌≡◌, ◌≤◌, ◌-◌, ◌*◌, ◌^◌, ◌⊎◌, ℕ, length, unsigned_abs, Ok, All, IfOk, IsErrOf};
ghost use Rattle.lines.specs.Gives.{Gives};
ghost use Rattle.report_text.specs.Rules.{report_rules};
ghost use Rattle.report_text.specs.Answers.{Answers, BadLine, IsReportOf};
ghost use Rattle.report_text.specs.declared.report.Report.{Report};

use crate::issue::ReportIssue;
use crate::read_head::{read_cells, read_shift_line, read_size};
use crate::read_journal::read_journal;
use crate::read_lists::{read_faces, read_outcomes};
use crate::read_second::read_second;
use crate::read_words::read_named;
use crate::report::{Report, Tries};
use grid::{MOST_EPSILON, MOST_INPUT};
use items::Items;
use lines::{Stop, line_at, read_fixed};
use std::alloc::Global;

// How many tries are left of the budget.
fn tries_left(budget: u32, tries: &Tries) -> u32
    ensures { result ≡ budget - length tries.now.journal.lines }
{
    let made = tries.journal.lines.len();
    (budget as usize).saturating_sub(made) as u32
}

fn read_whole(alloc: Global, bytes: &[u8]) -> Result<(Report, &[u8]), Stop>
    ensures gives { Gives (λ r. r) report_rules bytes.now result }
    ensures near { IfOk result (λ r. All (λ s. unsigned_abs s ≤ 2 * 10 ^ 9) r.0.shift) }
{
    let rest = read_fixed(bytes, b"tetsoup report 1\n")?;
    let (epsilon, rest) = read_named(rest, b"epsilon ", 1, MOST_EPSILON)?;
    let (cells, rest) = read_cells(rest)?;
    let (budget, rest) = read_named(rest, b"budget ", 0, 1_000_000)?;
    let (size, rest) = read_size(rest)?;
    let (shift, rest) = read_shift_line(rest)?;
    let (count, rest) = read_named(rest, b"triangles ", 0, MOST_INPUT)?;
    let (outcomes, rest) = read_outcomes(alloc, rest, count, size.side, shift)?;
    let (tries, rest) = read_journal(alloc, rest, budget)?;
    let left = tries_left(budget, &tries);
    let (tail, rest) = read_second(alloc, rest, count, size.side, shift, left)?;
    let (faces, rest) = read_faces(alloc, rest, tail.faces)?;
    Ok((
        Report {
            epsilon,
            cells,
            budget,
            digits: size.digits,
            side: size.side as i32,
            shift,
            outcomes: Items::from_vec(outcomes),
            journal: tries.journal,
            end: tries.end,
            faces: Items::from_vec(faces),
            second: tail.second,
        },
        rest,
    ))
}

fn read(alloc: Global, bytes: &[u8]) -> Result<Report, ReportIssue>
    ensures answers { Answers bytes.now result }
    ensures near { IfOk result (λ r. All (λ s. unsigned_abs s ≤ 2 * 10 ^ 9) r.shift) }
{
    match read_whole(alloc, bytes) {
        Ok((report, rest)) => {
            if rest.is_empty() {
                Ok(report)
            } else {
                Err(ReportIssue::Line(line_at(bytes, rest.len())))
            }
        }
        Err(Stop::At(left)) => Err(ReportIssue::Line(line_at(bytes, left))),
        Err(Stop::Memory) => Err(ReportIssue::Memory),
    }
}

/// Reads a report text. The answer is the report of which this is the text, where there is one that
/// keeps the rules of the format, and else the first line that is missing or breaks its rule, or the
/// first line behind the last one.
pub fn read_report(alloc: Global, bytes: &[u8]) -> Result<Report, ReportIssue>
    // What is answered is so.
    ensures answers { Answers bytes.now result }
    // The report of which this is the text is answered, unless memory runs out.
    ensures all_read { (r : Report) → IsReportOf bytes.now r → (result ≡ Ok r) ⊎ IsErrOf result ReportIssue.Memory }
    // The shift of the report is that of a box.
    ensures near { IfOk result (λ r. All (λ s. unsigned_abs s ≤ 2 * 10 ^ 9) r.shift) }
    // The first bad line is answered, unless memory runs out.
    ensures all_refused { (n : ℕ) → BadLine bytes.now n → IsErrOf result (ReportIssue.Line n) ⊎ IsErrOf result ReportIssue.Memory }
{
    read(alloc, bytes)
}
