//! Lines of a report at the end of a text.

ghost use Rattle.std.specs.Prelude.{◌≡◌, ◌≤◌, ◌*◌, ◌^◌, ◌++◌, ◌∷◌, [], unsigned_abs, length, All, OnOk};
ghost use Rattle.std.specs.List.{enumerate_from, flat_map};
ghost use Rattle.lines.specs.Fields.{space, word};
ghost use Rattle.report_text.specs.Rules.{why_text, verdict_text, end_text};
ghost use Rattle.report_text.specs.Text.{defect_text, words_of, triangle_line, again_line, vertex_text, attempt_text, try_line, journal_text, top_text, cert_text, covering_line};

use crate::put_words::{put_four, put_named, put_three, put_word};
use crate::report::Covering;
use grid::Memory;
use mesh_types::{Again, Cert, Defect, End, Outcome, Try, TryLine, Verdict, Why};
use texts::put;

fn put_defect(out: &mut Vec<u8>, defect: Defect, shift: [i64; 3]) -> Result<(), Memory>
    requires { All (λ s. unsigned_abs s ≤ 2 * 10 ^ 9) shift }
    ensures { OnOk result (out.new.items ≡ out.old.items ++ defect_text shift defect) }
{
    match defect {
        Defect::Degenerate => put(out, b"rolled-back degenerate\n"),
        Defect::Full => put(out, b"rolled-back full\n"),
        Defect::Inverted(points) => {
            put(out, b"rolled-back inverted ")?;
            put_four(out, points, shift)
        }
        Defect::Unresolved(points) => {
            put(out, b"rolled-back unresolved ")?;
            put_four(out, points, shift)
        }
        Defect::Stray(points) => {
            put(out, b"rolled-back stray ")?;
            put_three(out, points, shift)
        }
        Defect::Uncovered(points) => {
            put(out, b"rolled-back uncovered ")?;
            put_three(out, points, shift)
        }
    }
}

fn put_outcome(out: &mut Vec<u8>, outcome: Outcome, shift: [i64; 3]) -> Result<(), Memory>
    requires { All (λ s. unsigned_abs s ≤ 2 * 10 ^ 9) shift }
    ensures { OnOk result (out.new.items ≡ out.old.items ++ words_of shift outcome) }
{
    match outcome {
        Outcome::Inserted { points } => put_named(out, b"inserted ", u64::from(points)),
        Outcome::RolledBack(defect) => put_defect(out, defect, shift),
    }
}

fn put_triangle(
    out: &mut Vec<u8>,
    number: u64,
    outcome: Outcome,
    shift: [i64; 3],
) -> Result<(), Memory>
    requires { All (λ s. unsigned_abs s ≤ 2 * 10 ^ 9) shift }
    ensures { OnOk result (out.new.items ≡ out.old.items ++ triangle_line shift (number, outcome)) }
{
    put(out, b"t ")?;
    put_word(out, number, b' ')?;
    put_outcome(out, outcome, shift)
}

/// Writes a line for each triangle.
pub fn put_triangles(out: &mut Vec<u8>, outcomes: &[Outcome], shift: [i64; 3]) -> Result<(), Memory>
    requires { All (λ s. unsigned_abs s ≤ 2 * 10 ^ 9) shift }
    ensures { OnOk result (out.new.items ≡ out.old.items ++ flat_map (triangle_line shift) (enumerate_from 0 outcomes.now)) }
{
    let mut number = 0;
    for outcome in outcomes {
        put_triangle(out, number, *outcome, shift)?;
        number += 1;
    }
    Ok(())
}

/// Writes a line for each triangle of the second part.
pub fn put_again(out: &mut Vec<u8>, again: &[Again], shift: [i64; 3]) -> Result<(), Memory>
    requires { All (λ s. unsigned_abs s ≤ 2 * 10 ^ 9) shift }
    ensures { OnOk result (out.new.items ≡ out.old.items ++ flat_map (again_line shift) again.now) }
{
    for a in again {
        put_triangle(out, u64::from(a.triangle), a.outcome, shift)?;
    }
    Ok(())
}

fn put_vertex(out: &mut Vec<u8>, u: u32) -> Result<(), Memory>
    ensures { OnOk result (out.new.items ≡ out.old.items ++ vertex_text u) }
{
    put_word(out, u64::from(u) + 1, b' ')
}

fn put_pair(out: &mut Vec<u8>, name: &[u8], u: u32, v: u32) -> Result<(), Memory>
    ensures { OnOk result (out.new.items ≡ out.old.items ++ name.now ++ vertex_text u ++ vertex_text v) }
{
    put(out, name)?;
    put_vertex(out, u)?;
    put_vertex(out, v)
}

fn put_attempt(out: &mut Vec<u8>, attempt: Try) -> Result<(), Memory>
    ensures { OnOk result (out.new.items ≡ out.old.items ++ attempt_text attempt) }
{
    match attempt {
        Try::Split(u, v) => put_pair(out, b"split ", u, v),
        Try::Shift(u, step) => {
            put(out, b"shift ")?;
            put_vertex(out, u)?;
            put_word(out, u64::from(step), b' ')
        }
        Try::Collapse(u, v) => put_pair(out, b"collapse ", u, v),
        Try::FaceSwap(a, b, c) => {
            put_pair(out, b"face-swap ", a, b)?;
            put_vertex(out, c)
        }
        Try::EdgeSwap(u, v) => put_pair(out, b"edge-swap ", u, v),
    }
}

fn put_why(out: &mut Vec<u8>, why: Why) -> Result<(), Memory>
    ensures { OnOk result (out.new.items ≡ out.old.items ++ why_text why) }
{
    match why {
        Why::Box => put(out, b"refused box\n"),
        Why::Rim => put(out, b"refused rim\n"),
        Why::Tracked => put(out, b"refused tracked\n"),
        Why::Full => put(out, b"refused full\n"),
        Why::Inverted => put(out, b"refused inverted\n"),
        Why::Doubled => put(out, b"refused doubled\n"),
        Why::Worse => put(out, b"refused worse\n"),
        Why::Uncovered => put(out, b"refused uncovered\n"),
    }
}

fn put_verdict(out: &mut Vec<u8>, verdict: Verdict) -> Result<(), Memory>
    ensures { OnOk result (out.new.items ≡ out.old.items ++ verdict_text verdict) }
{
    match verdict {
        Verdict::Kept => put(out, b"kept\n"),
        Verdict::Refused(why) => put_why(out, why),
    }
}

fn put_tries(out: &mut Vec<u8>, tries: &[TryLine]) -> Result<(), Memory>
    ensures { OnOk result (out.new.items ≡ out.old.items ++ flat_map try_line tries.now) }
{
    for line in tries {
        put_attempt(out, line.attempt)?;
        put_verdict(out, line.verdict)?;
    }
    Ok(())
}

fn put_end(out: &mut Vec<u8>, end: End) -> Result<(), Memory>
    ensures { OnOk result (out.new.items ≡ out.old.items ++ end_text end) }
{
    match end {
        End::Settled => put(out, b"end settled\n"),
        End::Stopped => put(out, b"end stopped\n"),
    }
}

/// Writes the tries and how they ended.
pub fn put_journal(out: &mut Vec<u8>, tries: &[TryLine], end: End) -> Result<(), Memory>
    ensures { OnOk result (out.new.items ≡ out.old.items ++ journal_text tries.now end) }
{
    put_named(out, b"tries ", tries.len() as u64)?;
    put_tries(out, tries)?;
    put_end(out, end)
}

// A certificate of at most that many levels of splits, and the byte behind it. What is deeper is left
// out.
fn put_cert(out: &mut Vec<u8>, cert: &Cert, levels: u32, end: u8) -> Result<(), Memory>
    ensures { OnOk result (out.new.items ≡ out.old.items ++ cert_text levels end cert.now) }
{
    match cert {
        Cert::Leaf(t) => put_word(out, u64::from(*t), end),
        Cert::Split(parts) => {
            put(out, b"(")?;
            if levels == 0 {
                return put(out, &[end]);
            }
            let [at_a, at_b, at_c, middle] = parts.get();
            put_cert(out, at_a, levels - 1, b' ')?;
            put_cert(out, at_b, levels - 1, b' ')?;
            put_cert(out, at_c, levels - 1, b' ')?;
            put_cert(out, middle, levels - 1, b')')?;
            put(out, &[end])
        }
    }
}

// Each number and a space behind it.
fn put_numbers(out: &mut Vec<u8>, numbers: &[u32]) -> Result<(), Memory>
    ensures { OnOk result (out.new.items ≡ out.old.items ++ flat_map (word space) numbers.now) }
{
    for n in numbers {
        put_word(out, u64::from(*n), b' ')?;
    }
    Ok(())
}

fn put_face(out: &mut Vec<u8>, covering: &Covering) -> Result<(), Memory>
    ensures { OnOk result (out.new.items ≡ out.old.items ++ covering_line covering.now) }
{
    put(out, b"f ")?;
    put_numbers(out, &covering.face.0)?;
    put_cert(out, &covering.cert, 6, b'\n')
}

/// Writes a line for each tracked face.
pub fn put_faces(out: &mut Vec<u8>, faces: &[Covering]) -> Result<(), Memory>
    ensures { OnOk result (out.new.items ≡ out.old.items ++ flat_map covering_line faces.now) }
{
    for face in faces {
        put_face(out, face)?;
    }
    Ok(())
}
