// The line that sums up a run.
ghost use Rattle.std.specs.Prelude.{◌≡◌, ◌≤◌, ◌^◌, ◌+◌, ◌++◌, length, not, nat_eq, count_by, decimal, IfOk, OnOk};
ghost use Rattle.mesh_types.specs.Turns.{is_rolled_back};
ghost use Rattle.report_text.specs.Rules.{end_text};
ghost use Rattle.outputs.specs.Summary.{inserted_again, last_end, left_out, mesh_counts, outcome_counts, summary_line, tries_again, try_counts};

use grid::Memory;
use itoa::Buffer;
use mesh_types::{Again, End, Outcome};
use mesher::Meshed;
use msh_text::{MshMesh, MshTet};
use report_text::Second;
use std::alloc::Global;
use texts::{put, put_number};

// How many tetrahedra are kept.
fn count_kept(tets: &[MshTet]) -> usize
    ensures { result ≡ count_by (λ t. nat_eq t.tag 1) tets.now }
{
    tets.iter().filter(|tet| tet.tag == 1).count()
}

// Whether a triangle was rolled back.
fn is_rolled_back(outcome: &Outcome) -> bool
    ensures { result ≡ Rattle.mesh_types.specs.Turns.is_rolled_back outcome.now }
{
    match outcome {
        Outcome::Inserted { .. } => false,
        Outcome::RolledBack(_) => true,
    }
}

// How many triangles the first turn inserted.
fn count_inserted(outcomes: &[Outcome]) -> usize
    ensures { result ≡ count_by (λ o. not (is_rolled_back o)) outcomes.now }
{
    outcomes
        .iter()
        .filter(|outcome| !is_rolled_back(outcome))
        .count()
}

// How many triangles the second turn inserted.
fn inserted_again(second: &Option<Second>) -> usize
    ensures { result ≡ inserted_again second.now }
{
    match second {
        Some(second) => second
            .again
            .as_slice()
            .iter()
            .filter(|again| !is_rolled_back(&again.outcome))
            .count(),
        None => 0,
    }
}

// How many triangles are rolled back at last.
fn count_left_out(outcomes: &[Outcome], second: &Option<Second>) -> usize
    ensures { result ≡ left_out outcomes.now second.now }
{
    match second {
        Some(second) => second
            .again
            .as_slice()
            .iter()
            .filter(|again| is_rolled_back(&again.outcome))
            .count(),
        None => outcomes
            .iter()
            .filter(|outcome| is_rolled_back(outcome))
            .count(),
    }
}

fn tries_again(second: &Option<Second>) -> usize
    ensures { result ≡ tries_again second.now }
{
    match second {
        Some(second) => second.journal.lines.len(),
        None => 0,
    }
}

fn last_end(end: End, second: &Option<Second>) -> End
    ensures { result ≡ last_end end second.now }
{
    match second {
        Some(second) => second.end,
        None => end,
    }
}

fn put_mesh(out: &mut Vec<u8>, mesh: &MshMesh) -> Result<(), Memory>
    ensures { OnOk result (out.new.items ≡ out.old.items ++ mesh_counts mesh.now) }
{
    put(out, b"points ")?;
    put_number(out, mesh.nodes.len() as u64)?;
    put(out, b" tets ")?;
    put_number(out, mesh.tets.len() as u64)?;
    put(out, b" tracked ")?;
    put_number(out, mesh.tracked.len() as u64)?;
    put(out, b" kept ")?;
    put_number(out, count_kept(mesh.tets.as_slice()) as u64)
}

// The sum of two counts, which may pass 64 bits.
fn put_sum(out: &mut Vec<u8>, first: usize, second: usize) -> Result<(), Memory>
    ensures { OnOk result (out.new.items ≡ out.old.items ++ decimal (first + second)) }
{
    let mut buffer = Buffer::new();
    put(
        out,
        buffer.format(first as u128 + second as u128).as_bytes(),
    )
}

fn put_outcomes(out: &mut Vec<u8>, made: &Meshed) -> Result<(), Memory>
    ensures { OnOk result (out.new.items ≡ out.old.items ++ outcome_counts made.now) }
{
    let inserted = count_inserted(made.outcomes.as_slice());
    let left_out = count_left_out(made.outcomes.as_slice(), &made.second);
    put(out, b" inserted ")?;
    put_sum(out, inserted, inserted_again(&made.second))?;
    put(out, b" rolled-back ")?;
    put_number(out, left_out as u64)?;
    Ok(())
}

fn end_text(end: End) -> &'static [u8]
    ensures { result.now ≡ end_text end }
{
    match end {
        End::Settled => b"end settled\n",
        End::Stopped => b"end stopped\n",
    }
}

fn put_tries(out: &mut Vec<u8>, made: &Meshed) -> Result<(), Memory>
    ensures { OnOk result (out.new.items ≡ out.old.items ++ try_counts made.now) }
{
    put(out, b" tries ")?;
    put_sum(out, made.journal.lines.len(), tries_again(&made.second))?;
    put(out, b" ")?;
    put(out, end_text(last_end(made.end, &made.second)))?;
    Ok(())
}

/// The line that sums up a run.
#[tactic(auto, unfolding(crate::specs::Summary::summary_line))]
pub fn write_summary(alloc: Global, mesh: &MshMesh, made: &Meshed) -> Result<Vec<u8>, Memory>
    ensures { IfOk result (λ text. text.items ≡ summary_line mesh.now made.now) }
{
    let mut out = Vec::new(alloc);
    put_mesh(&mut out, mesh)?;
    put_outcomes(&mut out, made)?;
    put_tries(&mut out, made)?;
    Ok(out)
}
