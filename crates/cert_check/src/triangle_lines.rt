//! Whether the report has the lines of the triangles.

ghost use Rattle.grid.specs.Limits.{most_input};
ghost use Rattle.std.specs.Prelude.{◌≡◌, ◌↔◌, ◌≤◌, length, map, IsTrue};
ghost use Rattle.mesh_types.specs.Turns.{is_rolled_back, rolled_back};
ghost use Rattle.cert_check.specs.Faults.{AreLines};

use grid::Tri;
use mesh_types::{Again, Outcome};
use report_text::Report;

/// Whether the triangle was rolled back.
fn is_rolled_back(outcome: &Outcome) -> bool
    ensures { result ≡ Rattle.mesh_types.specs.Turns.is_rolled_back outcome.now }
{
    match outcome {
        Outcome::Inserted { .. } => false,
        Outcome::RolledBack(_) => true,
    }
}

/// Whether the triangles of the second part are those that were rolled back, in rising order.
fn are_rolled_back(again: &[Again], outcomes: &[Outcome]) -> bool
    requires few { length outcomes.now ≤ most_input }
    ensures { IsTrue result ↔ (map (λ a. a.triangle) again.now ≡ rolled_back 0 outcomes.now) }
{
    let mut met = 0;
    for i in 0..outcomes.len() {
        if !is_rolled_back(&outcomes[i]) {
            continue;
        }
        if met == again.len() {
            return false;
        }
        if again[met].triangle != i as u32 {
            return false;
        }
        met += 1;
    }
    met == again.len()
}

/// Whether there is a line for each triangle, and in the second part one for each that was rolled
/// back.
pub fn are_lines(triangles: &[Tri], report: &Report) -> bool
    requires few { length report.now.outcomes ≤ most_input }
    ensures { IsTrue result ↔ AreLines triangles.now report.now }
{
    let outcomes = report.outcomes.as_slice();
    if outcomes.len() != triangles.len() {
        return false;
    }
    match &report.second {
        None => true,
        Some(second) => are_rolled_back(second.again.as_slice(), outcomes),
    }
}
