// A try, and its verdict.
ghost use Rattle.grid.specs.Boxes.{IsInBox};
ghost use Rattle.grid.specs.Limits.{largest_side, most_epsilon};
ghost use Rattle.grid.specs.Meshes.{IsWellFormed, IsWithinLimits};
ghost use Rattle.mesh_types.specs.declared.tries.Verdict;
ghost use Rattle.mesh_types.specs.Journals.{AllPositive, after, line, setting};
ghost use Rattle.mesh_types.specs.Results.{result_of};
ghost use Rattle.mesh_types.specs.Tries.{is_candidate};
ghost use Rattle.mesh_types.specs.Verdicts.{IsVerdict};
ghost use Rattle.mesh_types.specs.Views.{mesh_of};
ghost use Rattle.plain_ops.specs.PlainResults.{result_in};
ghost use Rattle.std.specs.Prelude.{All, IfOk, nat_abs, pos, true, ◌≡◌, ◌≤ℤ◌, ◌≤◌};

use crate::after::{is_better, is_inside, is_single, is_upright};
use crate::before::{passes_box, passes_rim, passes_tracked};
use crate::cutting::{copy_of, is_within_limits};
use crate::results::{PlainResult, result_of};
use envelope_tree::Envelope;
use grid::Memory;
use mesh_types::{Lists, Try, Verdict, Why};
use std::alloc::Global;

/// The mesh after a try, and its verdict.
#[derive(Drop)]
pub struct PlainTry {
    pub mesh: Lists,
    pub verdict: Verdict,
}

// Kept, or refused for the first reason that holds.
fn verdict_of(
    mesh: &Lists,
    made: &PlainResult,
    env: &Envelope,
    e: u32,
    side: i32,
    attempt: Try,
) -> Verdict
    requires well_formed { IsWellFormed (mesh_of mesh.now) }
    requires within { IsWithinLimits (mesh_of mesh.now) }
    requires side_low { pos 0 ≤ℤ side }
    requires side_high { side ≤ℤ pos largest_side }
    requires in_box { All (IsInBox (nat_abs side)) mesh.now.points }
    requires positive { AllPositive (mesh_of mesh.now) }
    requires made { result_in made.now ≡ result_of (nat_abs side) (mesh_of mesh.now) attempt }
    requires e_high { e ≤ most_epsilon }
    ensures { IsVerdict (setting env.now e side) (mesh_of mesh.now) attempt result }
{
    if !passes_box(mesh, side, attempt) {
        return Verdict::Refused(Why::Box);
    }
    if !passes_rim(mesh, attempt) {
        return Verdict::Refused(Why::Rim);
    }
    if !passes_tracked(mesh, attempt) {
        return Verdict::Refused(Why::Tracked);
    }
    if !is_within_limits(&made.mesh) {
        return Verdict::Refused(Why::Full);
    }
    if !is_upright(made) {
        return Verdict::Refused(Why::Inverted);
    }
    if !is_single(made) {
        return Verdict::Refused(Why::Doubled);
    }
    if !is_better(made) {
        return Verdict::Refused(Why::Worse);
    }
    if !is_inside(mesh, made, env, e) {
        return Verdict::Refused(Why::Uncovered);
    }
    Verdict::Kept
}

/// Makes a try that is a candidate of the mesh: the mesh that it makes where it is kept, and the mesh
/// before it where it is refused, with the first reason in the order of `Why`. The points lie in the
/// box from 0 to `side`, each tetrahedron is positive, and `e` is in grid steps.
pub fn attempt_plain(
    alloc: Global,
    mesh: &Lists,
    env: &Envelope,
    e: u32,
    side: i32,
    attempt: Try,
) -> Result<PlainTry, Memory>
    requires well_formed { IsWellFormed (mesh_of mesh.now) }
    requires within { IsWithinLimits (mesh_of mesh.now) }
    requires side_low { pos 0 ≤ℤ side }
    requires side_high { side ≤ℤ pos largest_side }
    requires in_box { All (IsInBox (nat_abs side)) mesh.now.points }
    requires candidate { is_candidate (mesh_of mesh.now).tets attempt ≡ true }
    requires positive { AllPositive (mesh_of mesh.now) }
    requires e_low { 1 ≤ e }
    requires e_high { e ≤ most_epsilon }
    ensures verdict { IfOk result (λ r. IsVerdict (setting env.now e side) (mesh_of mesh.now) attempt r.verdict) }
    ensures mesh { IfOk result (λ r. mesh_of r.mesh ≡ after (nat_abs side) (mesh_of mesh.now) (line attempt r.verdict)) }
{
    let made = result_of(alloc, mesh, side, attempt)?;
    match verdict_of(mesh, &made, env, e, side, attempt) {
        Verdict::Kept => Ok(PlainTry {
            mesh: made.mesh,
            verdict: Verdict::Kept,
        }),
        Verdict::Refused(why) => {
            let same = copy_of(alloc, mesh)?;
            Ok(PlainTry {
                mesh: same,
                verdict: Verdict::Refused(why),
            })
        }
    }
}
