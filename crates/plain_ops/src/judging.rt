// The first defect of a cut mesh.
ghost use Rattle.grid.specs.Determinants.{IsPositive, point_at};
ghost use Rattle.grid.specs.Envelopes.{triangle_at};
ghost use Rattle.grid.specs.Limits.{most_epsilon};
ghost use Rattle.grid.specs.Near.{Near};
ghost use Rattle.grid.specs.Views.{triples_of};
ghost use Rattle.mesh_types.specs.Phases.{is_unresolved, section};
ghost use Rattle.mesh_types.specs.Views.{mesh_of};
ghost use Rattle.plain_ops.specs.CutMeshes.{IsCutFrom, IsJudged};
ghost use Rattle.std.specs.Prelude.{All, IfOk, false, length, ◌<◌, ◌≡◌, ◌≤◌};

use crate::defects::{first_inverted, first_stray, first_uncovered, first_unresolved};
use cutting_rule::CuttingTriangle;
use envelope_tree::Envelope;
use grid::{Face, Memory};
use mesh_types::{Defect, Lists};
use std::alloc::Global;

/// The first defect that triangle t of the envelope has in the cut mesh, where `faces` is its section.
pub(crate) fn first_defect(
    alloc: Global,
    mesh: &Lists,
    cut: &Lists,
    triangle: &CuttingTriangle,
    faces: &[Face],
    env: &Envelope,
    t: u32,
    e: u32,
) -> Result<Option<Defect>, Memory>
    requires there { t < length env.now }
    requires e_in { e ≤ most_epsilon }
    requires triangle { triangle.now ≡ triangle_at env.now t }
    requires cut { IsCutFrom (mesh_of mesh.now) (triangle_at env.now t) cut.now }
    requires faces { triples_of faces.now ≡ section (mesh_of cut.now) (triangle_at env.now t) }
    ensures { IfOk result (IsJudged env.now t e (mesh_of mesh.now) (mesh_of cut.now)) }
{
    match first_inverted(cut.points.as_slice(), cut.tets.as_slice()) {
        Some(corners) => Ok(Some(Defect::Inverted(corners))),
        None => judge_positive(alloc, mesh, cut, triangle, faces, env, t, e),
    }
}

fn judge_positive(
    alloc: Global,
    mesh: &Lists,
    cut: &Lists,
    triangle: &CuttingTriangle,
    faces: &[Face],
    env: &Envelope,
    t: u32,
    e: u32,
) -> Result<Option<Defect>, Memory>
    requires there { t < length env.now }
    requires e_in { e ≤ most_epsilon }
    requires triangle { triangle.now ≡ triangle_at env.now t }
    requires cut { IsCutFrom (mesh_of mesh.now) (triangle_at env.now t) cut.now }
    requires faces { triples_of faces.now ≡ section (mesh_of cut.now) (triangle_at env.now t) }
    requires positive { All (IsPositive cut.now.points) (mesh_of cut.now).tets }
    ensures { IfOk result (IsJudged env.now t e (mesh_of mesh.now) (mesh_of cut.now)) }
{
    let found = first_unresolved(alloc, cut, triangle)?;
    match found {
        Some(corners) => Ok(Some(Defect::Unresolved(corners))),
        None => Ok(judge_resolved(mesh, cut, faces, env, t, e)),
    }
}

fn judge_resolved(
    mesh: &Lists,
    cut: &Lists,
    faces: &[Face],
    env: &Envelope,
    t: u32,
    e: u32,
) -> Option<Defect>
    requires there { t < length env.now }
    requires e_in { e ≤ most_epsilon }
    requires cut { IsCutFrom (mesh_of mesh.now) (triangle_at env.now t) cut.now }
    requires faces { triples_of faces.now ≡ section (mesh_of cut.now) (triangle_at env.now t) }
    requires positive { All (IsPositive cut.now.points) (mesh_of cut.now).tets }
    requires resolved { All (λ x. is_unresolved (mesh_of cut.now) (triangle_at env.now t) x ≡ false) (mesh_of cut.now).tets }
    ensures { IsJudged env.now t e (mesh_of mesh.now) (mesh_of cut.now) result }
{
    let tri = env.triangle(t);
    match first_stray(cut.points.as_slice(), faces, &tri, e) {
        Some(corners) => Some(Defect::Stray(corners)),
        None => judge_near(mesh, cut, env, t, e),
    }
}

fn judge_near(mesh: &Lists, cut: &Lists, env: &Envelope, t: u32, e: u32) -> Option<Defect>
    requires there { t < length env.now }
    requires e_in { e ≤ most_epsilon }
    requires cut { IsCutFrom (mesh_of mesh.now) (triangle_at env.now t) cut.now }
    requires positive { All (IsPositive cut.now.points) (mesh_of cut.now).tets }
    requires resolved { All (λ x. is_unresolved (mesh_of cut.now) (triangle_at env.now t) x ≡ false) (mesh_of cut.now).tets }
    requires near { All (λ f. All (λ u. Near (point_at cut.now.points u) 0 (triangle_at env.now t) e) f) (section (mesh_of cut.now) (triangle_at env.now t)) }
    ensures { IsJudged env.now t e (mesh_of mesh.now) (mesh_of cut.now) result }
{
    let points = cut.points.as_slice();
    let found = first_uncovered(
        points,
        cut.tracked.as_slice(),
        mesh.tracked.as_slice(),
        env,
        e,
    );
    match found {
        Some(corners) => Some(Defect::Uncovered(corners)),
        None => None,
    }
}
