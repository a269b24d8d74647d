// The end of an insertion, after the first phase.
ghost use Rattle.cutter.specs.Found.{AreTouching};
ghost use Rattle.grid.specs.Envelopes.{triangle_at};
ghost use Rattle.grid.specs.Limits.{most_epsilon};
ghost use Rattle.grid.specs.Meshes.{Tiles};
ghost use Rattle.insertion.specs.Bare.{IsCovered};
ghost use Rattle.insertion.specs.Progress.{IsCutBy, IsCutUntil, closed, start_of};
ghost use Rattle.mesh_store.specs.Parts.{mesh_in};
ghost use Rattle.mesh_types.specs.Insertion.{IsInsertion};
ghost use Rattle.std.specs.Prelude.{All, IfOk, None, OnErr, OnOk, length, ℕ, ◌+◌, ◌<◌, ◌≡◌, ◌≤◌};

use crate::cutting::{Cuts, cut_among};
use crate::judging::{Counts, Judged, Touched, judge};
use cutting_rule::CuttingTriangle;
use envelope_tree::Envelope;
use grid::Memory;
use mesh_store::{Store, StoreIssue};
use mesh_types::{Defect, Outcome};
use std::alloc::Global;

/// Keeps a cut mesh with the faces of the section tracked, or gives back the mesh before the cuts.
fn settle(
    alloc: Global,
    store: &mut Store,
    env: &Envelope,
    t: u32,
    e: u32,
    before: Counts,
    triangle: &CuttingTriangle,
    cuts: Cuts,
) -> Result<Outcome, Memory>
    requires there { t < length env.now }
    requires e_in { e ≤ most_epsilon }
    requires cut { IsCutBy (triangle_at env.now t) store.old }
    requires points { before.points ≡ length (start_of store.old).points }
    requires made { before.made ≡ length (start_of store.old).slots }
    requires is { triangle.now ≡ triangle_at env.now t }
    requires counted { length (start_of store.old).points + cuts.points ≡ length store.old.parts.points }
    requires touched { AreTouching store.old.parts.points store.old.parts.slots triangle.now cuts.near }
    ensures closed { store.new.at_begin ≡ None }
    ensures side { store.new.side ≡ store.old.side }
    ensures outcome { IfOk result (λ o. IsInsertion env.now t e (mesh_in (start_of store.old)) o (mesh_in store.new.parts)) }
    ensures memory { OnErr result (store.new ≡ closed (start_of store.old) store.old.side) }
    ensures tiles { (l : ℕ) → Tiles (mesh_in (start_of store.old)) l → OnOk result (Tiles (mesh_in store.new.parts) l) }
    ensures covered { All (IsCovered env.now e (start_of store.old).points) (mesh_in (start_of store.old)).tracked → OnOk result (All (IsCovered env.now e store.new.parts.points) (mesh_in store.new.parts).tracked) }
{
    let touched = Touched {
        triangle,
        near: &cuts.near,
    };
    match judge(alloc, store, env, t, e, before, touched) {
        Ok(Judged::Sound(faces)) => {
            store.track(&faces)?;
            store.commit();
            Ok(Outcome::Inserted {
                points: cuts.points,
            })
        }
        Ok(Judged::Faulty(defect)) => {
            store.rollback();
            Ok(Outcome::RolledBack(defect))
        }
        Err(Memory) => {
            store.rollback();
            Err(Memory)
        }
    }
}

/// Goes on after the first phase with the other phases, and settles what they leave.
pub(crate) fn go_on(
    alloc: Global,
    store: &mut Store,
    env: &Envelope,
    t: u32,
    e: u32,
    before: Counts,
    triangle: &CuttingTriangle,
    cuts: Cuts,
) -> Result<Outcome, Memory>
    requires there { t < length env.now }
    requires e_in { e ≤ most_epsilon }
    requires cut { IsCutUntil (triangle_at env.now t) 1 store.old }
    requires points { before.points ≡ length (start_of store.old).points }
    requires made { before.made ≡ length (start_of store.old).slots }
    requires is { triangle.now ≡ triangle_at env.now t }
    requires counted { length (start_of store.old).points + cuts.points ≡ length store.old.parts.points }
    requires touched { AreTouching store.old.parts.points store.old.parts.slots triangle.now cuts.near }
    ensures closed { store.new.at_begin ≡ None }
    ensures side { store.new.side ≡ store.old.side }
    ensures outcome { IfOk result (λ o. IsInsertion env.now t e (mesh_in (start_of store.old)) o (mesh_in store.new.parts)) }
    ensures memory { OnErr result (store.new ≡ closed (start_of store.old) store.old.side) }
    ensures tiles { (l : ℕ) → Tiles (mesh_in (start_of store.old)) l → OnOk result (Tiles (mesh_in store.new.parts) l) }
    ensures covered { All (IsCovered env.now e (start_of store.old).points) (mesh_in (start_of store.old)).tracked → OnOk result (All (IsCovered env.now e store.new.parts.points) (mesh_in store.new.parts).tracked) }
{
    match cut_among(alloc, store, triangle, cuts, 1, 4) {
        Ok(cuts) => settle(alloc, store, env, t, e, before, triangle, cuts),
        Err(StoreIssue::Full) => Ok(Outcome::RolledBack(Defect::Full)),
        Err(StoreIssue::Memory) => Err(Memory),
    }
}
