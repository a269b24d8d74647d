// The phases of an insertion.
ghost use Rattle.cutter.specs.Found.{AreTouching};
ghost use Rattle.cutting_rule.specs.Edges.{IsSplitEdge, numbers_of};
ghost use Rattle.grid.specs.Boxes.{IsInBox, IsTriInBox};
ghost use Rattle.grid.specs.Determinants.{point_at};
ghost use Rattle.grid.specs.Limits.{largest_side};
ghost use Rattle.grid.specs.Meshes.{IsWithinLimits};
ghost use Rattle.grid.specs.Planes.{IsDegenerate};
ghost use Rattle.mesh_store.specs.Changes.{IsGrown, IsSameTransaction};
ghost use Rattle.mesh_store.specs.Parts.{mesh_in, rolled_back};
ghost use Rattle.mesh_store.specs.Sound.{IsSoundStore};
ghost use Rattle.mesh_types.specs.CutLists.{AreCuts};
ghost use Rattle.mesh_types.specs.CuttingRule.{splits};
ghost use Rattle.mesh_types.specs.Phases.{cut_at, phase, wanted_cuts};
ghost use Rattle.mesh_types.specs.Refines.{refine};
ghost use Rattle.std.specs.Prelude.{All, Err, IfOk, IsSome, OnErr, OnOk, [], length, map, nat_abs, true, ◌+◌, ◌<◌, ◌∷◌, ◌≡◌};

use crate::touching::{Touching, find_touching, touching_after};
use crate::wanted::near_wanted;
use cutting_rule::{CuttingTriangle, Edge, cut_between, sort_edges_once};
use grid::{Memory, Tri};
use mesh_store::{Store, StoreIssue};
use mesh_types::Cut;
use planes::Plane;
use std::alloc::Global;
use tet_slots::Slots;

/// The cut of the edge from u to v where it crosses a plane.
fn cut_of(plane: &Plane, slots: &Slots, u: u32, v: u32) -> Cut
    requires u_in { u < length slots.now.points }
    requires v_in { v < length slots.now.points }
    requires in_box { All (IsInBox largest_side) slots.now.points }
    requires apart { splits plane.now (point_at slots.now.points u ∷ point_at slots.now.points v ∷ []) ≡ true }
    ensures { result ≡ cut_at slots.now.points plane.now (u ∷ v ∷ []) }
{
    cut_between(plane, u, slots.point(u), v, slots.point(v))
}

fn cuts_of(alloc: Global, plane: &Plane, slots: &Slots, edges: &[Edge]) -> Result<Vec<Cut>, Memory>
    requires in_box { All (IsInBox largest_side) slots.now.points }
    requires apart { All (λ e. IsSplitEdge slots.now.points plane.now e.0) edges.now }
    ensures { IfOk result (λ v. v.items ≡ map (cut_at slots.now.points plane.now) (numbers_of edges.now)) }
{
    let mut cuts = Vec::new(alloc);
    for edge in edges {
        cuts.push(cut_of(plane, slots, edge.0[0], edge.0[1]))?;
    }
    Ok(cuts)
}

/// The cuts of the edges that a phase wants, in rising order, where the tetrahedra that the triangle
/// touches are known.
pub fn wanted_cuts(
    alloc: Global,
    store: &Store,
    triangle: &CuttingTriangle,
    i: u32,
    near: &Touching,
) -> Result<Vec<Cut>, Memory>
    requires index { i < 4 }
    requires near { AreTouching store.now.parts.points store.now.parts.slots triangle.now near.now }
    ensures cuts { IfOk result (λ v. v.items ≡ wanted_cuts (mesh_in store.now.parts) triangle.now i) }
    ensures are_cuts { IfOk result (λ v. AreCuts (length store.now.parts.points) v.items) }
    ensures in_box { IfOk result (λ v. All (λ e. IsInBox (nat_abs store.now.side) e.at) v.items) }
    ensures sound { IsSoundStore store.now.side store.now.parts }
{
    let slots = store.slots();
    let mut edges = near_wanted(alloc, triangle, i, slots, near)?;
    sort_edges_once(&mut edges);
    cuts_of(alloc, triangle.phase_plane(i), slots, &edges)
}

/// Gives back the mesh at begin after want of memory.
fn back_without_memory(store: &mut Store) -> StoreIssue
    requires { IsSome store.old.at_begin }
    ensures issue { result ≡ StoreIssue.Memory }
    ensures back { store.new ≡ rolled_back store.old }
{
    store.rollback();
    StoreIssue::Memory
}

/// Cuts these edges, and answers how many there are.
fn cut_edges(store: &mut Store, cuts: &[Cut]) -> Result<u32, StoreIssue>
    requires open { IsSome store.old.at_begin }
    requires cuts { AreCuts (length store.old.parts.points) cuts.now }
    requires in_box { All (λ e. IsInBox (nat_abs store.old.side) e.at) cuts.now }
    ensures mesh { OnOk result (mesh_in store.new.parts ≡ refine (mesh_in store.old.parts) cuts.now) }
    ensures count { IfOk result (λ k. length store.old.parts.points + k ≡ length store.new.parts.points) }
    ensures grown { OnOk result (IsGrown store.old.parts store.new.parts) }
    ensures goes_on { OnOk result (IsSameTransaction store.old store.new) }
    ensures within { OnOk result (IsWithinLimits (mesh_in store.new.parts)) }
    ensures full { result ≡ Err StoreIssue.Full → ¬ IsWithinLimits (refine (mesh_in store.old.parts) cuts.now) }
    ensures err { OnErr result (store.new ≡ rolled_back store.old) }
{
    store.refine(cuts)?;
    Ok(cuts.len() as u32)
}

/// Cuts the edges that a phase wants, and answers how many there were.
fn cut_wanted(
    alloc: Global,
    store: &mut Store,
    triangle: &CuttingTriangle,
    i: u32,
    near: &Touching,
) -> Result<u32, StoreIssue>
    requires open { IsSome store.old.at_begin }
    requires index { i < 4 }
    requires near { AreTouching store.old.parts.points store.old.parts.slots triangle.now near.now }
    ensures mesh { OnOk result (mesh_in store.new.parts ≡ phase (mesh_in store.old.parts) triangle.now i) }
    ensures count { IfOk result (λ k. length store.old.parts.points + k ≡ length store.new.parts.points) }
    ensures grown { OnOk result (IsGrown store.old.parts store.new.parts) }
    ensures goes_on { OnOk result (IsSameTransaction store.old store.new) }
    ensures within { OnOk result (IsWithinLimits (mesh_in store.new.parts)) }
    ensures full { result ≡ Err StoreIssue.Full → ¬ IsWithinLimits (phase (mesh_in store.old.parts) triangle.now i) }
    ensures err { OnErr result (store.new ≡ rolled_back store.old) }
{
    match wanted_cuts(alloc, store, triangle, i, near) {
        Ok(cuts) => cut_edges(store, &cuts),
        Err(Memory) => Err(back_without_memory(store)),
    }
}

/// Cuts the edges that phase i of the insertion of a triangle wants, in rising order, and answers how
/// many there were, which is the number of new points. Phase 0 cuts crossed tetrahedra in the
/// triangle's plane; phase i, from 1 to 3, cuts what lies on that plane along side i - 1. Refused where
/// a limit would be passed, and then the mesh is the one at begin and the store is closed, as after
/// want of memory.
pub fn phase(alloc: Global, store: &mut Store, tri: &Tri, i: u32) -> Result<u32, StoreIssue>
    requires open { IsSome store.old.at_begin }
    requires tri_in { IsTriInBox largest_side tri.now }
    requires some_area { ¬ IsDegenerate tri.now }
    requires index { i < 4 }
    ensures mesh { OnOk result (mesh_in store.new.parts ≡ phase (mesh_in store.old.parts) tri.now i) }
    ensures count { IfOk result (λ k. length store.old.parts.points + k ≡ length store.new.parts.points) }
    ensures grown { OnOk result (IsGrown store.old.parts store.new.parts) }
    ensures goes_on { OnOk result (IsSameTransaction store.old store.new) }
    ensures within { OnOk result (IsWithinLimits (mesh_in store.new.parts)) }
    ensures full { result ≡ Err StoreIssue.Full → ¬ IsWithinLimits (phase (mesh_in store.old.parts) tri.now i) }
    ensures err { OnErr result (store.new ≡ rolled_back store.old) }
{
    let triangle = CuttingTriangle::new(tri);
    match find_touching(alloc, &triangle, store.slots()) {
        Ok(near) => cut_wanted(alloc, store, &triangle, i, &near),
        Err(Memory) => Err(back_without_memory(store)),
    }
}

/// The same, where the tetrahedra that the triangle touches are known; then they are known of the new
/// mesh too.
pub fn phase_among(
    alloc: Global,
    store: &mut Store,
    triangle: &CuttingTriangle,
    i: u32,
    near: &mut Touching,
) -> Result<u32, StoreIssue>
    requires open { IsSome store.old.at_begin }
    requires index { i < 4 }
    requires near { AreTouching store.old.parts.points store.old.parts.slots triangle.now near.old }
    ensures mesh { OnOk result (mesh_in store.new.parts ≡ phase (mesh_in store.old.parts) triangle.now i) }
    ensures count { IfOk result (λ k. length store.old.parts.points + k ≡ length store.new.parts.points) }
    ensures grown { OnOk result (IsGrown store.old.parts store.new.parts) }
    ensures goes_on { OnOk result (IsSameTransaction store.old store.new) }
    ensures within { OnOk result (IsWithinLimits (mesh_in store.new.parts)) }
    ensures near { OnOk result (AreTouching store.new.parts.points store.new.parts.slots triangle.now near.new) }
    ensures full { result ≡ Err StoreIssue.Full → ¬ IsWithinLimits (phase (mesh_in store.old.parts) triangle.now i) }
    ensures err { OnErr result (store.new ≡ rolled_back store.old) }
{
    match wanted_cuts(alloc, store, triangle, i, near) {
        Ok(cuts) => refine_among(alloc, store, triangle, &cuts, near),
        Err(Memory) => Err(back_without_memory(store)),
    }
}

/// Cuts these edges, and answers how many there are, where the tetrahedra that the triangle touches are
/// known; then they are known of the new mesh too. Refused where a limit would be passed, and then the
/// mesh is the one at begin and the store is closed, as after want of memory.
pub fn refine_among(
    alloc: Global,
    store: &mut Store,
    triangle: &CuttingTriangle,
    cuts: &[Cut],
    near: &mut Touching,
) -> Result<u32, StoreIssue>
    requires open { IsSome store.old.at_begin }
    requires cuts { AreCuts (length store.old.parts.points) cuts.now }
    requires in_box { All (λ e. IsInBox (nat_abs store.old.side) e.at) cuts.now }
    requires near { AreTouching store.old.parts.points store.old.parts.slots triangle.now near.old }
    ensures mesh { OnOk result (mesh_in store.new.parts ≡ refine (mesh_in store.old.parts) cuts.now) }
    ensures count { IfOk result (λ k. length store.old.parts.points + k ≡ length store.new.parts.points) }
    ensures grown { OnOk result (IsGrown store.old.parts store.new.parts) }
    ensures goes_on { OnOk result (IsSameTransaction store.old store.new) }
    ensures within { OnOk result (IsWithinLimits (mesh_in store.new.parts)) }
    ensures near { OnOk result (AreTouching store.new.parts.points store.new.parts.slots triangle.now near.new) }
    ensures full { result ≡ Err StoreIssue.Full → ¬ IsWithinLimits (refine (mesh_in store.old.parts) cuts.now) }
    ensures err { OnErr result (store.new ≡ rolled_back store.old) }
{
    let first = store.slots().made();
    let count = cut_edges(store, cuts)?;
    match touching_after(
        alloc,
        triangle,
        near.reach,
        &near.slots,
        store.slots(),
        first,
    ) {
        Ok(slots) => {
            near.slots = slots;
            Ok(count)
        }
        Err(Memory) => Err(back_without_memory(store)),
    }
}
