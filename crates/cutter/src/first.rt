// The first tetrahedron with a wanted edge.
ghost use Rattle.cutter.specs.Found.{AreTouching};
ghost use Rattle.cutter.specs.First.{IsFirstSlot, IsFirstWanted, earlier, has_one_of, head, is_open};
ghost use Rattle.cutting_rule.specs.Edges.{numbers_of};
ghost use Rattle.grid.specs.Boxes.{IsTriInBox};
ghost use Rattle.grid.specs.Limits.{largest_side};
ghost use Rattle.grid.specs.Planes.{IsDegenerate};
ghost use Rattle.mesh_store.specs.Parts.{mesh_in};
ghost use Rattle.mesh_types.specs.Phases.{wanted};
ghost use Rattle.std.specs.Prelude.{IfOk, [], ◌<◌, ◌∷◌, ◌≡◌};

use crate::touching::{Touching, find_touching};
use crate::wanted::{corner_points, near_wanted};
use cutting_rule::{CuttingTriangle, Edge};
use grid::{Memory, Point, Tri};
use mesh_store::Store;
use std::alloc::Global;
use tet_slots::Slots;

/// The lower of two slots, where there are any.
fn earlier(a: Option<u32>, b: Option<u32>) -> Option<u32>
    ensures { result ≡ earlier a b }
{
    match (a, b) {
        (Some(j), Some(k)) => Some(if j < k { j } else { k }),
        (Some(j), None) => Some(j),
        (None, b) => b,
    }
}

fn head(numbers: &[u32]) -> Option<u32>
    ensures { result ≡ head numbers.now }
{
    if numbers.is_empty() {
        None
    } else {
        Some(numbers[0])
    }
}

/// The first live slot that has the edge from u to v.
fn first_having(slots: &Slots, u: u32, v: u32, room: &mut Vec<u32>) -> Result<Option<u32>, Memory>
    ensures { IfOk result (λ found. IsFirstSlot (has_one_of ((u ∷ v ∷ []) ∷ [])) slots.now.slots found) }
{
    slots.having2(u, v, room)?;
    Ok(head(room))
}

/// The first live slot that has one of the edges.
fn first_of_all(alloc: Global, slots: &Slots, edges: &[Edge]) -> Result<Option<u32>, Memory>
    ensures { IfOk result (λ found. IsFirstSlot (has_one_of (numbers_of edges.now)) slots.now.slots found) }
{
    let mut room = Vec::new(alloc);
    let mut first = None;
    for edge in edges {
        let having = first_having(slots, edge.0[0], edge.0[1], &mut room)?;
        first = earlier(first, having);
    }
    Ok(first)
}

/// The first live slot that has an edge which phase i wants.
fn first_of_phase(
    alloc: Global,
    store: &Store,
    triangle: &CuttingTriangle,
    i: u32,
    near: &Touching,
) -> Result<Option<u32>, Memory>
    requires index { i < 4 }
    requires near { AreTouching store.now.parts.points store.now.parts.slots triangle.now near.now }
    ensures { IfOk result (λ found. IsFirstSlot (has_one_of (wanted (mesh_in store.now.parts) triangle.now i)) store.now.parts.slots found) }
{
    let slots = store.slots();
    let edges = near_wanted(alloc, triangle, i, slots, near)?;
    let first = first_of_all(alloc, slots, &edges)?;
    Ok(first)
}

/// The first live slot that has an edge which some phase wants.
fn first_slot(
    alloc: Global,
    store: &Store,
    triangle: &CuttingTriangle,
    near: &Touching,
) -> Result<Option<u32>, Memory>
    requires near { AreTouching store.now.parts.points store.now.parts.slots triangle.now near.now }
    ensures { IfOk result (λ found. IsFirstSlot (is_open (mesh_in store.now.parts) triangle.now) store.now.parts.slots found) }
{
    let a = first_of_phase(alloc, store, triangle, 0, near)?;
    let b = first_of_phase(alloc, store, triangle, 1, near)?;
    let c = first_of_phase(alloc, store, triangle, 2, near)?;
    let d = first_of_phase(alloc, store, triangle, 3, near)?;
    let later = earlier(c, d);
    let after_first = earlier(b, later);
    Ok(earlier(a, after_first))
}

/// The corners, in their places, of the first tetrahedron that has an edge which some phase of the
/// insertion of a triangle wants. None exactly where no phase wants an edge.
pub fn first_wanted(alloc: Global, store: &Store, tri: &Tri) -> Result<Option<[Point; 4]>, Memory>
    requires tri_in { IsTriInBox largest_side tri.now }
    requires some_area { ¬ IsDegenerate tri.now }
    ensures { IfOk result (λ found. IsFirstWanted (mesh_in store.now.parts) tri.now found) }
{
    let triangle = CuttingTriangle::new(tri);
    let near = find_touching(alloc, &triangle, store.slots())?;
    let found = first_wanted_among(alloc, store, &triangle, &near)?;
    Ok(found)
}

/// The same, where the tetrahedra that the triangle touches are known.
pub fn first_wanted_among(
    alloc: Global,
    store: &Store,
    triangle: &CuttingTriangle,
    near: &Touching,
) -> Result<Option<[Point; 4]>, Memory>
    requires near { AreTouching store.now.parts.points store.now.parts.slots triangle.now near.now }
    ensures { IfOk result (λ found. IsFirstWanted (mesh_in store.now.parts) triangle.now found) }
{
    match first_slot(alloc, store, triangle, near)? {
        None => Ok(None),
        Some(slot) => {
            let slots = store.slots();
            Ok(Some(corner_points(slots, slots.tet(slot))))
        }
    }
}
