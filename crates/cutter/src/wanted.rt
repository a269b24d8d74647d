// The edges that a phase wants.
ghost use Rattle.cutter.specs.Found.{AreTouching, touched_at};
ghost use Rattle.cutting_rule.specs.Edges.{numbers_of};
ghost use Rattle.grid.specs.Boxes.{IsInBox};
ghost use Rattle.grid.specs.Limits.{largest_side};
ghost use Rattle.grid.specs.Simplices.{IsTet};
ghost use Rattle.mesh_store.specs.Parts.{live_tets};
ghost use Rattle.mesh_types.specs.Phases.{points_of, wanted_in};
ghost use Rattle.tet_slots.specs.Slots.{slot_at};
ghost use Rattle.std.specs.List.{flat_map};
ghost use Rattle.std.specs.Prelude.{All, IfOk, OnOk, length, ◌++◌, ◌<◌, ◌≡◌};

use crate::touching::{Touched, Touching};
use cutting_rule::{CuttingTriangle, Edge, push_along, push_crossed};
use grid::{Memory, Point, Tet};
use std::alloc::Global;
use tet_slots::Slots;

/// The points of a tetrahedron, in the order of its corners.
pub fn corner_points(slots: &Slots, tet: Tet) -> [Point; 4]
    requires { IsTet (length slots.now.points) tet.0 }
    ensures { result ≡ points_of slots.now.points tet.0 }
{
    let Tet([a, b, c, d]) = tet;
    [
        slots.point(a),
        slots.point(b),
        slots.point(c),
        slots.point(d),
    ]
}

/// The edges of all live tetrahedra that a phase wants, in the order of the tetrahedra: those of the
/// tetrahedra that the triangle touches.
pub(crate) fn near_wanted(
    alloc: Global,
    triangle: &CuttingTriangle,
    i: u32,
    slots: &Slots,
    near: &Touching,
) -> Result<Vec<Edge>, Memory>
    requires index { i < 4 }
    requires in_box { All (IsInBox largest_side) slots.now.points }
    requires near { AreTouching slots.now.points slots.now.slots triangle.now near.now }
    ensures { IfOk result (λ v. numbers_of v.items ≡ flat_map (wanted_in slots.now.points triangle.now i) (live_tets slots.now.slots)) }
{
    let mut edges = Vec::new(alloc);
    for touched in &near.slots {
        push_wanted_at(triangle, i, slots, *touched, &mut edges)?;
    }
    Ok(edges)
}

/// Adds the edges of a touched tetrahedron that a phase wants.
fn push_wanted_at(
    triangle: &CuttingTriangle,
    i: u32,
    slots: &Slots,
    touched: Touched,
    into: &mut Vec<Edge>,
) -> Result<(), Memory>
    requires index { i < 4 }
    requires in_box { All (IsInBox largest_side) slots.now.points }
    requires there { touched.slot < length slots.now.slots }
    requires touched { touched ≡ touched_at slots.now.points slots.now.slots triangle.now touched.slot }
    ensures { OnOk result (numbers_of into.new.items ≡ numbers_of into.old.items ++ wanted_in slots.now.points triangle.now i (slot_at slots.now.slots touched.slot).tet.0) }
{
    if !touched.touch.phases[i as usize] {
        return Ok(());
    }
    let tet = slots.tet(touched.slot);
    let signs = touched.touch.signs;
    if i == 0 {
        push_crossed(tet, signs, into)?;
        return Ok(());
    }
    let corners = corner_points(slots, tet);
    push_along(triangle, i, tet, &corners, signs, into)?;
    Ok(())
}
