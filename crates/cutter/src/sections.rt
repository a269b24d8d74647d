// The faces of a triangle's section.
ghost use Rattle.cutter.specs.Found.{AreTouching, touched_at};
ghost use Rattle.cutting_rule.specs.Section.{section_in};
ghost use Rattle.grid.specs.Boxes.{IsInBox, IsTriInBox};
ghost use Rattle.grid.specs.Limits.{largest_side};
ghost use Rattle.grid.specs.Planes.{IsDegenerate};
ghost use Rattle.grid.specs.Views.{triples_of};
ghost use Rattle.mesh_store.specs.Parts.{live_tets, mesh_in};
ghost use Rattle.mesh_types.specs.Phases.{section};
ghost use Rattle.std.specs.List.{flat_map};
ghost use Rattle.std.specs.Prelude.{All, IfOk, OnOk, length, ◌++◌, ◌<◌, ◌≡◌};
ghost use Rattle.tet_slots.specs.Slots.{slot_at};

use crate::touching::{Touched, Touching, find_touching};
use crate::wanted::corner_points;
use cutting_rule::{CuttingTriangle, may_have_section, push_section, sort_faces_once};
use grid::{Face, Memory, Tri};
use mesh_store::Store;
use std::alloc::Global;
use tet_slots::Slots;

/// The section faces of all live tetrahedra, as rising triples: those of the tetrahedra that the triangle
/// touches.
fn section_faces(
    alloc: Global,
    triangle: &CuttingTriangle,
    slots: &Slots,
    near: &Touching,
) -> Result<Vec<Face>, Memory>
    requires in_box { All (IsInBox largest_side) slots.now.points }
    requires near { AreTouching slots.now.points slots.now.slots triangle.now near.now }
    ensures { IfOk result (λ v. triples_of v.items ≡ flat_map (section_in slots.now.points triangle.now) (live_tets slots.now.slots)) }
{
    let mut faces = Vec::new(alloc);
    for touched in &near.slots {
        push_section_at(triangle, slots, *touched, &mut faces)?;
    }
    Ok(faces)
}

/// Adds the section faces of a touched tetrahedron.
fn push_section_at(
    triangle: &CuttingTriangle,
    slots: &Slots,
    touched: Touched,
    into: &mut Vec<Face>,
) -> Result<(), Memory>
    requires in_box { All (IsInBox largest_side) slots.now.points }
    requires there { touched.slot < length slots.now.slots }
    requires touched { touched ≡ touched_at slots.now.points slots.now.slots triangle.now touched.slot }
    ensures { OnOk result (triples_of into.new.items ≡ triples_of into.old.items ++ section_in slots.now.points triangle.now (slot_at slots.now.slots touched.slot).tet.0) }
{
    let signs = touched.touch.signs;
    if !may_have_section(signs) {
        return Ok(());
    }
    let tet = slots.tet(touched.slot);
    let corners = corner_points(slots, tet);
    push_section(triangle, tet, &corners, signs, into)?;
    Ok(())
}

/// The faces whose corners are all on the triangle's plane and beyond none of its sides, as rising
/// triples in rising order.
pub fn section(alloc: Global, store: &Store, tri: &Tri) -> Result<Vec<Face>, Memory>
    requires tri_in { IsTriInBox largest_side tri.now }
    requires some_area { ¬ IsDegenerate tri.now }
    ensures { IfOk result (λ v. triples_of v.items ≡ section (mesh_in store.now.parts) tri.now) }
{
    let triangle = CuttingTriangle::new(tri);
    let near = find_touching(alloc, &triangle, store.slots())?;
    let faces = section_among(alloc, store, &triangle, &near)?;
    Ok(faces)
}

/// The same, where the tetrahedra that the triangle touches are known.
pub fn section_among(
    alloc: Global,
    store: &Store,
    triangle: &CuttingTriangle,
    near: &Touching,
) -> Result<Vec<Face>, Memory>
    requires near { AreTouching store.now.parts.points store.now.parts.slots triangle.now near.now }
    ensures { IfOk result (λ v. triples_of v.items ≡ section (mesh_in store.now.parts) triangle.now) }
{
    let mut faces = section_faces(alloc, triangle, store.slots(), near)?;
    sort_faces_once(&mut faces);
    Ok(faces)
}
