// Tetrahedra that the first phase will make, that are not positive, and that no later phase cuts.
ghost use Rattle.cutter.specs.Found.{AreTouching};
ghost use Rattle.cutting_rule.specs.Touching.{signs_at};
ghost use Rattle.grid.specs.Boxes.{IsInBox};
ghost use Rattle.grid.specs.Determinants.{IsPositive, point_at};
ghost use Rattle.grid.specs.Limits.{largest_side, most_made, most_points};
ghost use Rattle.grid.specs.Simplices.{IsTet};
ghost use Rattle.grid.specs.Views.{corners_of};
ghost use Rattle.insertion.specs.Lasting.{EndsInverted, IsLastingFault, Lasts, points_with};
ghost use Rattle.mesh_store.specs.Parts.{live_tets, mesh_in};
ghost use Rattle.mesh_types.specs.Insertion.{NamesFirst};
ghost use Rattle.mesh_types.specs.Phases.{points_of, wanted_cuts};
ghost use Rattle.std.specs.List.{list_all};
ghost use Rattle.std.specs.Ordering.{int_eq};
ghost use Rattle.std.specs.Prelude.{All, IfOk, IfSome, List, Ok, false, length, pos, true, ◌*◌, ◌+◌, ◌<◌, ◌≡◌, ◌≤◌};

use crate::first::is_positive_at;
use cutter::{Touched, Touching};
use cutting_rule::{CuttingTriangle, Edge, push_along};
use grid::{MOST_MADE, MOST_POINTS, Memory, Point, Tet};
use mesh_store::Store;
use mesh_types::Cut;
use std::alloc::Global;
use tet_slots::Slots;

// Where the triangle touches a tetrahedron that has a corner off its plane, a phase after the first makes
// at most 4 pieces and 6 points of it: 4 + 16 + 64 pieces and 6 + 24 + 96 points in three.
const MORE_TETS: u64 = 84;

const MORE_POINTS: u64 = 126;

/// The point of a corner after the cuts, whose points are numbered after those that are there.
fn point_after(slots: &Slots, cuts: &[Cut], corner: u32) -> Point
    requires { corner < length slots.now.points + length cuts.now }
    ensures { result ≡ point_at (points_with slots.now.points cuts.now) corner }
{
    let points = slots.points();
    if corner < points {
        slots.point(corner)
    } else {
        cuts[(corner - points) as usize].at
    }
}

/// The points of a tetrahedron after the cuts, in the order of its corners.
fn points_after(slots: &Slots, cuts: &[Cut], tet: Tet) -> [Point; 4]
    requires { IsTet (length slots.now.points + length cuts.now) tet.0 }
    ensures { result ≡ points_of (points_with slots.now.points cuts.now) tet.0 }
{
    let Tet([a, b, c, d]) = tet;
    [
        point_after(slots, cuts, a),
        point_after(slots, cuts, b),
        point_after(slots, cuts, c),
        point_after(slots, cuts, d),
    ]
}

/// Whether no phase after the first wants an edge of the tetrahedron, which has these corners. `room` is
/// room to work in.
fn lasts(
    triangle: &CuttingTriangle,
    tet: Tet,
    corners: &[Point; 4],
    room: &mut Vec<Edge>,
) -> Result<bool, Memory>
    requires in_box { All (IsInBox largest_side) corners.now }
    ensures yes { (points : List Point) → corners.now ≡ points_of points tet.0 → result ≡ Ok true → Lasts points triangle.now tet.0 }
    ensures no { (points : List Point) → corners.now ≡ points_of points tet.0 → result ≡ Ok false → ¬ Lasts points triangle.now tet.0 }
{
    room.clear();
    let signs = triangle.signs(corners);
    for i in 1..4 {
        push_along(triangle, i, tet, corners, signs, room)?;
        if !room.is_empty() {
            return Ok(false);
        }
    }
    Ok(true)
}

/// Whether the tetrahedron, which has these corners, is not positive and lasts.
fn is_lasting_fault(
    triangle: &CuttingTriangle,
    tet: Tet,
    corners: &[Point; 4],
    room: &mut Vec<Edge>,
) -> Result<bool, Memory>
    requires in_box { All (IsInBox largest_side) corners.now }
    ensures yes { (points : List Point) → corners.now ≡ points_of points tet.0 → result ≡ Ok true → IsLastingFault points triangle.now tet.0 }
    ensures no { (points : List Point) → corners.now ≡ points_of points tet.0 → result ≡ Ok false → ¬ IsLastingFault points triangle.now tet.0 }
{
    if is_positive_at(corners) {
        return Ok(false);
    }
    lasts(triangle, tet, corners, room)
}

/// The corners of the first of the pieces that is not positive and lasts.
fn first_lasting(
    alloc: Global,
    slots: &Slots,
    triangle: &CuttingTriangle,
    cuts: &[Cut],
    pieces: &[Tet],
) -> Result<Option<[Point; 4]>, Memory>
    requires in_box { All (IsInBox largest_side) (points_with slots.now.points cuts.now) }
    requires tets { All (λ t. IsTet (length slots.now.points + length cuts.now) t.0) pieces.now }
    ensures { IfOk result (λ found. IfSome found (NamesFirst (points_with slots.now.points cuts.now) (IsLastingFault (points_with slots.now.points cuts.now) triangle.now) (corners_of pieces.now))) }
{
    let mut room = Vec::new(alloc);
    for tet in pieces {
        let corners = points_after(slots, cuts, *tet);
        let is_fault = is_lasting_fault(triangle, *tet, &corners, &mut room)?;
        if is_fault {
            return Ok(Some(corners));
        }
    }
    Ok(None)
}

/// Whether each of the touched tetrahedra has a corner off the triangle's plane.
fn have_corners_off(near: &[Touched]) -> bool
    ensures { result ≡ true → All (λ e. list_all (λ s. int_eq s (pos 0)) e.touch.signs ≡ false) near.now }
{
    for touched in near {
        if are_all_on(touched.touch.signs) {
            return false;
        }
    }
    true
}

/// Whether each of the pieces has a corner off the triangle's plane.
fn pieces_have_corners_off(
    slots: &Slots,
    triangle: &CuttingTriangle,
    cuts: &[Cut],
    pieces: &[Tet],
) -> bool
    requires in_box { All (IsInBox largest_side) (points_with slots.now.points cuts.now) }
    requires tets { All (λ t. IsTet (length slots.now.points + length cuts.now) t.0) pieces.now }
    ensures { result ≡ true → All (λ t. list_all (λ s. int_eq s (pos 0)) (signs_at triangle.now (points_of (points_with slots.now.points cuts.now) t.0)) ≡ false) pieces.now }
{
    for tet in pieces {
        let corners = points_after(slots, cuts, *tet);
        if are_all_on(triangle.signs(&corners)) {
            return false;
        }
    }
    true
}

/// Whether all corners of these signs lie on the plane.
fn are_all_on(signs: [i8; 4]) -> bool
    ensures { result ≡ list_all (λ s. int_eq s (pos 0)) signs }
{
    signs[0] == 0 && signs[1] == 0 && signs[2] == 0 && signs[3] == 0
}

/// Whether there is room for the points of so many cuts and for so many pieces, and for what three phases
/// may make of these pieces and of so many tetrahedra near the triangle.
fn has_room(slots: &Slots, near: usize, cuts: usize, pieces: usize) -> bool
    ensures made { result ≡ true → length slots.now.slots + pieces + 84 * (near + pieces) ≤ most_made }
    ensures points { result ≡ true → length slots.now.points + cuts + 126 * (near + pieces) ≤ most_points }
{
    let (Ok(near), Ok(cuts), Ok(pieces)) = (
        u32::try_from(near),
        u32::try_from(cuts),
        u32::try_from(pieces),
    ) else {
        return false;
    };
    let touched = u64::from(near) + u64::from(pieces);
    u64::from(slots.made()) + u64::from(pieces) + MORE_TETS * touched <= u64::from(MOST_MADE)
        && u64::from(slots.points()) + u64::from(cuts) + MORE_POINTS * touched
            <= u64::from(MOST_POINTS)
}

/// The corners of the first tetrahedron that will not be positive after all four phases, where that can be
/// told by the pieces of the first phase, before they are made.
pub(crate) fn foresee_inverted(
    alloc: Global,
    store: &Store,
    triangle: &CuttingTriangle,
    near: &Touching,
    cuts: &[Cut],
) -> Option<[Point; 4]>
    requires near { AreTouching store.now.parts.points store.now.parts.slots triangle.now near.now }
    requires cuts { cuts.now ≡ wanted_cuts (mesh_in store.now.parts) triangle.now 0 }
    requires positive { All (IsPositive store.now.parts.points) (live_tets store.now.parts.slots) }
    ensures { IfSome result (EndsInverted (mesh_in store.now.parts) triangle.now) }
{
    let slots = store.slots();
    // Pieces can be numbered only where there is room for the points of the cuts.
    if !has_room(slots, near.slots.len(), cuts.len(), 0) {
        return None;
    }
    let Ok(pieces) = store.pieces(cuts) else {
        return None;
    };
    let Ok(Some(corners)) = first_lasting(alloc, slots, triangle, cuts, &pieces) else {
        return None;
    };
    if !has_room(slots, near.slots.len(), cuts.len(), pieces.len())
        || !have_corners_off(&near.slots)
        || !pieces_have_corners_off(slots, triangle, cuts, &pieces)
    {
        return None;
    }
    Some(corners)
}
