// The edges of a tetrahedron that a phase wants.
ghost use Rattle.cutting_rule.specs.Edges.{numbers_of};
ghost use Rattle.cutting_rule.specs.Touching.{signs_at};
ghost use Rattle.grid.specs.Boxes.{IsInBox};
ghost use Rattle.grid.specs.Limits.{largest_side};
ghost use Rattle.grid.specs.declared.shapes.Point.{Point};
ghost use Rattle.grid.specs.declared.shapes.Tri.{Tri};
ghost use Rattle.mesh_types.specs.CuttingRule.{is_crossed};
ghost use Rattle.mesh_types.specs.Phases.{points_of, wanted_in};
ghost use Rattle.std.specs.Prelude.{All, List, OnOk, true, ◌++◌, ◌<◌, ◌≡◌};

use crate::edge::{Edge, push_if};
use crate::signs::are_opposite;
use crate::triangle::CuttingTriangle;
use grid::{Memory, Point, Tet};

/// Adds the edges of a tetrahedron that phase i of the triangle wants, where the corners are its points.
pub fn push_wanted(
    triangle: &CuttingTriangle,
    i: u32,
    tet: Tet,
    corners: &[Point; 4],
    into: &mut Vec<Edge>,
) -> Result<(), Memory>
    requires index { i < 4 }
    requires corners_in { All (IsInBox largest_side) corners.now }
    ensures { OnOk result ((points : List Point) → corners.now ≡ points_of points tet.0 → numbers_of into.new.items ≡ numbers_of into.old.items ++ wanted_in points triangle.now i tet.0) }
{
    let signs = triangle.signs(corners);
    if i > 0 {
        push_along(triangle, i, tet, corners, signs, into)?;
        return Ok(());
    }
    if !triangle.crosses(corners) {
        return Ok(());
    }
    push_crossed(tet, signs, into)?;
    Ok(())
}

/// Adds the edges that phase 0 of a triangle wants of a tetrahedron that it crosses, by the signs of the
/// corners at its plane: those whose ends have opposite signs.
pub fn push_crossed(tet: Tet, signs: [i8; 4], into: &mut Vec<Edge>) -> Result<(), Memory>
    ensures { OnOk result ((points : List Point) (t : Tri) → signs ≡ signs_at t (points_of points tet.0) → is_crossed t (points_of points tet.0) ≡ true → numbers_of into.new.items ≡ numbers_of into.old.items ++ wanted_in points t 0 tet.0) }
{
    let Tet([a, b, c, d]) = tet;
    push_if(are_opposite(signs[0], signs[1]), a, b, into)?;
    push_if(are_opposite(signs[0], signs[2]), a, c, into)?;
    push_if(are_opposite(signs[0], signs[3]), a, d, into)?;
    push_if(are_opposite(signs[1], signs[2]), b, c, into)?;
    push_if(are_opposite(signs[1], signs[3]), b, d, into)?;
    push_if(are_opposite(signs[2], signs[3]), c, d, into)?;
    Ok(())
}

/// Adds the edges of a tetrahedron that a phase after the first wants, by the signs of the corners at the
/// triangle's plane: only edges with both ends on it are looked at further.
pub fn push_along(
    triangle: &CuttingTriangle,
    i: u32,
    tet: Tet,
    corners: &[Point; 4],
    signs: [i8; 4],
    into: &mut Vec<Edge>,
) -> Result<(), Memory>
    requires first { 0 < i }
    requires last { i < 4 }
    requires corners_in { All (IsInBox largest_side) corners.now }
    requires signs { signs ≡ signs_at triangle.now corners.now }
    ensures { OnOk result ((points : List Point) → corners.now ≡ points_of points tet.0 → numbers_of into.new.items ≡ numbers_of into.old.items ++ wanted_in points triangle.now i tet.0) }
{
    let Tet([a, b, c, d]) = tet;
    let [p, q, r, s] = *corners;
    let ab = triangle.wants_along(i, signs[0], p, signs[1], q);
    let ac = triangle.wants_along(i, signs[0], p, signs[2], r);
    let ad = triangle.wants_along(i, signs[0], p, signs[3], s);
    let bc = triangle.wants_along(i, signs[1], q, signs[2], r);
    let bd = triangle.wants_along(i, signs[1], q, signs[3], s);
    let cd = triangle.wants_along(i, signs[2], r, signs[3], s);
    push_if(ab, a, b, into)?;
    push_if(ac, a, c, into)?;
    push_if(ad, a, d, into)?;
    push_if(bc, b, c, into)?;
    push_if(bd, b, d, into)?;
    push_if(cd, c, d, into)?;
    Ok(())
}
