// The faces of a tetrahedron that are in a triangle's section.
ghost use Rattle.cutting_rule.specs.Packing.{IsPacked};
ghost use Rattle.cutting_rule.specs.Section.{section_in};
ghost use Rattle.cutting_rule.specs.Touching.{signs_at};
ghost use Rattle.grid.specs.Boxes.{IsInBox};
ghost use Rattle.grid.specs.Limits.{largest_side};
ghost use Rattle.grid.specs.Meshes.{is_below};
ghost use Rattle.grid.specs.Simplices.{rising};
ghost use Rattle.grid.specs.Views.{triples_of};
ghost use Rattle.grid.specs.declared.shapes.Point.{Point};
ghost use Rattle.grid.specs.declared.shapes.Tri.{Tri};
ghost use Rattle.mesh_types.specs.Phases.{points_of};
ghost use Rattle.mesh_types.specs.Tracking.{in_order_once};
ghost use Rattle.std.specs.Ordering.{is_lt};
ghost use Rattle.std.specs.Prelude.{All, List, OnOk, [], false, if◌then◌else◌, ℕ, ◌&&◌, ◌||◌, ◌++◌, ◌∷◌, ◌≡◌};

use crate::signs::is_on;
use crate::triangle::CuttingTriangle;
use grid::{Face, Memory, Point, Tet};
use std::cmp::Ordering;

fn push_if(there: bool, face: Face, into: &mut Vec<Face>) -> Result<(), Memory>
    ensures { OnOk result (triples_of into.new.items ≡ triples_of into.old.items ++ (if there then rising face.0 ∷ [] else [])) }
{
    if there {
        into.push(face.rising())?;
    }
    Ok(())
}

fn all_three(a: bool, b: bool, c: bool) -> bool
    ensures { result ≡ (a && b && c) }
{
    a && b && c
}

fn some_three(a: bool, b: bool, c: bool, d: bool) -> bool
    ensures { result ≡ ((a && c && b) || (a && b && d) || (a && d && c) || (b && c && d)) }
{
    a && c && b || a && b && d || a && d && c || b && c && d
}

/// Whether three corners of these signs are on the triangle's plane, as those of a section face are.
pub fn may_have_section(signs: [i8; 4]) -> bool
    ensures { result ≡ false → (points : List Point) (t : Tri) (x : List ℕ) → signs ≡ signs_at t (points_of points x) → section_in points t x ≡ [] }
{
    let a = is_on(signs[0]);
    let b = is_on(signs[1]);
    let c = is_on(signs[2]);
    let d = is_on(signs[3]);
    some_three(a, b, c, d)
}

/// Adds the faces of a tetrahedron that are in the triangle's section, as rising triples, where the
/// corners are its points, with these signs at the triangle's plane.
pub fn push_section(
    triangle: &CuttingTriangle,
    tet: Tet,
    corners: &[Point; 4],
    signs: [i8; 4],
    into: &mut Vec<Face>,
) -> Result<(), Memory>
    requires corners_in { All (IsInBox largest_side) corners.now }
    requires signs { signs ≡ signs_at triangle.now corners.now }
    ensures { OnOk result ((points : List Point) → corners.now ≡ points_of points tet.0 → triples_of into.new.items ≡ triples_of into.old.items ++ section_in points triangle.now tet.0) }
{
    let Tet([a, b, c, d]) = tet;
    let has_a = triangle.has_in_section(signs[0], corners[0]);
    let has_b = triangle.has_in_section(signs[1], corners[1]);
    let has_c = triangle.has_in_section(signs[2], corners[2]);
    let has_d = triangle.has_in_section(signs[3], corners[3]);
    push_if(all_three(has_a, has_c, has_b), Face([a, c, b]), into)?;
    push_if(all_three(has_a, has_b, has_d), Face([a, b, d]), into)?;
    push_if(all_three(has_a, has_d, has_c), Face([a, d, c]), into)?;
    push_if(all_three(has_b, has_c, has_d), Face([b, c, d]), into)?;
    Ok(())
}

// The three corners as one number, so that a sort compares once.
fn pack(face: Face) -> u128
    ensures { IsPacked 3 face.0 result }
{
    let Face([a, b, c]) = face;
    let last = u64::from(b) * 0x1_0000_0000 + u64::from(c);
    u128::from(a) * 0x1_0000_0000_0000_0000 + u128::from(last)
}

/// Sorts the faces, and keeps one of each.
pub fn sort_faces_once(faces: &mut Vec<Face>)
    ensures { triples_of faces.new.items ≡ in_order_once (triples_of faces.old.items) }
{
    faces.sort_unstable_by(
        |a: &Face, b: &Face| -> Ordering
            ensures { is_lt result ≡ is_below a.now.0 b.now.0 }
        { pack(*a).cmp(&pack(*b)) },
    );
    faces.dedup();
}
