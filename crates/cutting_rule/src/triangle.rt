// A triangle that cuts, with its planes.
ghost use Rattle.cutting_rule.specs.Bounds.{AreBounds};
ghost use Rattle.cutting_rule.specs.Touching.{IsReach, signs_at, touch, wants_along};
ghost use Rattle.grid.specs.Boxes.{IsInBox, IsTriInBox};
ghost use Rattle.grid.specs.Limits.{largest_side};
ghost use Rattle.grid.specs.Planes.{IsDegenerate, side_plane, snap_sign};
ghost use Rattle.grid.specs.Planes;
ghost use Rattle.grid.specs.declared.shapes.Point.{Point};
ghost use Rattle.mesh_types.specs.CuttingRule.{boxes_meet, is_crossed, is_in_section, is_wanted, lies_above, lies_below, phase_plane, reaches, section_plane, splits, three_sides};
ghost use Rattle.std.specs.List.{list_all, list_any};
ghost use Rattle.std.specs.Ordering.{int_eq};
ghost use Rattle.std.specs.Prelude.{All, List, [], map, not, pos, ◌&&◌, ◌<◌, ◌∷◌, ◌≡◌};

use crate::bounds::{Bounds, bounds_of};
use crate::signs::{
    Snapped, all_above, are_on, corner_signs, is_crossed, is_on, may_want_along, signs_of,
    snap_corners,
};
use crate::spread::{length_above, longest, spread_box};
use crate::touch::Touch;
use grid::{Point, Tri};
use planes::{Plane, plane_of, side_plane};
use std::marker::Model;

/// A triangle that is not degenerate, with its planes and its bounding box. Contracts see the triangle.
#[derive(Drop)]
pub struct CuttingTriangle {
    tri: Tri,
    plane: Plane,
    side_0: Plane,
    side_1: Plane,
    side_2: Plane,
    bounds: Bounds,
}

impl Model for CuttingTriangle {
    ghost use Rattle.grid.specs.declared.shapes.Tri.{Tri};
    ghost use Rattle.cutting_rule.specs.Triangle.{AreOf};

    ghost Value = { Tri };

    ghost view = { λ c. c.tri };

    ghost invariant = { λ c. AreOf c.tri c.plane c.side_0 c.side_1 c.side_2 c.bounds.lo c.bounds.hi };
}

impl CuttingTriangle {
    /// The triangle, its corners in the grid.
    pub fn new(tri: &Tri) -> CuttingTriangle
        requires tri_in { IsTriInBox largest_side tri.now }
        requires some_area { ¬ IsDegenerate tri.now }
        ensures { result ≡ tri.now }
    {
        CuttingTriangle {
            tri: *tri,
            plane: plane_of_some_area(tri),
            side_0: side_plane(*tri, 0),
            side_1: side_plane(*tri, 1),
            side_2: side_plane(*tri, 2),
            bounds: bounds_of(tri),
        }
    }

    /// The plane in which a phase cuts.
    pub fn phase_plane(&self, i: u32) -> &Plane
        requires { i < 4 }
        ensures { result.now ≡ phase_plane self.now i }
    {
        match i {
            0 => &self.plane,
            1 => &self.side_0,
            2 => &self.side_1,
            _ => &self.side_2,
        }
    }

    /// Whether the points lie on both sides of the plane of a phase.
    fn splits(&self, i: u32, points: &[Point]) -> bool
        requires index { i < 4 }
        requires points_in { All (IsInBox largest_side) points.now }
        ensures { result ≡ splits (phase_plane self.now i) points.now }
    {
        let signs = signs_of(self.phase_plane(i), points);
        signs.below && signs.above
    }

    /// Whether there is no side beyond which, or on which, all the points lie.
    fn reaches(&self, points: &[Point]) -> bool
        requires { All (IsInBox largest_side) points.now }
        ensures { result ≡ reaches self.now points.now }
    {
        self.is_above(1, points) && self.is_above(2, points) && self.is_above(3, points)
    }

    /// Whether some point lies above the plane of a phase.
    fn is_above(&self, i: u32, points: &[Point]) -> bool
        requires index { i < 4 }
        requires points_in { All (IsInBox largest_side) points.now }
        ensures { result ≡ list_any (lies_above (phase_plane self.now i)) points.now }
    {
        for point in points {
            if is_above(self.phase_plane(i), *point) {
                return true;
            }
        }
        false
    }

    /// The bounding box.
    pub fn bounds(&self) -> Bounds
        ensures { AreBounds result.lo result.hi self.now.0 }
    {
        self.bounds
    }

    /// A box that has the bounding box and every point of the grid that is in the triangle's section:
    /// the bounding box, widened by how far beyond its sides and off its plane such points may lie.
    pub fn section_bounds(&self) -> Bounds
        ensures { IsReach self.now result.lo result.hi }
    {
        let first = length_above(&self.side_0);
        let second = length_above(&self.side_1);
        let third = length_above(&self.side_2);
        spread_box(self.bounds, first + second + third, longest(&self.plane))
    }

    /// Whether the bounding box of the points meets the triangle's.
    fn meets(&self, points: &[Point]) -> bool
        ensures { result ≡ boxes_meet points.now self.now.0 }
    {
        self.bounds.meets(points)
    }

    /// Whether a tetrahedron of these corners is crossed.
    pub(crate) fn crosses(&self, corners: &[Point; 4]) -> bool
        requires { All (IsInBox largest_side) corners.now }
        ensures { result ≡ is_crossed self.now corners.now }
    {
        self.meets(corners) && self.splits(0, corners) && self.reaches(corners)
    }

    /// The snapped signs of corners at the triangle's plane.
    pub fn signs(&self, corners: &[Point; 4]) -> [i8; 4]
        requires { All (IsInBox largest_side) corners.now }
        ensures { result ≡ signs_at self.now corners.now }
    {
        corner_signs(&self.plane, corners)
    }

    /// Which phases may want edges of a tetrahedron of these corners, and their signs at the triangle's
    /// plane. None where the corners lie all on one side of that plane, or all beyond one of the sides.
    pub fn touch(&self, corners: &[Point; 4]) -> Option<Touch>
        requires { All (IsInBox largest_side) corners.now }
        ensures { result ≡ touch self.now corners.now }
    {
        let Snapped { each, all } = snap_corners(&self.plane, corners);
        if !all.is_touched() {
            return None;
        }
        let first = signs_of(&self.side_0, corners);
        if !first.is_within() {
            return None;
        }
        let second = signs_of(&self.side_1, corners);
        if !second.is_within() {
            return None;
        }
        let third = signs_of(&self.side_2, corners);
        if !third.is_within() {
            return None;
        }
        let reaches = all_above(first, second, third);
        Some(Touch {
            phases: [
                is_crossed(self.meets(corners), all, reaches),
                may_want_along(all, first, reaches),
                may_want_along(all, second, reaches),
                may_want_along(all, third, reaches),
            ],
            signs: each,
        })
    }

    /// Whether a phase after the first wants the edge of two points with these signs at the triangle's
    /// plane.
    pub(crate) fn wants_along(&self, i: u32, sign: i8, p: Point, other: i8, q: Point) -> bool
        requires index { i < 4 }
        requires p_in { IsInBox largest_side p }
        requires q_in { IsInBox largest_side q }
        ensures { result ≡ wants_along self.now i sign other (p ∷ q ∷ []) }
    {
        if !are_on(sign, other) {
            return false;
        }
        self.wants_on_plane(i, &[p, q])
    }

    /// Whether a phase after the first wants the edge of these ends, where they are on the triangle's
    /// plane.
    fn wants_on_plane(&self, i: u32, ends: &[Point; 2]) -> bool
        requires index { i < 4 }
        requires ends_in { All (IsInBox largest_side) ends.now }
        ensures { result ≡ (splits (phase_plane self.now i) ends.now && (reaches self.now ends.now && boxes_meet ends.now self.now.0)) }
    {
        self.splits(i, ends) && self.reaches(ends) && self.meets(ends)
    }

    /// Whether a point with this sign at the triangle's plane is in the triangle's section.
    pub(crate) fn has_in_section(&self, sign: i8, p: Point) -> bool
        requires { IsInBox largest_side p }
        ensures { result ≡ (int_eq sign (pos 0) && list_all (λ i. not (lies_below (side_plane self.now i) p)) three_sides) }
    {
        is_on(sign) && self.is_within_sides(p)
    }

    /// Whether a point lies below none of the sides.
    fn is_within_sides(&self, p: Point) -> bool
        requires { IsInBox largest_side p }
        ensures { result ≡ list_all (λ i. not (lies_below (side_plane self.now i) p)) three_sides }
    {
        !self.is_beyond(1, p) && !self.is_beyond(2, p) && !self.is_beyond(3, p)
    }

    /// Whether a point lies below the plane of a phase.
    #[tactic(auto, unfolding(mesh_types::specs::CuttingRule::lies_below))]
    fn is_beyond(&self, i: u32, p: Point) -> bool
        requires index { i < 4 }
        requires p_in { IsInBox largest_side p }
        ensures { result ≡ lies_below (phase_plane self.now i) p }
    {
        self.phase_plane(i).snap_sign(p) < 0
    }
}

#[tactic(auto, unfolding(mesh_types::specs::CuttingRule::lies_above))]
fn is_above(plane: &Plane, p: Point) -> bool
    requires { IsInBox largest_side p }
    ensures { result ≡ lies_above plane.now p }
{
    plane.snap_sign(p) > 0
}

#[tactic(auto, unfolding(mesh_types::specs::CuttingRule::section_plane))]
fn plane_of_some_area(tri: &Tri) -> Plane
    requires tri_in { IsTriInBox largest_side tri.now }
    requires some_area { ¬ IsDegenerate tri.now }
    ensures { result ≡ section_plane tri.now }
{
    match plane_of(*tri) {
        Some(plane) => plane,
        None => unreachable!(),
    }
}
