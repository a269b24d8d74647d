// Planes: values, snapped signs, crossings.
ghost use Rattle.grid.specs.Boxes.{IsInBox, IsOn, Side};
ghost use Rattle.grid.specs.Limits.{largest_side, most_epsilon};
ghost use Rattle.grid.specs.Planes;
ghost use Rattle.grid.specs.Planes.{value_of};
ghost use Rattle.grid.specs.Vectors.{components};
ghost use Rattle.int_algebra.specs.Within.{IsWithin};
ghost use Rattle.planes.specs.Crossings.{HaveOppositeSigns};
ghost use Rattle.std.specs.Int.{int_signum};
ghost use Rattle.std.specs.Prelude.{if◌then◌else◌, nat_abs, nat_lt, pos, ℕ, ◌^◌, ◌≡◌, ◌≤◌};
ghost use Rattle.vectors.specs.Bounded.{IsVectorWithin, vector_of};

use crate::mean::mean_point;
use grid::Point;
use std::marker::Model;
use vectors::{Vector, difference, short_dot, squared_length};

/// An oriented plane, and the distance in grid steps up to which points are snapped to it: 1 in the
/// plane of a triangle and in those of its sides, until `with_snap` gives another.
#[derive(Clone, Copy, Debug)]
pub struct Plane {
    normal: Vector,
    origin: Point,
    snap: u32,
    // The largest value of a point that is snapped: the snapping distance times the normal's length,
    // rounded down.
    reach: u64,
}

impl Model for Plane {
    ghost use Rattle.grid.specs.Planes as planes;
    ghost use Rattle.std.proofs.Common.{sym};
    ghost use Rattle.planes.specs.Bounded.{IsKept, plane_with, reach_of};

    ghost Value = { planes.Plane };

    ghost view = { λ p. plane_with p.normal p.origin p.snap };

    ghost invariant = { λ p. IsKept (plane_with p.normal p.origin p.snap) p.reach };

    ghost inverse = { λ m. record {
      normal = record { x = m.normal.x; y = m.normal.y; z = m.normal.z };
      origin = m.origin;
      snap = m.snap;
      reach = reach_of m;
    } };

    ghost inverse_ok = { λ a h. λ i. record a { reach = sym h.reach_is i } };
}

impl Plane {
    pub(crate) fn new(normal: Vector, origin: Point, snap: u32) -> Plane
        requires normal_in { IsVectorWithin (2 ^ 37) (vector_of normal) }
        requires origin_in { IsInBox largest_side origin }
        requires snap_low { 1 ≤ snap }
        requires snap_high { snap ≤ most_epsilon }
        ensures { result ≡ record { normal = vector_of normal; origin = origin; snap = snap } }
    {
        let sq_snap = snap * snap;
        let sq_reach = sq_snap as i128 * squared_length(normal);
        Plane {
            normal,
            origin,
            snap,
            reach: sq_reach.unsigned_abs().isqrt() as u64,
        }
    }

    /// The normal. Its length is not 1: that of a triangle's plane is twice the triangle's area.
    pub fn normal(&self) -> [i64; 3]
        ensures normal { result ≡ components self.now.normal }
        ensures bound { IsVectorWithin (2 ^ 37) self.now.normal }
    {
        [self.normal.x, self.normal.y, self.normal.z]
    }

    /// The corner of the triangle from which the values are taken.
    pub fn origin(&self) -> Point
        ensures origin { result ≡ self.now.origin }
        ensures in_box { IsInBox largest_side result }
    {
        self.origin
    }

    /// The same plane with another snapping distance, of 1 to 4095 grid steps.
    pub fn with_snap(self, s: u32) -> Plane
        requires low { 1 ≤ s }
        requires high { s ≤ most_epsilon }
        ensures snap { result ≡ record self { snap = s } }
    {
        Plane::new(self.normal, self.origin, s)
    }

    // How far the point lies from the plane, times the length of the normal.
    #[tactic(auto, using(vectors::proofs::VectorLemmas::wider))]
    fn value(&self, p: Point) -> i64
        requires { IsInBox largest_side p }
        ensures value { result ≡ value_of self.now p }
        ensures bound { IsWithin (2 ^ 57) result }
    {
        short_dot(self.normal, difference(p, self.origin))
    }

    /// The side of the plane on which a point lies: 1 where the normal points to it, -1 on the other
    /// side, and 0 where it lies within the snapping distance and so counts as on the plane.
    pub fn snap_sign(&self, p: Point) -> i8
        requires { IsInBox largest_side p }
        ensures sign { result ≡ Planes.snap_sign self.now p }
    {
        sign_beyond(self.value(p), self.reach)
    }

    /// The point at which the segment from u to v crosses the plane, each coordinate rounded to the
    /// nearest whole number, a half going up. The values of u and v have opposite signs, as those of
    /// points with the snapped signs -1 and 1 have.
    pub fn crossing(&self, u: Point, v: Point) -> Point
        requires u_in { IsInBox largest_side u }
        requires v_in { IsInBox largest_side v }
        requires opposite { HaveOppositeSigns self.now u v }
        ensures crossing { result ≡ Planes.crossing self.now u v }
        ensures in_box { (n : ℕ) → IsInBox n u → IsInBox n v → IsInBox n result }
        ensures on_sides { (length_of : ℕ) (s : Side) → IsOn length_of s u → IsOn length_of s v
            → IsOn length_of s result }
    {
        let f = self.value(u).unsigned_abs();
        let g = self.value(v).unsigned_abs();
        mean_point(u, v, f, g)
    }
}

// The sign of the value where it is farther from 0 than the reach, else 0.
fn sign_beyond(value: i64, reach: u64) -> i8
    ensures { result ≡ (if nat_lt reach (nat_abs value) then int_signum value else pos 0) }
{
    if reach < value.unsigned_abs() {
        value.signum() as i8
    } else {
        0
    }
}
