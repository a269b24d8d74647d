// Three points, for which the tree is asked.
ghost use Rattle.grid.specs.Limits.{largest_side, most_epsilon};
ghost use Rattle.std.specs.Prelude.{◌≡◌, ◌↔◌, ◌≤◌, ◌<◌, ◌+◌, ◌*◌, ◌^◌, ◌⊎◌, pos, All, IsTrue, length, ◌≤ℤ◌, ◌<ℤ◌};
ghost use Rattle.int_algebra.specs.Within.{IsWithin};
ghost use Rattle.grid.specs.Boxes.{IsInBox, IsTriInBox};
ghost use Rattle.envelope_tree.specs.Bounds.{AreInGrid};
ghost use Rattle.envelope_tree.specs.Gaps.{IsFar};
ghost use Rattle.envelope_tree.specs.Queries.{IsQuery, IsNear, IsOutOfReach, IsFound, AreFrom};

use crate::bounds::Bounds;
use grid::{Point, Tri};
use tri_distance::near;

/// A question: three points at the scale 2^k, and the distance e in grid steps.
#[derive(Clone, Copy)]
pub struct Query {
    pub a: Point,
    pub b: Point,
    pub c: Point,
    pub k: u32,
    pub e: u32,
    /// 2^k
    pub scale: i64,
    /// The square of e at that scale.
    pub reach: i128,
}

impl Query {
    /// The question, with its scale and its reach.
    pub fn new(a: Point, b: Point, c: Point, k: u32, e: u32) -> Query
        requires k_in { k ≤ 6 }
        requires e_in { e ≤ most_epsilon }
        ensures { result ≡ record { a = a; b = b; c = c; k = k; e = e; scale = pos (2 ^ k); reach = pos (e * 2 ^ k * (e * 2 ^ k)) } }
    {
        Query {
            a,
            b,
            c,
            k,
            e,
            scale: (1u64 << k) as i64,
            reach: reach_of(e, k) as i128,
        }
    }

    /// Whether all three points are near to a triangle.
    fn are_near(&self, tri: &Tri) -> bool
        requires query { IsQuery self.now }
        requires tri_in { IsTriInBox largest_side tri.now }
        ensures { IsTrue result ↔ IsNear self.now tri.now }
    {
        if !near(self.a, self.k, tri, self.e) {
            return false;
        }
        if !near(self.b, self.k, tri, self.e) {
            return false;
        }
        near(self.c, self.k, tri, self.e)
    }

    /// Whether p is farther away from a box than the distance of the query, so that it is near to no
    /// triangle in the box.
    fn is_far(&self, p: Point, bounds: Bounds) -> bool
        requires query { IsQuery self.now }
        requires p_in { IsInBox (2 ^ (18 + self.now.k)) p }
        requires bounds_in { AreInGrid bounds }
        ensures { IsTrue result ↔ IsFar p self.now.k bounds self.now.e }
    {
        self.reach < bounds.sq_gap(p, self.scale)
    }

    /// Whether one of the points is too far away from a box, so that the points are not all near to a
    /// triangle in it.
    pub fn leaves_out(&self, bounds: Bounds) -> bool
        requires query { IsQuery self.now }
        requires bounds_in { AreInGrid bounds }
        ensures { IsTrue result ↔ IsOutOfReach self.now bounds }
    {
        if self.is_far(self.a, bounds) {
            return true;
        }
        if self.is_far(self.b, bounds) {
            return true;
        }
        self.is_far(self.c, bounds)
    }

    /// The number t, if it is below the limit and the points are near to its triangle; else the limit.
    fn lower(&self, triangles: &[Tri], t: u32, limit: u32) -> u32
        requires query { IsQuery self.now }
        requires triangles_in { All (IsTriInBox largest_side) triangles.now }
        requires t_in { t < length triangles.now }
        ensures bound { result ≤ limit }
        ensures found { (result ≡ limit) ⊎ IsFound triangles.now self.now result }
        ensures least { IsFound triangles.now self.now t → result ≤ t }
    {
        if t >= limit {
            return limit;
        }
        if self.are_near(&triangles[t as usize]) {
            t
        } else {
            limit
        }
    }

    /// The least of these numbers whose triangle all three points are near to, if it is below the
    /// limit; else the limit.
    pub fn least_of(&self, triangles: &[Tri], numbers: &[u32], limit: u32) -> u32
        requires query { IsQuery self.now }
        requires triangles_in { All (IsTriInBox largest_side) triangles.now }
        requires numbers_in { All (λ t. t < length triangles.now) numbers.now }
        ensures bound { result ≤ limit }
        ensures found { (result ≡ limit) ⊎ IsFound triangles.now self.now result }
        ensures least { AreFrom triangles.now self.now result numbers.now }
    {
        let mut least = limit;
        for t in numbers {
            least = self.lower(triangles, *t, least);
        }
        least
    }
}

/// The square of the distance e at the scale 2^k.
fn reach_of(e: u32, k: u32) -> u64
    requires e_in { e ≤ most_epsilon }
    requires k_in { k ≤ 6 }
    ensures value { result ≡ e * 2 ^ k * (e * 2 ^ k) }
    ensures within { result ≤ 2 ^ 36 }
{
    let far = (e as u64) << k;
    far * far
}
