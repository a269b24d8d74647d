// Intervals and boxes, and how far a point lies from them.
ghost use Rattle.grid.specs.Limits.{largest_side};
ghost use Rattle.std.specs.Prelude.{◌≡◌, ◌≤◌, ◌^◌, ◌≤ℤ◌};
ghost use Rattle.int_algebra.specs.Within.{IsWithin};
ghost use Rattle.grid.specs.Boxes.{IsUpTo, IsInBox, IsTriInBox};
ghost use Rattle.envelope_tree.specs.Bounds.{Spans, Encloses, Widens, WidensAll, IsInGrid, AreInGrid};
ghost use Rattle.envelope_tree.specs.Gaps.{gap_of, sq_gap_of};

use crate::distance::{at_scale, outside, sum_of_squares};
use grid::{Point, Tri};

/// The whole numbers from `low` to `high`.
#[derive(Clone, Copy, Debug)]
pub struct Interval {
    pub low: i32,
    pub high: i32,
}

impl Interval {
    /// The least interval with three numbers.
    fn hull(a: i32, b: i32, c: i32) -> Interval
        requires a_in { IsUpTo largest_side a }
        requires b_in { IsUpTo largest_side b }
        requires c_in { IsUpTo largest_side c }
        ensures a_spanned { Spans result a }
        ensures b_spanned { Spans result b }
        ensures c_spanned { Spans result c }
        ensures within { IsInGrid result }
    {
        Interval {
            low: least(a, b, c),
            high: greatest(a, b, c),
        }
    }

    /// The least interval with both.
    fn join(self, other: Interval) -> Interval
        requires self_in { IsInGrid self }
        requires other_in { IsInGrid other }
        ensures first { Widens result self }
        ensures second { Widens result other }
        ensures within { IsInGrid result }
    {
        Interval {
            low: lesser(self.low, other.low),
            high: greater(self.high, other.high),
        }
    }

    /// How far p lies from the interval scaled by `scale`.
    fn gap(self, p: i32, scale: i64) -> i64
        requires self_in { IsInGrid self }
        requires p_in { IsUpTo (2 ^ 24) p }
        requires scale_in { IsWithin (2 ^ 6) scale }
        ensures value { result ≡ gap_of p scale self }
        ensures within { IsWithin (2 ^ 25) result }
    {
        outside(
            p as i64,
            at_scale(self.low, scale),
            at_scale(self.high, scale),
        )
    }
}

fn lesser(a: i32, b: i32) -> i32
    requires a_in { IsUpTo largest_side a }
    requires b_in { IsUpTo largest_side b }
    ensures first { result ≤ℤ a }
    ensures second { result ≤ℤ b }
    ensures within { IsUpTo largest_side result }
{
    if a < b { a } else { b }
}

fn greater(a: i32, b: i32) -> i32
    requires a_in { IsUpTo largest_side a }
    requires b_in { IsUpTo largest_side b }
    ensures first { a ≤ℤ result }
    ensures second { b ≤ℤ result }
    ensures within { IsUpTo largest_side result }
{
    if a < b { b } else { a }
}

fn least(a: i32, b: i32, c: i32) -> i32
    requires a_in { IsUpTo largest_side a }
    requires b_in { IsUpTo largest_side b }
    requires c_in { IsUpTo largest_side c }
    ensures first { result ≤ℤ a }
    ensures second { result ≤ℤ b }
    ensures third { result ≤ℤ c }
    ensures within { IsUpTo largest_side result }
{
    if a < b { lesser(a, c) } else { lesser(b, c) }
}

fn greatest(a: i32, b: i32, c: i32) -> i32
    requires a_in { IsUpTo largest_side a }
    requires b_in { IsUpTo largest_side b }
    requires c_in { IsUpTo largest_side c }
    ensures first { a ≤ℤ result }
    ensures second { b ≤ℤ result }
    ensures third { c ≤ℤ result }
    ensures within { IsUpTo largest_side result }
{
    if a < b { greater(b, c) } else { greater(a, c) }
}

/// A box with sides along the axes.
#[derive(Clone, Copy, Debug)]
pub struct Bounds {
    pub x: Interval,
    pub y: Interval,
    pub z: Interval,
}

impl Bounds {
    /// The bounding box of a triangle.
    pub fn of_triangle(tri: &Tri) -> Bounds
        requires tri_in { IsTriInBox largest_side tri.now }
        ensures encloses { Encloses result tri.now }
        ensures within { AreInGrid result }
    {
        let [a, b, c] = tri.0;
        Bounds {
            x: Interval::hull(a.x, b.x, c.x),
            y: Interval::hull(a.y, b.y, c.y),
            z: Interval::hull(a.z, b.z, c.z),
        }
    }

    /// The bounding box of both.
    pub fn join(self, other: Bounds) -> Bounds
        requires self_in { AreInGrid self }
        requires other_in { AreInGrid other }
        ensures first { WidensAll result self }
        ensures second { WidensAll result other }
        ensures within { AreInGrid result }
    {
        Bounds {
            x: self.x.join(other.x),
            y: self.y.join(other.y),
            z: self.z.join(other.z),
        }
    }

    /// The square of the distance of p from the box scaled by `scale`.
    pub fn sq_gap(self, p: Point, scale: i64) -> i128
        requires self_in { AreInGrid self }
        requires p_in { IsInBox (2 ^ 24) p }
        requires scale_in { IsWithin (2 ^ 6) scale }
        ensures value { result ≡ sq_gap_of p scale self }
        ensures within { IsWithin (2 ^ 52) result }
    {
        sum_of_squares(
            self.x.gap(p.x, scale),
            self.y.gap(p.y, scale),
            self.z.gap(p.z, scale),
        )
    }
}
