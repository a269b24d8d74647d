// The bounding boxes of tetrahedra.
ghost use Rattle.grid.specs.Determinants.{point_at};
ghost use Rattle.grid.specs.Simplices.{IsTet};
ghost use Rattle.std.specs.Prelude.{int_le, length, map, ℤ, ◌||◌, ◌≡◌};
ghost use Rattle.tet_slots.specs.Extents.{AreExtents, IsExtent, meets_extent, meets_extents};

use crate::search::{corner_points, xs, ys, zs};
use grid::{Point, Tet};

/// The least and the greatest of some coordinates.
#[derive(Clone, Copy, Debug, Default, PartialEq, Eq)]
pub(crate) struct Extent {
    pub(crate) low: i32,
    pub(crate) high: i32,
}

/// A box, by its extent along each axis.
#[derive(Clone, Copy, Debug, Default, PartialEq, Eq)]
pub(crate) struct Extents {
    pub(crate) x: Extent,
    pub(crate) y: Extent,
    pub(crate) z: Extent,
}

impl Extents {
    /// Whether the box meets the one from lo to hi, where touching counts.
    #[tactic(auto, unfolding(crate::specs::Extents::meets_extents))]
    pub(crate) fn meets(self, lo: Point, hi: Point) -> bool
        ensures { result ≡ meets_extents lo hi self }
    {
        if !self.x.meets(lo.x, hi.x) {
            return false;
        }
        if !self.y.meets(lo.y, hi.y) {
            return false;
        }
        self.z.meets(lo.z, hi.z)
    }
}

impl Extent {
    /// Whether some number from lo to hi is in the extent.
    #[tactic(auto, unfolding(crate::specs::Extents::meets_extent))]
    fn meets(self, lo: i32, hi: i32) -> bool
        ensures { result ≡ meets_extent lo hi self }
    {
        lo <= hi && self.low <= hi && lo <= self.high
    }
}

/// The bounding box of a tetrahedron.
pub(crate) fn extents_of(points: &[Point], tet: Tet) -> Extents
    requires { IsTet (length points.now) tet.0 }
    ensures { AreExtents result (map (point_at points.now) tet.0) }
{
    let corners = corner_points(points, tet);
    Extents {
        x: extent_of(xs(&corners)),
        y: extent_of(ys(&corners)),
        z: extent_of(zs(&corners)),
    }
}

fn extent_of(values: [i32; 4]) -> Extent
    ensures { IsExtent result values }
{
    let [a, b, c, d] = values;
    Extent {
        low: least(a, least(b, least(c, d))),
        high: greatest(a, greatest(b, greatest(c, d))),
    }
}

fn least(a: i32, b: i32) -> i32
    ensures { (x : ℤ) → int_le result x ≡ (int_le a x || int_le b x) }
{
    if a < b { a } else { b }
}

fn greatest(a: i32, b: i32) -> i32
    ensures { (x : ℤ) → int_le x result ≡ (int_le x a || int_le x b) }
{
    if a < b { b } else { a }
}
