// Bounding boxes.
ghost use Rattle.cutting_rule.specs.Bounds.{AreBounds, AreEnds, is_met, overlaps};
ghost use Rattle.std.specs.List.{Contains, list_any};
ghost use Rattle.std.specs.Prelude.{All, [], int_le, length, map, ◌∷◌, ◌≡◌, ◌≤ℤ◌};

use grid::{Point, Tri};

/// A box along the axes, by its corners with the least and the greatest coordinates.
#[derive(Clone, Copy, Debug)]
pub struct Bounds {
    pub lo: Point,
    pub hi: Point,
}

impl Bounds {
    /// Whether the bounding box of the points meets the box, where touching counts.
    pub fn meets(self, points: &[Point]) -> bool
        ensures { result ≡ is_met self.lo self.hi points.now }
    {
        let Bounds { lo, hi } = self;
        if !overlaps_x(lo.x, hi.x, points) {
            return false;
        }
        if !overlaps_y(lo.y, hi.y, points) {
            return false;
        }
        overlaps_z(lo.z, hi.z, points)
    }
}

/// A range of one coordinate.
#[derive(Clone, Copy, Debug)]
pub(crate) struct Ends {
    pub lo: i32,
    pub hi: i32,
}

/// The bounding box of a triangle.
pub(crate) fn bounds_of(tri: &Tri) -> Bounds
    ensures bounds { AreBounds result.lo result.hi tri.now.0 }
    ensures three { length tri.now.0 ≡ 3 }
{
    let x = ends_of(xs(&tri.0));
    let y = ends_of(ys(&tri.0));
    let z = ends_of(zs(&tri.0));
    Bounds {
        lo: point(x.lo, y.lo, z.lo),
        hi: point(x.hi, y.hi, z.hi),
    }
}

fn ends_of(values: [i32; 3]) -> Ends
    ensures { AreEnds result.lo result.hi values }
{
    Ends {
        lo: least(values[0], values[1], values[2]),
        hi: greatest(values[0], values[1], values[2]),
    }
}

fn xs(points: &[Point; 3]) -> [i32; 3]
    ensures { result ≡ map (λ p. p.x) points.now }
{
    points.map(|p| p.x)
}

fn ys(points: &[Point; 3]) -> [i32; 3]
    ensures { result ≡ map (λ p. p.y) points.now }
{
    points.map(|p| p.y)
}

fn zs(points: &[Point; 3]) -> [i32; 3]
    ensures { result ≡ map (λ p. p.z) points.now }
{
    points.map(|p| p.z)
}

pub(crate) fn point(x: i32, y: i32, z: i32) -> Point
    ensures { result ≡ record { x = x; y = y; z = z } }
{
    Point { x, y, z }
}

fn least(a: i32, b: i32, c: i32) -> i32
    ensures among { Contains (a ∷ b ∷ c ∷ []) result }
    ensures least { All (λ v. result ≤ℤ v) (a ∷ b ∷ c ∷ []) }
{
    a.min(b).min(c)
}

fn greatest(a: i32, b: i32, c: i32) -> i32
    ensures among { Contains (a ∷ b ∷ c ∷ []) result }
    ensures greatest { All (λ v. v ≤ℤ result) (a ∷ b ∷ c ∷ []) }
{
    a.max(b).max(c)
}

fn overlaps_x(lo: i32, hi: i32, points: &[Point]) -> bool
    ensures { result ≡ overlaps (λ p. p.x) lo hi points.now }
{
    some_x_at_most(points, hi) && some_x_at_least(points, lo)
}

fn some_x_at_most(points: &[Point], hi: i32) -> bool
    ensures { result ≡ list_any (λ p. int_le p.x hi) points.now }
{
    points.iter().any(|p| p.x <= hi)
}

fn some_x_at_least(points: &[Point], lo: i32) -> bool
    ensures { result ≡ list_any (λ p. int_le lo p.x) points.now }
{
    points.iter().any(|p| p.x >= lo)
}

fn overlaps_y(lo: i32, hi: i32, points: &[Point]) -> bool
    ensures { result ≡ overlaps (λ p. p.y) lo hi points.now }
{
    some_y_at_most(points, hi) && some_y_at_least(points, lo)
}

fn some_y_at_most(points: &[Point], hi: i32) -> bool
    ensures { result ≡ list_any (λ p. int_le p.y hi) points.now }
{
    points.iter().any(|p| p.y <= hi)
}

fn some_y_at_least(points: &[Point], lo: i32) -> bool
    ensures { result ≡ list_any (λ p. int_le lo p.y) points.now }
{
    points.iter().any(|p| p.y >= lo)
}

fn overlaps_z(lo: i32, hi: i32, points: &[Point]) -> bool
    ensures { result ≡ overlaps (λ p. p.z) lo hi points.now }
{
    some_z_at_most(points, hi) && some_z_at_least(points, lo)
}

fn some_z_at_most(points: &[Point], hi: i32) -> bool
    ensures { result ≡ list_any (λ p. int_le p.z hi) points.now }
{
    points.iter().any(|p| p.z <= hi)
}

fn some_z_at_least(points: &[Point], lo: i32) -> bool
    ensures { result ≡ list_any (λ p. int_le lo p.z) points.now }
{
    points.iter().any(|p| p.z >= lo)
}
