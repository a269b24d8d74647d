// Signed volumes, and squared distances.
ghost use Rattle.grid.specs.Boxes.{IsInBox};
ghost use Rattle.grid.specs.Determinants;
ghost use Rattle.grid.specs.Edges.{IsBetween, IsShort};
ghost use Rattle.grid.specs.Limits.{largest_side};
ghost use Rattle.std.specs.Prelude.{◌*ℤ◌, ◌+ℤ◌, ◌-ℤ◌, ◌≡◌};

use crate::shapes::Point;

/// The way from one point to another, in grid steps.
#[derive(Clone, Copy)]
struct Edge {
    x: i64,
    y: i64,
    z: i64,
}

fn edge_between(a: Point, b: Point) -> Edge
    requires a_in { IsInBox largest_side a }
    requires b_in { IsInBox largest_side b }
    ensures { IsBetween a b result }
{
    Edge {
        x: b.x as i64 - a.x as i64,
        y: b.y as i64 - a.y as i64,
        z: b.z as i64 - a.z as i64,
    }
}

fn triple_product(p: Edge, q: Edge, r: Edge) -> i64
    requires p_in { IsShort p }
    requires q_in { IsShort q }
    requires r_in { IsShort r }
    ensures { result ≡ ((p.x *ℤ ((q.y *ℤ r.z) -ℤ (q.z *ℤ r.y))) -ℤ (p.y *ℤ ((q.x *ℤ r.z) -ℤ (q.z *ℤ r.x)))) +ℤ (p.z *ℤ ((q.x *ℤ r.y) -ℤ (q.y *ℤ r.x))) }
{
    p.x * (q.y * r.z - q.z * r.y) - p.y * (q.x * r.z - q.z * r.x) + p.z * (q.x * r.y - q.y * r.x)
}

/// Six times the signed volume of the tetrahedron a b c d, in cubed grid steps: the determinant of
/// b - a, c - a and d - a. Above 0 for a positive tetrahedron.
pub fn det(a: Point, b: Point, c: Point, d: Point) -> i128
    requires a_in { IsInBox largest_side a }
    requires b_in { IsInBox largest_side b }
    requires c_in { IsInBox largest_side c }
    requires d_in { IsInBox largest_side d }
    ensures { result ≡ Determinants.det a b c d }
{
    triple_product(edge_between(a, b), edge_between(a, c), edge_between(a, d)) as i128
}

/// The squared distance of two points, in squared grid steps.
pub fn sq_dist(a: Point, b: Point) -> i64
    requires a_in { IsInBox largest_side a }
    requires b_in { IsInBox largest_side b }
    ensures { result ≡ Determinants.sq_dist a b }
{
    squared_length(edge_between(b, a))
}

fn squared_length(p: Edge) -> i64
    requires { IsShort p }
    ensures { result ≡ (p.x *ℤ p.x) +ℤ (p.y *ℤ p.y) +ℤ (p.z *ℤ p.z) }
{
    p.x * p.x + p.y * p.y + p.z * p.z
}
