// Where tries put new points.
ghost use Rattle.grid.specs.Boxes.{IsInBox, IsUpTo};
ghost use Rattle.grid.specs.Determinants.{point_at};
ghost use Rattle.grid.specs.Limits.{largest_side, most_points};
ghost use Rattle.grid.specs.Meshes.{IsWellFormed, IsWithinLimits};
ghost use Rattle.grid.specs.Views.{corners_of};
ghost use Rattle.mesh_types.specs.Results.{half_way, mean_at, midpoint_floored, neighbours, shifted_to, sum_at, target};
ghost use Rattle.mesh_types.specs.Tries.{tets_at_edge, tets_at_point};
ghost use Rattle.mesh_types.specs.Views.{mesh_of};
ghost use Rattle.plain_ops.specs.Targets.{along, is_neighbour};
ghost use Rattle.std.specs.Int.{int_div_euclid};
ghost use Rattle.std.specs.List.{filter};
ghost use Rattle.std.specs.Prelude.{All, IfOk, OnOk, [], ◌∷◌, ◌++◌, length, nat_abs, pos, ◌*◌, ◌+ℤ◌, ◌*ℤ◌, ◌<◌, ◌^◌, ◌≡◌, ◌≤◌, ◌≤ℤ◌};

use crate::points::point_or_origin;
use crate::refining::count_of;
use grid::{Memory, Point, Tet};
use mesh_types::Lists;
use std::alloc::Global;

/// Half of the way from one to the other, rounded down.
fn half_way(a: i32, b: i32) -> i32
    requires a_in { IsUpTo largest_side a }
    requires b_in { IsUpTo largest_side b }
    ensures { result ≡ half_way a b }
{
    (a + b).div_euclid(2)
}

/// The midpoint, each coordinate rounded down.
pub(crate) fn midpoint(p: Point, q: Point) -> Point
    requires p_in { IsInBox largest_side p }
    requires q_in { IsInBox largest_side q }
    ensures { result ≡ midpoint_floored p q }
{
    let x = half_way(p.x, q.x);
    let y = half_way(p.y, q.y);
    let z = half_way(p.z, q.z);
    Point { x, y, z }
}

fn tets_at_edge(tets: &[Tet], u: u32, v: u32) -> usize
    ensures { result ≡ tets_at_edge (corners_of tets.now) u v }
{
    tets.iter().filter(|tet| tet.has(u) && tet.has(v)).count()
}

// Whether w is another point of an edge at u.
fn is_neighbour(tets: &[Tet], u: u32, w: u32) -> bool
    ensures { result ≡ is_neighbour (corners_of tets.now) u w }
{
    w != u && tets_at_edge(tets, u, w) > 0
}

// The points, other than u, of the tetrahedra that have u.
fn neighbours(alloc: Global, mesh: &Lists, u: u32) -> Result<Vec<u32>, Memory>
    requires within { IsWithinLimits (mesh_of mesh.now) }
    ensures { IfOk result (λ v. v.items ≡ neighbours (mesh_of mesh.now) u) }
{
    let tets = mesh.tets.as_slice();
    let mut around = Vec::new(alloc);
    for w in 0..count_of(mesh.points.as_slice()) {
        push_neighbour(&mut around, tets, u, w)?;
    }
    Ok(around)
}

fn push_neighbour(around: &mut Vec<u32>, tets: &[Tet], u: u32, w: u32) -> Result<(), Memory>
    ensures { OnOk result (around.new.items ≡ around.old.items ++ filter (is_neighbour (corners_of tets.now) u) (w ∷ [])) }
{
    if is_neighbour(tets, u, w) {
        around.push(w)?;
    }
    Ok(())
}

/// A direction of the grid.
#[derive(Clone, Copy)]
enum Axis {
    X,
    Y,
    Z,
}

fn along(axis: Axis, p: Point) -> i32
    ensures value { result ≡ along axis p }
    ensures within { IsInBox largest_side p → IsUpTo largest_side result }
{
    match axis {
        Axis::X => p.x,
        Axis::Y => p.y,
        Axis::Z => p.z,
    }
}

// The coordinate of the point w.
fn coordinate(axis: Axis, points: &[Point], w: u32) -> i32
    requires { All (IsInBox largest_side) points.now }
    ensures value { result ≡ along axis (point_at points.now w) }
    ensures within { IsUpTo largest_side result }
{
    along(axis, point_or_origin(points, w))
}

fn plus(sum: i64, z: i32) -> i64
    requires sum_in { IsUpTo (2 ^ 40) sum }
    requires z_in { IsUpTo largest_side z }
    ensures { result ≡ sum +ℤ z }
{
    sum + z as i64
}

// The sum of a coordinate of these points.
fn sum_along(axis: Axis, points: &[Point], ws: &[u32]) -> i64
    requires in_box { All (IsInBox largest_side) points.now }
    requires few { length ws.now ≤ most_points }
    ensures value { result ≡ sum_at (λ w. along axis (point_at points.now w)) ws.now }
    ensures within { IsUpTo (largest_side * length ws.now) result }
{
    let mut sum = 0;
    for w in ws {
        sum = plus(sum, coordinate(axis, points, *w));
    }
    sum
}

// The mean, rounded to the nearest whole number, a half going up.
fn mean_of(sum: i64, count: u32) -> i32
    requires some { 0 < count }
    requires few { count ≤ most_points }
    requires sum_in { IsUpTo (largest_side * count) sum }
    ensures value { result ≡ int_div_euclid (pos 2 *ℤ sum +ℤ pos count) (pos (2 * count)) }
    ensures within { IsUpTo largest_side result }
{
    round_quotient(sum, count as i64) as i32
}

fn round_quotient(sum: i64, count: i64) -> i64
    requires sum_in { IsUpTo (2 ^ 38) sum }
    requires some { pos 1 ≤ℤ count }
    requires few { count ≤ℤ pos most_points }
    ensures { result ≡ int_div_euclid (pos 2 *ℤ sum +ℤ count) (pos 2 *ℤ count) }
{
    (2 * sum + count).div_euclid(2 * count)
}

// The mean of a coordinate of these points.
fn mean_along(axis: Axis, points: &[Point], ws: &[u32]) -> i32
    requires in_box { All (IsInBox largest_side) points.now }
    requires some { 0 < length ws.now }
    requires few { length ws.now ≤ most_points }
    ensures value { result ≡ mean_at (λ w. along axis (point_at points.now w)) ws.now }
    ensures within { IsUpTo largest_side result }
{
    mean_of(sum_along(axis, points, ws), ws.len() as u32)
}

// Where a coordinate goes: at the ends of the box it stays.
fn shift_coordinate(from: i32, mean: i32, side: i32, way: u8) -> i32
    requires from_in { IsUpTo largest_side from }
    requires mean_in { IsUpTo largest_side mean }
    requires side_low { pos 0 ≤ℤ side }
    ensures { result ≡ shifted_to (nat_abs side) way from mean }
{
    if from == 0 || from == side {
        from
    } else if way == 0 {
        mean
    } else {
        half_way(from, mean)
    }
}

fn shift_along(axis: Axis, points: &[Point], ws: &[u32], side: i32, u: u32, way: u8) -> i32
    requires in_box { All (IsInBox largest_side) points.now }
    requires some { 0 < length ws.now }
    requires few { length ws.now ≤ most_points }
    requires side_low { pos 0 ≤ℤ side }
    ensures { result ≡ shifted_to (nat_abs side) way (along axis (point_at points.now u)) (mean_at (λ w. along axis (point_at points.now w)) ws.now) }
{
    let from = coordinate(axis, points, u);
    shift_coordinate(from, mean_along(axis, points, ws), side, way)
}

/// The mean of the neighbours of u (way 0), or the point half of the way there (1).
pub(crate) fn target(
    alloc: Global,
    mesh: &Lists,
    side: i32,
    u: u32,
    way: u8,
) -> Result<Point, Memory>
    requires well_formed { IsWellFormed (mesh_of mesh.now) }
    requires within { IsWithinLimits (mesh_of mesh.now) }
    requires side_low { pos 0 ≤ℤ side }
    requires in_box { All (IsInBox largest_side) mesh.now.points }
    requires some { 0 < tets_at_point (mesh_of mesh.now).tets u }
    ensures { IfOk result (λ p. p ≡ target (nat_abs side) (mesh_of mesh.now) u way) }
{
    let points = mesh.points.as_slice();
    let around = neighbours(alloc, mesh, u)?;
    let x = shift_along(Axis::X, points, &around, side, u, way);
    let y = shift_along(Axis::Y, points, &around, side, u, way);
    let z = shift_along(Axis::Z, points, &around, side, u, way);
    Ok(Point { x, y, z })
}
