// Where a shift moves a point to.
ghost use Rattle.grid.specs.Boxes.{IsInBox, IsUpTo};
ghost use Rattle.grid.specs.Limits.{largest_side, most_points};
ghost use Rattle.local_ops.specs.Measures.{corners_at};
ghost use Rattle.local_ops.specs.Smoothing.{IsSum, IsSumUpTo, corners_but, mean_of, moved_to};
ghost use Rattle.mesh_store.specs.Parts.{mesh_in};
ghost use Rattle.mesh_store.specs.Sound.{IsSoundStore};
ghost use Rattle.mesh_types.specs.Results.{half_way, midpoint_floored, neighbours, shifted_to, target};
ghost use Rattle.mesh_types.specs.Tries.{tets_at_point};
ghost use Rattle.std.specs.Int.{int_div_euclid};
ghost use Rattle.std.specs.List.{flat_map};
ghost use Rattle.std.specs.Prelude.{All, IfOk, OnOk, length, nat_abs, pos, ◌*◌, ◌+ℤ◌, ◌*ℤ◌, ◌++◌, ◌<◌, ◌^◌, ◌≡◌, ◌≤◌, ◌≤ℤ◌};

use grid::{Memory, Point, Tet};
use mesh_store::Store;
use std::alloc::Global;
use tet_slots::Slots;

/// The mean of the neighbours of u (way 0), or the point half of the way there (1). A coordinate of u
/// that is at an end of the box stays.
pub(crate) fn target(alloc: Global, store: &Store, u: u32, way: u8) -> Result<Point, Memory>
    requires sound { IsSoundStore store.now.side store.now.parts }
    requires there { 0 < tets_at_point (mesh_in store.now.parts).tets u }
    ensures { IfOk result (λ p. p ≡ target (nat_abs store.now.side) (mesh_in store.now.parts) u way) }
{
    let around = neighbours(alloc, store, u)?;
    Ok(destination(store, &around, u, way))
}

/// The points, other than u, of the tetrahedra that have u.
fn neighbours(alloc: Global, store: &Store, u: u32) -> Result<Vec<u32>, Memory>
    ensures { IfOk result (λ v. v.items ≡ neighbours (mesh_in store.now.parts) u) }
{
    let mut near = Vec::new(alloc);
    store.slots().having(u, &mut near)?;
    let mut around = corners_but(alloc, store.slots(), &near, u)?;
    around.sort_unstable();
    around.dedup();
    Ok(around)
}

/// The corners other than u of the tetrahedra in these slots.
fn corners_but(alloc: Global, slots: &Slots, near: &[u32], u: u32) -> Result<Vec<u32>, Memory>
    requires { All (λ i. i < length slots.now.slots) near.now }
    ensures { IfOk result (λ v. v.items ≡ flat_map (λ i. corners_but u (corners_at slots.now.slots i)) near.now) }
{
    let mut found = Vec::new(alloc);
    for slot in near {
        push_corners(&mut found, slots.tet(*slot), u)?;
    }
    Ok(found)
}

fn push_corners(found: &mut Vec<u32>, tet: Tet, u: u32) -> Result<(), Memory>
    ensures { OnOk result (found.new.items ≡ found.old.items ++ corners_but u tet.0) }
{
    for corner in tet.0 {
        if corner != u {
            found.push(corner)?;
        }
    }
    Ok(())
}

/// Where u goes between these points.
fn destination(store: &Store, around: &[u32], u: u32, way: u8) -> Point
    requires u_there { u < length store.now.parts.points }
    requires there { All (λ w. w < length store.now.parts.points) around.now }
    requires some { 0 < length around.now }
    requires few { length around.now ≤ most_points }
    ensures { result ≡ moved_to (nat_abs store.now.side) store.now.parts.points u around.now way }
{
    let sum = sum_of(store.slots(), around);
    destination_from(
        store.slots().point(u),
        sum,
        around.len() as u32,
        store.side(),
        way,
    )
}

/// Where a point goes between so many points of this sum.
fn destination_from(from: Point, sum: Sum, count: u32, side: i32, way: u8) -> Point
    requires from_in { IsInBox largest_side from }
    requires some { 0 < count }
    requires few { count ≤ most_points }
    requires sum_in { IsSumUpTo (largest_side * count) sum }
    requires side_low { pos 0 ≤ℤ side }
    ensures { result ≡ record {
      x = shifted_to (nat_abs side) way from.x (mean_of sum.x count);
      y = shifted_to (nat_abs side) way from.y (mean_of sum.y count);
      z = shifted_to (nat_abs side) way from.z (mean_of sum.z count);
    } }
{
    let x = shift_coordinate(from.x, mean(sum.x, count), side, way);
    let y = shift_coordinate(from.y, mean(sum.y, count), side, way);
    let z = shift_coordinate(from.z, mean(sum.z, count), side, way);
    Point { x, y, z }
}

/// The sum of points, coordinate by coordinate.
#[derive(Clone, Copy)]
struct Sum {
    x: i64,
    y: i64,
    z: i64,
}

fn sum_of(slots: &Slots, around: &[u32]) -> Sum
    requires there { All (λ w. w < length slots.now.points) around.now }
    requires in_box { All (IsInBox largest_side) slots.now.points }
    requires few { length around.now ≤ most_points }
    ensures value { IsSum slots.now.points around.now result }
    ensures within { IsSumUpTo (largest_side * length around.now) result }
{
    let mut sum = Sum { x: 0, y: 0, z: 0 };
    for w in around {
        sum = plus(sum, slots.point(*w));
    }
    sum
}

fn plus(sum: Sum, p: Point) -> Sum
    requires sum_in { IsSumUpTo (2 ^ 40) sum }
    requires p_in { IsInBox largest_side p }
    ensures x { result.x ≡ sum.x +ℤ p.x }
    ensures y { result.y ≡ sum.y +ℤ p.y }
    ensures z { result.z ≡ sum.z +ℤ p.z }
{
    let x = sum.x + p.x as i64;
    let y = sum.y + p.y as i64;
    let z = sum.z + p.z as i64;
    Sum { x, y, z }
}

/// The mean, rounded to the nearest whole number, a half going up.
fn mean(sum: i64, count: u32) -> i32
    requires some { 0 < count }
    requires few { count ≤ most_points }
    requires sum_in { IsUpTo (largest_side * count) sum }
    ensures value { result ≡ mean_of sum count }
    ensures within { IsUpTo largest_side result }
{
    round_quotient(sum, count as i64) as i32
}

fn round_quotient(sum: i64, count: i64) -> i64
    requires sum_in { IsUpTo (2 ^ 38) sum }
    requires some { pos 1 ≤ℤ count }
    requires few { count ≤ℤ pos most_points }
    ensures { result ≡ int_div_euclid (pos 2 *ℤ sum +ℤ count) (pos 2 *ℤ count) }
{
    (2 * sum + count).div_euclid(2 * count)
}

/// Where a coordinate goes.
fn shift_coordinate(from: i32, mean: i32, side: i32, way: u8) -> i32
    requires from_in { IsUpTo largest_side from }
    requires mean_in { IsUpTo largest_side mean }
    requires side_low { pos 0 ≤ℤ side }
    ensures { result ≡ shifted_to (nat_abs side) way from mean }
{
    if from == 0 || from == side {
        from
    } else if way == 0 {
        mean
    } else {
        half_way(from, mean)
    }
}

/// Half of the way from one to the other, rounded down.
fn half_way(a: i32, b: i32) -> i32
    requires a_in { IsUpTo largest_side a }
    requires b_in { IsUpTo largest_side b }
    ensures { result ≡ half_way a b }
{
    (a + b).div_euclid(2)
}

/// The midpoint, rounded down.
pub(crate) fn midpoint(p: Point, q: Point) -> Point
    requires p_in { IsInBox largest_side p }
    requires q_in { IsInBox largest_side q }
    ensures { result ≡ midpoint_floored p q }
{
    let x = half_way(p.x, q.x);
    let y = half_way(p.y, q.y);
    let z = half_way(p.z, q.z);
    Point { x, y, z }
}
