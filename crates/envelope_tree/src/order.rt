// The order of triangles along a curve through space.
ghost use Rattle.grid.specs.Limits.{largest_side};
ghost use Rattle.std.specs.Prelude.{◌≡◌, ◌≤◌, ◌<◌, ◌^◌, ◌+◌, ℕ, All, Contains, IfOk, length, map};
ghost use Rattle.grid.specs.Boxes.{IsTriInBox};
ghost use Rattle.envelope_tree.specs.Bounds.{IsInGrid, AreInGrid};
ghost use Rattle.envelope_tree.specs.Orders.{HasAll};

use crate::bounds::{Bounds, Interval};
use grid::{Memory, Tri};
use std::alloc::Global;

/// A triangle's number after its place on the curve through space.
#[derive(Clone, Copy, PartialEq, Eq, PartialOrd, Ord)]
struct Placed {
    code: u64,
    number: u32,
}

/// The numbers of all triangles, those of triangles that lie close to each other close together:
/// in Morton order of the middles of their bounding boxes.
pub fn in_order(alloc: Global, triangles: &[Tri]) -> Result<Vec<u32>, Memory>
    requires few { length triangles.now ≤ 2 ^ 24 }
    requires triangles_in { All (IsTriInBox largest_side) triangles.now }
    ensures { IfOk result (λ v. HasAll (length triangles.now) v.items) }
{
    let mut placed = places(alloc, triangles)?;
    placed.sort_unstable();
    numbers_of(alloc, placed.as_slice())
}

/// The numbers alone, in the same order.
fn numbers_of(alloc: Global, placed: &[Placed]) -> Result<Vec<u32>, Memory>
    ensures { IfOk result (λ v. v.items ≡ map (λ p. p.number) placed.now) }
{
    Ok(placed.iter().map(|p| p.number).collect(alloc)?)
}

/// Each triangle's place on the curve, in the order of the triangles.
fn places(alloc: Global, triangles: &[Tri]) -> Result<Vec<Placed>, Memory>
    requires few { length triangles.now ≤ 2 ^ 24 }
    requires triangles_in { All (IsTriInBox largest_side) triangles.now }
    ensures { IfOk result (λ v. HasAll (length triangles.now) (map (λ p. p.number) v.items)) }
{
    let mut placed = Vec::with_capacity(alloc, triangles.len())?;
    for (t, tri) in triangles.iter().enumerate() {
        placed.push(Placed {
            code: morton_code(Bounds::of_triangle(tri)),
            number: t as u32,
        })?;
    }
    Ok(placed)
}

/// The place of a box's middle on the Morton curve: the bits of its coordinates, interleaved.
fn morton_code(bounds: Bounds) -> u64 {
    spread(bounds.x) | spread(bounds.y) << 1 | spread(bounds.z) << 2
}

/// The lower 21 bits of an interval's doubled middle, each followed by two bits that are 0.
fn spread(interval: Interval) -> u64 {
    let n = interval.low.unsigned_abs() as u64 + interval.high.unsigned_abs() as u64;
    let n = n & 0x1f_ffff;
    let n = (n | n << 32) & 0x1f_0000_0000_ffff;
    let n = (n | n << 16) & 0x1f_0000_ff00_00ff;
    let n = (n | n << 8) & 0x100f_00f0_0f00_f00f;
    let n = (n | n << 4) & 0x10c3_0c30_c30c_30c3;
    (n | n << 2) & 0x1249_2492_4924_9249
}
