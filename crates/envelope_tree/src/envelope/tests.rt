// The least near triangle, of a few and of many.
ghost use Rattle.grid.specs.Limits.{largest_side};
ghost use Rattle.std.specs.Prelude.{◌≡◌, ◌^◌, ◌≤◌, ◌<◌, ◌-◌, All, IfOk, length, pos};
ghost use Rattle.grid.specs.Boxes.{IsUpTo, IsInBox, IsTriInBox};

use super::Envelope;
use grid::{Memory, Point, Tri};
use std::alloc::Global;
use std::test::Fail;

fn point(x: i32, y: i32) -> Point
    ensures { result ≡ record { x = x; y = y; z = pos 0 } }
{
    Point { x, y, z: 0 }
}

#[test]
fn least_of_two(rt: HostRuntime) -> Result<(), Fail> {
    let low = Tri([point(0, 0), point(16, 0), point(8, 8)]);
    let high = Tri([point(0, 0), point(8, 8), point(0, 16)]);
    let env = Envelope::build(rt.alloc(), &[low, high])?;
    assert_eq!(rt; env.len(), 2);
    assert_eq!(rt; env.triangle(1), high);
    let corner = point(16, 0);
    assert_eq!(rt; env.least_near(corner, corner, corner, 0, 1), Some(0));
    let corner = point(0, 32);
    assert_eq!(rt; env.least_near(corner, corner, corner, 1, 1), Some(1));
    let far = point(16, 16);
    assert_eq!(rt; env.least_near(corner, corner, far, 0, 1), None);
    Ok(())
}

#[test]
fn first_of_three_equal_ones(rt: HostRuntime) -> Result<(), Fail> {
    let (a, b, c) = (point(0, 0), point(16, 0), point(8, 8));
    let tri = Tri([a, b, c]);
    let env = Envelope::build(rt.alloc(), &[tri, tri, tri])?;
    assert_eq!(rt; env.least_near(a, b, c, 0, 1), Some(0));
    Ok(())
}

#[test]
fn none_of_no_triangles(rt: HostRuntime) -> Result<(), Fail> {
    let env = Envelope::build(rt.alloc(), &[])?;
    assert_eq!(rt; env.len(), 0);
    assert_eq!(rt;
        env.least_near(point(0, 0), point(16, 0), point(8, 8), 0, 1),
        None
    );
    Ok(())
}

// 1024 rows of 1024 triangles, 256 apart.
fn coordinate(n: u32) -> i32
    requires { n < 1024 }
    ensures { IsUpTo (largest_side - 8) result }
{
    (256 * n) as i32
}

fn flat_point(x: i32, y: i32) -> Point
    requires x_in { IsUpTo largest_side x }
    requires y_in { IsUpTo largest_side y }
    ensures { IsInBox largest_side result }
{
    Point { x, y, z: 0 }
}

fn small_triangle(t: u32) -> Tri
    requires { t < 1048576 }
    ensures { IsTriInBox largest_side result }
{
    let x = coordinate(t % 1024);
    let y = coordinate(t / 1024);
    Tri([flat_point(x, y), flat_point(x + 8, y), flat_point(x, y + 8)])
}

fn small_triangles(alloc: Global) -> Result<Vec<Tri>, Memory>
    ensures inside { IfOk result (λ v. All (IsTriInBox largest_side) v.items) }
    ensures few { IfOk result (λ v. length v.items ≤ 2 ^ 24) }
{
    let mut triangles = Vec::new(alloc);
    for t in 0..1048576u32 {
        triangles.push(small_triangle(t))?;
    }
    Ok(triangles)
}

fn finds_itself(env: &Envelope, t: u32) -> bool
    requires { t < 1048576 }
{
    let [a, b, c] = small_triangle(t).0;
    env.least_near(a, b, c, 0, 1) == Some(t)
}

#[test]
fn each_of_many(rt: HostRuntime) -> Result<(), Fail> {
    let triangles = small_triangles(rt.alloc())?;
    let env = Envelope::build(rt.alloc(), triangles.as_slice())?;
    for i in 1..100001u32 {
        assert!(rt; finds_itself(&env, 1048576 - i), "its own");
    }
    Ok(())
}
