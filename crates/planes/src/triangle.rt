// The plane of a triangle, and those through its sides.
ghost use Rattle.grid.specs.Boxes.{IsInBox, IsTriInBox, corner_of};
ghost use Rattle.grid.specs.Limits.{largest_side};
ghost use Rattle.grid.specs.Planes;
ghost use Rattle.grid.specs.Planes.{IsDegenerate, largest_axis, unit_of, value_of};
ghost use Rattle.grid.specs.Vectors;
ghost use Rattle.grid.specs.Vectors.{no_vector};
ghost use Rattle.planes.specs.Sides.{side_of, turned};
ghost use Rattle.std.specs.Prelude.{
  IfSome,
  IsNone,
  IsTrue,
  pos,
  ◌%◌,
  ◌+◌,
  ◌<ℤ◌,
  ◌<◌,
  ◌^◌,
  ◌≡◌,
  ◌↔◌,
};
ghost use Rattle.vectors.specs.Bounded.{IsVectorWithin, vector_of};

use crate::plane::Plane;
use grid::{Point, Tri};
use vectors::{Vector, cross, difference, dot, opposite};

/// The plane of a triangle, with the snapping distance 1. None exactly where the triangle is
/// degenerate: its corners lie on one line.
pub fn plane_of(tri: Tri) -> Option<Plane>
    requires { IsTriInBox largest_side tri }
    ensures none { IsNone result ↔ IsDegenerate tri }
    ensures some { IfSome result (λ p. p ≡ Planes.plane_of tri) }
{
    let normal = normal_of(tri);
    if is_zero(normal) {
        None
    } else {
        Some(Plane::new(normal, tri.0[0], 1))
    }
}

/// Side i of a triangle, with the snapping distance 1: the plane through the corners i and i + 1,
/// counted modulo 3, that is parallel to the axis along which the triangle's normal is longest, to
/// the first on ties. Where the triangle is not degenerate, the third corner has a positive value.
pub fn side_plane(tri: Tri, i: usize) -> Plane
    requires tri_in { IsTriInBox largest_side tri }
    requires index { i < 3 }
    ensures side { result ≡ Planes.side_plane tri i }
    ensures third { (IsDegenerate tri → ⊥) → pos 0 <ℤ value_of result (corner_of tri ((i + 2) % 3)) }
{
    let axis = longest_axis(normal_of(tri));
    let Tri([a, b, c]) = tri;
    match i {
        0 => side_through(a, b, c, axis),
        1 => side_through(b, c, a, axis),
        _ => side_through(c, a, b, axis),
    }
}

#[tactic(auto, using(vectors::proofs::VectorLemmas::wider))]
fn normal_of(tri: Tri) -> Vector
    requires { IsTriInBox largest_side tri }
    ensures value { vector_of result ≡ Planes.normal_of tri }
    ensures within { IsVectorWithin (2 ^ 37) (vector_of result) }
{
    let Tri([a, b, c]) = tri;
    cross(difference(b, a), difference(c, a))
}

fn is_zero(m: Vector) -> bool
    ensures { IsTrue result ↔ (vector_of m ≡ no_vector) }
{
    m.x == 0 && m.y == 0 && m.z == 0
}

// The unit vector of the axis along which the vector is longest, of the first on ties.
fn longest_axis(m: Vector) -> Vector
    ensures { vector_of result ≡ unit_of (largest_axis (vector_of m)) }
{
    let x = m.x.unsigned_abs();
    let y = m.y.unsigned_abs();
    let z = m.z.unsigned_abs();
    if y <= x && z <= x {
        Vector { x: 1, y: 0, z: 0 }
    } else if z <= y {
        Vector { x: 0, y: 1, z: 0 }
    } else {
        Vector { x: 0, y: 0, z: 1 }
    }
}

// The plane through u and v that is parallel to an axis, turned towards w.
#[tactic(auto, using(vectors::proofs::VectorLemmas::wider))]
fn side_through(u: Point, v: Point, w: Point, axis: Vector) -> Plane
    requires u_in { IsInBox largest_side u }
    requires v_in { IsInBox largest_side v }
    requires w_in { IsInBox largest_side w }
    requires axis_in { IsVectorWithin 1 (vector_of axis) }
    ensures { result ≡ side_of u v w (vector_of axis) }
{
    let across = cross(difference(v, u), axis);
    Plane::new(turn(across, difference(w, u)), u, 1)
}

// The vector or its negative, whichever does not point away from d.
#[tactic(auto, using(vectors::proofs::VectorLemmas::wider))]
fn turn(m: Vector, d: Vector) -> Vector
    requires m_in { IsVectorWithin (2 ^ 37) (vector_of m) }
    requires d_in { IsVectorWithin largest_side (vector_of d) }
    ensures value { vector_of result ≡ turned (vector_of m) (vector_of d) }
    ensures within { IsVectorWithin (2 ^ 37) (vector_of result) }
{
    if dot(m, d) > 0 { m } else { opposite(m) }
}
