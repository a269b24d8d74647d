// The triangles of a soup, shifted into its box.
ghost use Rattle.grid.specs.Limits.{largest_side};
ghost use Rattle.std.specs.Prelude.{◌≡◌, ◌<◌, length, map, ◌-ℤ◌, All, IfOk};
ghost use Rattle.soup.specs.Limits.{IsFaceBelow};
ghost use Rattle.soup.specs.Placement.{along, placed_point, placed_triangle, IsInside, IsPointInside};

use crate::range::along;
use grid::{Point, Tri};
use items::Items;
use std::alloc::{AllocError, Global};

/// A coordinate of a vertex in the grid.
fn placed_along(v: &[i64; 3], shift: &[i64; 3], axis: usize) -> i32
    requires axis { axis < 3 }
    requires inside { IsInside 0 largest_side (along axis v.now -ℤ along axis shift.now) }
    ensures { result ≡ along axis v.now -ℤ along axis shift.now }
{
    (along(v, axis) - along(shift, axis)) as i32
}

/// A vertex as a point of the grid.
fn placed_point(v: &[i64; 3], shift: &[i64; 3]) -> Point
    requires { IsPointInside 0 largest_side (placed_point shift.now v.now) }
    ensures { result ≡ placed_point shift.now v.now }
{
    Point {
        x: placed_along(v, shift, 0),
        y: placed_along(v, shift, 1),
        z: placed_along(v, shift, 2),
    }
}

/// A triangle by its corners as points of the grid.
fn placed_triangle(vertices: &[[i64; 3]], shift: &[i64; 3], face: &[u32; 3]) -> Tri
    requires corners { IsFaceBelow (length vertices.now) face.now }
    requires inside { All (λ v. IsPointInside 0 largest_side (placed_point shift.now v)) vertices.now }
    ensures { result ≡ placed_triangle shift.now vertices.now face.now }
{
    let [a, b, c] = *face;
    Tri([
        placed_point(&vertices[a as usize], shift),
        placed_point(&vertices[b as usize], shift),
        placed_point(&vertices[c as usize], shift),
    ])
}

/// The triangles by points of the grid.
pub fn placed_triangles(
    alloc: Global,
    vertices: &[[i64; 3]],
    faces: &[[u32; 3]],
    shift: &[i64; 3],
) -> Result<Items<Tri>, AllocError>
    requires corners { All (IsFaceBelow (length vertices.now)) faces.now }
    requires inside { All (λ v. IsPointInside 0 largest_side (placed_point shift.now v)) vertices.now }
    ensures { IfOk result (λ triangles. triangles ≡ map (placed_triangle shift.now vertices.now) faces.now) }
{
    let mut triangles = Vec::with_capacity(alloc, faces.len())?;
    for face in faces {
        triangles.push(placed_triangle(vertices, shift, face))?;
    }
    Ok(Items::from_vec(triangles))
}
