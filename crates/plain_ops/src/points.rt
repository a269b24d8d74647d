// Points of simplices.
ghost use Rattle.grid.specs.Boxes.{IsInBox};
ghost use Rattle.grid.specs.Determinants.{IsPositive, point_at};
ghost use Rattle.grid.specs.Limits.{largest_side};
ghost use Rattle.grid.specs.Simplices.{IsTet};
ghost use Rattle.mesh_types.specs.Phases.{points_of};
ghost use Rattle.std.specs.Prelude.{All, IsTrue, length, ◌<◌, ◌≡◌, ◌↔◌};

use grid::{Face, Point, Tet, det};

/// The point of a number.
pub(crate) fn point_at(points: &[Point], u: u32) -> Point
    requires { u < length points.now }
    ensures { result ≡ point_at points.now u }
{
    points[u as usize]
}

/// The points of a tetrahedron, in the order of its corners.
pub(crate) fn corner_points(points: &[Point], tet: Tet) -> [Point; 4]
    requires { IsTet (length points.now) tet.0 }
    ensures { result ≡ points_of points.now tet.0 }
{
    let Tet([a, b, c, d]) = tet;
    [
        point_at(points, a),
        point_at(points, b),
        point_at(points, c),
        point_at(points, d),
    ]
}

/// The points of a face, in the order of its corners.
pub(crate) fn face_points(points: &[Point], face: Face) -> [Point; 3]
    requires { All (λ u. u < length points.now) face.0 }
    ensures { result ≡ points_of points.now face.0 }
{
    let Face([a, b, c]) = face;
    [
        point_at(points, a),
        point_at(points, b),
        point_at(points, c),
    ]
}

/// Whether a tetrahedron is positive.
pub(crate) fn is_positive(points: &[Point], tet: Tet) -> bool
    requires in_box { All (IsInBox largest_side) points.now }
    requires there { IsTet (length points.now) tet.0 }
    ensures { IsTrue result ↔ IsPositive points.now tet.0 }
{
    let Tet([a, b, c, d]) = tet;
    det(
        point_at(points, a),
        point_at(points, b),
        point_at(points, c),
        point_at(points, d),
    ) > 0
}

/// The point of a number. One that is no point's stands for the origin, as it does in the definitions.
pub(crate) fn point_or_origin(points: &[Point], u: u32) -> Point
    ensures value { result ≡ point_at points.now u }
    ensures within { All (IsInBox largest_side) points.now → IsInBox largest_side result }
{
    if (u as usize) < points.len() {
        points[u as usize]
    } else {
        Point { x: 0, y: 0, z: 0 }
    }
}
