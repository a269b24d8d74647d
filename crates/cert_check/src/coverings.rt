//! Whether the report covers the tracked triangles.

ghost use Rattle.grid.specs.Limits.{largest_side, most_epsilon};
ghost use Rattle.std.specs.Prelude.{◌≡◌, ◌↔◌, ℕ, ◌+◌, ◌^◌, ◌<◌, ◌≤◌, max, length, All, IsTrue};
ghost use Rattle.grid.specs.Boxes.{IsInBox, IsTriInBox};
ghost use Rattle.cert_check.specs.Faults.{IsCovered, IsCoveringOfFace, tri_of};
ghost use Rattle.cert_check.specs.Firsts.{IsFirstOrNone};

use cover::check;
use grid::{Face, Point, Tri};
use report_text::Covering;

/// The triangle of a face's corners.
fn tri_of(points: &[Point], face: &Face) -> Tri
    requires { All (λ c. c < length points.now) face.now.0 }
    ensures { result ≡ tri_of points.now face.now.0 }
{
    let [a, b, c] = face.0;
    Tri([points[a as usize], points[b as usize], points[c as usize]])
}

/// Whether the covering is of that face, and its certificate covers it.
fn is_covering_of(
    triangles: &[Tri],
    e: u32,
    points: &[Point],
    face: &Face,
    covering: &Covering,
) -> bool
    requires triangles { All (IsTriInBox largest_side) triangles.now }
    requires e { e ≤ most_epsilon }
    requires points { All (IsInBox largest_side) points.now }
    requires face { All (λ c. c < length points.now) face.now.0 }
    ensures { IsTrue result ↔ IsCoveringOfFace triangles.now e points.now face.now covering.now }
{
    if covering.face != *face {
        return false;
    }
    check(triangles, &tri_of(points, face), &covering.cert, e)
}

/// Whether both lists have a member at the place, and the covering is of that triangle.
fn is_covered(
    triangles: &[Tri],
    e: u32,
    points: &[Point],
    tracked: &[Face],
    faces: &[Covering],
    i: usize,
) -> bool
    requires triangles { All (IsTriInBox largest_side) triangles.now }
    requires e { e ≤ most_epsilon }
    requires points { All (IsInBox largest_side) points.now }
    requires tracked { All (λ f. All (λ c. c < length points.now) f.0) tracked.now }
    ensures { IsTrue result ↔ IsCovered triangles.now e points.now tracked.now faces.now i }
{
    if i >= tracked.len() || i >= faces.len() {
        return false;
    }
    is_covering_of(triangles, e, points, &tracked[i], &faces[i])
}

/// The first place, from 1, where one list has no member, the faces differ or the certificate fails.
pub fn first_not_covered(
    triangles: &[Tri],
    e: u32,
    points: &[Point],
    tracked: &[Face],
    faces: &[Covering],
) -> Option<u32>
    requires triangles { All (IsTriInBox largest_side) triangles.now }
    requires e { e ≤ most_epsilon }
    requires points { All (IsInBox largest_side) points.now }
    requires tracked { All (λ f. All (λ c. c < length points.now) f.0) tracked.now }
    requires few { max (length tracked.now) (length faces.now) ≤ 2 ^ 24 }
    ensures { IsFirstOrNone (max (length tracked.now) (length faces.now)) (IsCovered triangles.now e points.now tracked.now faces.now) (λ i. i + 1) result }
{
    for i in 0..tracked.len().max(faces.len()) {
        if !is_covered(triangles, e, points, tracked, faces, i) {
            return Some(i as u32 + 1);
        }
    }
    None
}
