// The first faults of a cut mesh.
ghost use Rattle.grid.specs.Boxes.{IsInBox, IsTriInBox};
ghost use Rattle.grid.specs.Determinants.{IsPositive, point_at};
ghost use Rattle.grid.specs.Limits.{largest_side, most_epsilon};
ghost use Rattle.grid.specs.Near.{Near};
ghost use Rattle.grid.specs.Simplices.{IsTet};
ghost use Rattle.grid.specs.Views.{triples_of};
ghost use Rattle.mesh_store.specs.Parts.{live_tets};
ghost use Rattle.mesh_types.specs.Insertion.{IsStray, NamesFirst};
ghost use Rattle.mesh_types.specs.Phases.{points_of};
ghost use Rattle.std.specs.Prelude.{All, false, IsTrue, List, MatchOption, length, true, ℕ, ◌<◌, ◌≡◌, ◌≤◌, ◌↔◌};
ghost use Rattle.tet_slots.specs.Slots.{slot_at};

use cutter::corner_points;
use grid::{Face, Point, Tet, Tri, det};
use tet_slots::Slots;
use tri_distance::near;

/// Whether the tetrahedron of these corners is positive.
pub(crate) fn is_positive_at(corners: &[Point; 4]) -> bool
    requires { All (IsInBox largest_side) corners.now }
    ensures { (points : List Point) (x : List ℕ) → corners.now ≡ points_of points x → IsTrue result ↔ IsPositive points x }
{
    det(corners[0], corners[1], corners[2], corners[3]) > 0
}

/// Whether the tetrahedron is positive.
fn is_positive(slots: &Slots, tet: Tet) -> bool
    requires in_box { All (IsInBox largest_side) slots.now.points }
    requires there { IsTet (length slots.now.points) tet.0 }
    ensures { IsTrue result ↔ IsPositive slots.now.points tet.0 }
{
    is_positive_at(&corner_points(slots, tet))
}

/// The corners of the first live tetrahedron that is not positive, where those in the slots below
/// `made` are.
pub(crate) fn first_inverted(slots: &Slots, made: u32) -> Option<[Point; 4]>
    requires in_box { All (IsInBox largest_side) slots.now.points }
    requires made_in { made ≤ length slots.now.slots }
    requires positive { (j : ℕ) → j < made → (slot_at slots.now.slots j).live ≡ true → IsPositive slots.now.points (slot_at slots.now.slots j).tet.0 }
    ensures { MatchOption result (All (IsPositive slots.now.points) (live_tets slots.now.slots)) (NamesFirst slots.now.points (λ x. ¬ IsPositive slots.now.points x) (live_tets slots.now.slots)) }
{
    for slot in made..slots.made() {
        if slots.live(slot) && !is_positive(slots, slots.tet(slot)) {
            return Some(corner_points(slots, slots.tet(slot)));
        }
    }
    None
}

/// The points of a face.
pub(crate) fn face_points(slots: &Slots, face: Face) -> [Point; 3]
    requires { All (λ u. u < length slots.now.points) face.0 }
    ensures { result ≡ points_of slots.now.points face.0 }
{
    let Face([a, b, c]) = face;
    [slots.point(a), slots.point(b), slots.point(c)]
}

/// Whether the point of a corner is far from the triangle.
fn is_far(slots: &Slots, u: u32, tri: &Tri, e: u32) -> bool
    requires in_box { All (IsInBox largest_side) slots.now.points }
    requires there { u < length slots.now.points }
    requires tri_in { IsTriInBox largest_side tri.now }
    requires e_in { e ≤ most_epsilon }
    ensures far { result ≡ true → ¬ Near (point_at slots.now.points u) 0 tri.now e }
    ensures near { result ≡ false → Near (point_at slots.now.points u) 0 tri.now e }
{
    !near(slots.point(u), 0, tri, e)
}

/// Whether a corner of the face is far from the triangle.
fn is_stray(slots: &Slots, face: Face, tri: &Tri, e: u32) -> bool
    requires in_box { All (IsInBox largest_side) slots.now.points }
    requires there { All (λ u. u < length slots.now.points) face.0 }
    requires tri_in { IsTriInBox largest_side tri.now }
    requires e_in { e ≤ most_epsilon }
    ensures stray { result ≡ true → IsStray slots.now.points tri.now e face.0 }
    ensures near { result ≡ false → All (λ u. Near (point_at slots.now.points u) 0 tri.now e) face.0 }
{
    for u in face.0 {
        if is_far(slots, u, tri, e) {
            return true;
        }
    }
    false
}

/// The points of the first face with a corner far from the triangle.
pub(crate) fn first_stray(slots: &Slots, faces: &[Face], tri: &Tri, e: u32) -> Option<[Point; 3]>
    requires in_box { All (IsInBox largest_side) slots.now.points }
    requires there { All (λ f. All (λ u. u < length slots.now.points) f.0) faces.now }
    requires tri_in { IsTriInBox largest_side tri.now }
    requires e_in { e ≤ most_epsilon }
    ensures { MatchOption result (All (λ f. All (λ u. Near (point_at slots.now.points u) 0 tri.now e) f) (triples_of faces.now)) (NamesFirst slots.now.points (IsStray slots.now.points tri.now e) (triples_of faces.now)) }
{
    for face in faces {
        if is_stray(slots, *face, tri, e) {
            return Some(face_points(slots, *face));
        }
    }
    None
}
