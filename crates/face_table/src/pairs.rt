// Whether the oriented faces of tetrahedra pair.
ghost use Rattle.std.specs.Prelude.{◌≡◌, ◌↔◌, ℕ, ◌<◌, pos, ◌++◌, [], length, map, All, IfOk, IsTrue, MatchOption};
ghost use Rattle.grid.specs.Simplices.{all_faces, faces};
ghost use Rattle.grid.specs.Views.{corners_of, triples_of};
ghost use Rattle.face_table.specs.Pairing.{NoneTwice, LooseHave, IsFirstLooseWithout, IsFirstRepeat, IsPairing, IsPairedBy, LieOnOneSide};
ghost use Rattle.face_table.specs.Passes.{IsRepeatAfter, AreCounted};

use crate::table::FaceTable;
use grid::{Face, Memory, Point, Tet, sides};
use std::alloc::Global;

/// Whether the oriented faces of tetrahedra pair.
#[derive(Clone, Copy, Debug, PartialEq, Eq)]
pub enum Paired {
    /// No face occurs twice, and the corners of each loose face share a side of the box.
    Good,
    /// The first face that occurred before, as it stands in the later tetrahedron.
    Twice(Face),
    /// No face occurs twice, and this is the first loose face whose corners share no side of the box.
    Loose(Face),
}

/// Whether the faces of the tetrahedra pair in the box from 0 to `side`, in grid steps: no oriented
/// face occurs twice, and the corners of each face whose reverse does not occur share a side of the
/// box. The time is linear in the number of tetrahedra.
///
/// # Errors
/// `Memory` where there is too little for the table of faces.
pub fn pairing(alloc: Global, tets: &[Tet], points: &[Point], side: i32) -> Result<Paired, Memory>
    requires in_range { All (λ t. All (λ c. c < length points.now) t.0) tets.now }
    ensures is { (l : ℕ) → side ≡ pos l → IfOk result (IsPairing points.now l (all_faces (corners_of tets.now))) }
    ensures any_side { IfOk result (IsPairedBy (LieOnOneSide points.now side) (all_faces (corners_of tets.now))) }
{
    let mut table = FaceTable::new(alloc);
    if let Some(face) = first_repeat(&mut table, tets)? {
        return Ok(Paired::Twice(face));
    }
    match first_loose(&table, tets, points, side) {
        Some(face) => Ok(Paired::Loose(face)),
        None => Ok(Paired::Good),
    }
}

/// Counts the faces of the tetrahedra in turn, up to the first that was counted before.
fn first_repeat(table: &mut FaceTable, tets: &[Tet]) -> Result<Option<Face>, Memory>
    requires { table.old ≡ [] }
    ensures { IfOk result (λ r. MatchOption r (AreCounted table.new (all_faces (corners_of tets.now))) (λ f. IsFirstRepeat (all_faces (corners_of tets.now)) f.0)) }
{
    for tet in tets {
        if let Some(face) = first_repeat_of(table, tet.faces())? {
            return Ok(Some(face));
        }
    }
    Ok(None)
}

/// Counts the faces in turn, up to the first that was counted before.
fn first_repeat_of(table: &mut FaceTable, faces: [Face; 4]) -> Result<Option<Face>, Memory>
    requires { NoneTwice table.old }
    ensures { IfOk result (λ r. MatchOption r (AreCounted table.new (table.old ++ triples_of faces)) (λ f. IsRepeatAfter table.old (triples_of faces) f.0)) }
{
    for face in &faces {
        let before = table.note(*face)?;
        if before > 0 {
            return Ok(Some(*face));
        }
    }
    Ok(None)
}

/// The first loose face whose corners share no side of the box, of the faces of the tetrahedra.
fn first_loose(table: &FaceTable, tets: &[Tet], points: &[Point], side: i32) -> Option<Face>
    requires { All (λ t. All (λ c. c < length points.now) t.0) tets.now }
    ensures { MatchOption result (LooseHave (LieOnOneSide points.now side) table.now (all_faces (corners_of tets.now))) (λ f. IsFirstLooseWithout (LieOnOneSide points.now side) table.now (all_faces (corners_of tets.now)) f.0) }
{
    for tet in tets {
        if let Some(face) = first_loose_of(table, tet.faces(), points, side) {
            return Some(face);
        }
    }
    None
}

/// The first of the faces that is loose and whose corners share no side of the box.
fn first_loose_of(table: &FaceTable, faces: [Face; 4], points: &[Point], side: i32) -> Option<Face>
    requires { All (λ f. All (λ c. c < length points.now) f.0) faces }
    ensures { MatchOption result (LooseHave (LieOnOneSide points.now side) table.now (triples_of faces)) (λ f. IsFirstLooseWithout (LieOnOneSide points.now side) table.now (triples_of faces) f.0) }
{
    for face in &faces {
        if table.count(face.reverse()) == 0 && !share_side(*face, points, side) {
            return Some(*face);
        }
    }
    None
}

/// Whether the corners of the face share a side of the box from 0 to `side`.
fn share_side(face: Face, points: &[Point], side: i32) -> bool
    requires { All (λ c. c < length points.now) face.0 }
    ensures { IsTrue result ↔ LieOnOneSide points.now side face.0 }
{
    let Face([a, b, c]) = face;
    let at_a = sides(points[a as usize], side);
    let at_b = sides(points[b as usize], side);
    let at_c = sides(points[c as usize], side);
    at_a & at_b & at_c != 0
}
