// The certificates of the tracked faces.
ghost use Rattle.grid.specs.Boxes.{IsInBox, IsTriInBox};
ghost use Rattle.grid.specs.Limits.{largest_side, most_epsilon, most_points};
ghost use Rattle.grid.specs.Meshes.{IsTriple};
ghost use Rattle.grid.specs.Views.{triples_of};
ghost use Rattle.mesh_types.specs.Verdicts.{face_at};
ghost use Rattle.msh_text.specs.FileMesh.{face_of};
ghost use Rattle.mesher.specs.Meshed.{AreCoverings, HasItsCertificate, IsCoveringOf};
ghost use Rattle.std.specs.Prelude.{All, IfOk, length, ◌≡◌, ◌≤◌};

use cover::find;
use envelope_tree::Envelope;
use grid::{Face, Memory, Point, Tri};
use report_text::Covering;
use std::alloc::Global;

// The corners of a tracked face.
fn corners(points: &[Point], face: Face) -> Tri
    requires there { IsTriple (length points.now) face.0 }
    requires in_box { All (IsInBox largest_side) points.now }
    ensures value { result ≡ face_at points.now face.0 }
    ensures within { IsTriInBox largest_side result }
{
    let Face([a, b, c]) = face;
    Tri([points[a as usize], points[b as usize], points[c as usize]])
}

// A tracked face by the numbers that the file gives to its corners.
fn with_file_numbers(points: &[Point], face: Face) -> Face
    requires there { IsTriple (length points.now) face.0 }
    requires few { length points.now ≤ most_points }
    ensures { result ≡ face_of face.0 }
{
    let Face([a, b, c]) = face;
    Face([a + 1, b + 1, c + 1])
}

// A tracked face that has a certificate, with it.
fn covering(
    alloc: Global,
    env: &Envelope,
    points: &[Point],
    face: Face,
    e: u32,
) -> Result<Covering, Memory>
    requires there { IsTriple (length points.now) face.0 }
    requires few { length points.now ≤ most_points }
    requires in_box { All (IsInBox largest_side) points.now }
    requires e_in { e ≤ most_epsilon }
    requires covered { HasItsCertificate env.now e points.now face.0 }
    ensures { IfOk result (IsCoveringOf env.now e points.now face.0) }
{
    match find(alloc, env, &corners(points, face), e)? {
        Some(cert) => Ok(Covering {
            face: with_file_numbers(points, face),
            cert,
        }),
        None => unreachable!(),
    }
}

/// The tracked faces in order, each with its certificate. All of them have one.
pub(crate) fn coverings(
    alloc: Global,
    env: &Envelope,
    points: &[Point],
    faces: &[Face],
    e: u32,
) -> Result<Vec<Covering>, Memory>
    requires there { All (IsTriple (length points.now)) (triples_of faces.now) }
    requires few { length points.now ≤ most_points }
    requires in_box { All (IsInBox largest_side) points.now }
    requires e_in { e ≤ most_epsilon }
    requires covered { All (HasItsCertificate env.now e points.now) (triples_of faces.now) }
    ensures { IfOk result (λ made. AreCoverings env.now e points.now (triples_of faces.now) made.items) }
{
    let mut made = Vec::with_capacity(alloc, faces.len())?;
    for face in faces {
        let next = covering(alloc, env, points, *face, e)?;
        made.push(next)?;
    }
    Ok(made)
}
