// The certificates of the faces that a try tracks anew.
ghost use Rattle.grid.specs.Boxes.{IsInBox, IsTriInBox};
ghost use Rattle.grid.specs.Limits.{largest_side, most_epsilon};
ghost use Rattle.grid.specs.Meshes.{IsTriple};
ghost use Rattle.grid.specs.Views.{triples_of};
ghost use Rattle.grid.specs.Simplices.{same_triple};
ghost use Rattle.local_ops.specs.Covering.{IsFine};
ghost use Rattle.local_ops.specs.Surface.{at_point};
ghost use Rattle.mesh_store.specs.Parts.{mesh_in};
ghost use Rattle.mesh_types.specs.Certificates.{HasCertificate};
ghost use Rattle.mesh_types.specs.Verdicts.{face_at};
ghost use Rattle.std.specs.List.{list_any};
ghost use Rattle.std.specs.Prelude.{All, IfOk, IsTrue, length, ◌<◌, ◌≡◌, ◌≤◌, ◌↔◌};

use crate::before::Before;
use crate::surface::faces_at;
use cover::covered;
use envelope_tree::Envelope;
use grid::{Face, Memory, Tri};
use mesh_store::Store;
use std::alloc::Global;
use tet_slots::Slots;

/// Whether each tracked face with the pivot was tracked before or has a certificate.
pub(crate) fn are_covered(
    alloc: Global,
    store: &Store,
    env: &Envelope,
    e: u32,
    before: &Before,
) -> Result<bool, Memory>
    requires { e ≤ most_epsilon }
    ensures { IfOk result (λ b. IsTrue b ↔ All (IsFine env.now e (triples_of before.now.faces.items) store.now.parts.points) (at_point before.now.pivot (mesh_in store.now.parts).tracked)) }
{
    let faces = faces_at(alloc, store, before.pivot)?;
    Ok(all_fine(store.slots(), env, e, &before.faces, &faces))
}

/// Whether each of the faces is among the old ones or has a certificate.
fn all_fine(slots: &Slots, env: &Envelope, e: u32, old: &[Face], faces: &[Face]) -> bool
    requires in_box { All (IsInBox largest_side) slots.now.points }
    requires there { All (λ f. IsTriple (length slots.now.points) f.0) faces.now }
    requires e_in { e ≤ most_epsilon }
    ensures { IsTrue result ↔ All (IsFine env.now e (triples_of old.now) slots.now.points) (triples_of faces.now) }
{
    for face in faces {
        if !is_fine(slots, env, e, old, *face) {
            return false;
        }
    }
    true
}

fn is_fine(slots: &Slots, env: &Envelope, e: u32, old: &[Face], face: Face) -> bool
    requires in_box { All (IsInBox largest_side) slots.now.points }
    requires there { IsTriple (length slots.now.points) face.0 }
    requires e_in { e ≤ most_epsilon }
    ensures { IsTrue result ↔ IsFine env.now e (triples_of old.now) slots.now.points face.0 }
{
    is_listed(old, face) || is_covered(slots, env, e, face)
}

fn is_listed(faces: &[Face], face: Face) -> bool
    ensures { result ≡ list_any (same_triple face.0) (triples_of faces.now) }
{
    for other in faces {
        if face == *other {
            return true;
        }
    }
    false
}

fn is_covered(slots: &Slots, env: &Envelope, e: u32, face: Face) -> bool
    requires in_box { All (IsInBox largest_side) slots.now.points }
    requires there { IsTriple (length slots.now.points) face.0 }
    requires e_in { e ≤ most_epsilon }
    ensures { IsTrue result ↔ HasCertificate env.now e (face_at slots.now.points face.0) }
{
    covered(env, &triangle(slots, face), e)
}

/// The triangle of a face.
fn triangle(slots: &Slots, face: Face) -> Tri
    requires in_box { All (IsInBox largest_side) slots.now.points }
    requires there { IsTriple (length slots.now.points) face.0 }
    ensures value { result ≡ face_at slots.now.points face.0 }
    ensures within { IsTriInBox largest_side result }
{
    let Face([a, b, c]) = face;
    Tri([slots.point(a), slots.point(b), slots.point(c)])
}
