// Tests of the tracked faces before a try.
ghost use Rattle.grid.specs.Meshes.{Ordered};
ghost use Rattle.grid.specs.Rims.{IsRim, triples_at};
ghost use Rattle.grid.specs.Simplices.{has, replaced, rising, same_triple};
ghost use Rattle.grid.specs.Views.{triples_of};
ghost use Rattle.local_ops.specs.Surface.{at_point, is_moved_apart};
ghost use Rattle.mesh_store.specs.Parts.{mesh_in};
ghost use Rattle.mesh_types.specs.Tries.{is_candidate};
ghost use Rattle.mesh_types.specs.Verdicts.{KeepsSurface, PassesTracked};
ghost use Rattle.std.specs.List.{list_all, list_any};
ghost use Rattle.std.specs.Prelude.{IfOk, IsTrue, List, length, nat_eq, nat_lt, true, ℕ, ◌&&◌, ◌≡◌, ◌≢◌, ◌↔◌};

use grid::{Face, Memory};
use mesh_store::Store;
use mesh_types::Try;
use std::alloc::Global;

/// Whether u is a point of the rim of the tracked faces.
pub(crate) fn is_rim(store: &Store, u: u32) -> bool
    ensures { IsTrue result ↔ IsRim (mesh_in store.now.parts).tracked u }
{
    store.tracked().is_rim(u)
}

/// Whether the try takes away no tracked face, and lays none on another.
pub(crate) fn keeps_tracked(alloc: Global, store: &Store, attempt: Try) -> Result<bool, Memory>
    requires { is_candidate (mesh_in store.now.parts).tets attempt ≡ true }
    ensures { IfOk result (λ b. IsTrue b ↔ PassesTracked (mesh_in store.now.parts) attempt) }
{
    match attempt {
        Try::Collapse(u, v) => keeps_surface(alloc, store, u, v),
        Try::FaceSwap(a, b, c) => Ok(!is_tracked(store, Face([a, b, c]))),
        Try::EdgeSwap(u, v) => Ok(faces_at_edge(store, u, v) == 0),
        Try::Split(..) | Try::Shift(..) => Ok(true),
    }
}

fn is_tracked(store: &Store, face: Face) -> bool
    ensures { result ≡ list_any (same_triple face.0) (mesh_in store.now.parts).tracked }
{
    store.tracked().has(face)
}

/// How many tracked faces have u and v.
fn faces_at_edge(store: &Store, u: u32, v: u32) -> u32
    requires { u ≢ v }
    ensures { result ≡ triples_at (mesh_in store.now.parts).tracked u v }
{
    store.tracked().count2(u, v)
}

/// The tracked faces that have u, in rising order.
pub(crate) fn faces_at(alloc: Global, store: &Store, u: u32) -> Result<Vec<Face>, Memory>
    ensures { IfOk result (λ v. triples_of v.items ≡ at_point u (mesh_in store.now.parts).tracked) }
{
    let mut faces = Vec::new(alloc);
    store.tracked().at_point(u, &mut faces)?;
    rise(&mut faces);
    Ok(faces)
}

/// Puts faces into rising order, each once. Takes no memory.
fn rise(faces: &mut Vec<Face>)
    ensures ordered { Ordered (triples_of faces.new.items) }
    ensures same { (x : List ℕ) → list_any (same_triple x) (triples_of faces.new.items) ≡ list_any (same_triple x) (triples_of faces.old.items) }
{
    faces.sort_unstable();
    faces.dedup();
}

/// Whether the collapse of u into v keeps the tracked faces a surface: where some has u some has both,
/// and none that has u and not v becomes one that is tracked already.
fn keeps_surface(alloc: Global, store: &Store, u: u32, v: u32) -> Result<bool, Memory>
    requires { u ≢ v }
    ensures { IfOk result (λ b. IsTrue b ↔ KeepsSurface (mesh_in store.now.parts) u v) }
{
    let faces = faces_at(alloc, store, u)?;
    if leaves_surface(store, &faces, u, v) {
        return Ok(false);
    }
    Ok(are_moved_apart(store, &faces, u, v))
}

/// Whether there are faces, those that have u, and none has both u and v.
fn leaves_surface(store: &Store, faces: &[Face], u: u32, v: u32) -> bool
    requires { u ≢ v }
    ensures { result ≡ (nat_lt 0 (length faces.now) && nat_eq (triples_at (mesh_in store.now.parts).tracked u v) 0) }
{
    !faces.is_empty() && faces_at_edge(store, u, v) == 0
}

/// Whether none of the faces that has not v becomes one that is tracked already, with v in place of u.
fn are_moved_apart(store: &Store, faces: &[Face], u: u32, v: u32) -> bool
    ensures { result ≡ list_all (is_moved_apart (mesh_in store.now.parts).tracked u v) (triples_of faces.now) }
{
    for face in faces {
        if !is_moved_apart(store, *face, u, v) {
            return false;
        }
    }
    true
}

fn is_moved_apart(store: &Store, face: Face, u: u32, v: u32) -> bool
    ensures { result ≡ is_moved_apart (mesh_in store.now.parts).tracked u v face.0 }
{
    face.has(v) || !is_tracked(store, subst_rising(face, u, v))
}

/// The face with v in place of u, in rising order.
fn subst_rising(face: Face, u: u32, v: u32) -> Face
    ensures { result.0 ≡ rising (replaced u v face.0) }
{
    face.subst(u, v).rising()
}
