// The lists of a change: the tetrahedra and the faces that come and go.
ghost use Rattle.grid.specs.Simplices.{rising};
ghost use Rattle.grid.specs.Views.{corners_of, triples_of};
ghost use Rattle.mesh_store.specs.Exchanges.{put_in, tet_in};
ghost use Rattle.std.specs.Prelude.{All, IfOk, OnOk, [], length, map, ◌++◌, ◌<◌, ◌∷◌, ◌≡◌};

use grid::{Face, Memory, Tet};
use std::alloc::Global;
use tet_slots::Slots;

/// The tetrahedra of these slots that have not v, with v in place of u.
pub(crate) fn moved_tets(
    alloc: Global,
    slots: &Slots,
    gone: &[u32],
    u: u32,
    v: u32,
) -> Result<Vec<Tet>, Memory>
    requires { All (λ i. i < length slots.now.slots) gone.now }
    ensures { IfOk result (λ w. corners_of w.items ≡ put_in u v (map (tet_in slots.now.slots) gone.now)) }
{
    let mut tets = Vec::new(alloc);
    for slot in gone {
        push_moved(&mut tets, slots.tet(*slot), u, v)?;
    }
    Ok(tets)
}

fn push_moved(tets: &mut Vec<Tet>, tet: Tet, u: u32, v: u32) -> Result<(), Memory>
    ensures { OnOk result (corners_of tets.new.items ≡ corners_of tets.old.items ++ put_in u v (tet.0 ∷ [])) }
{
    if !tet.has(v) {
        tets.push(tet.subst(u, v))?;
    }
    Ok(())
}

/// The faces that have not v, with v in place of u, each in rising order.
pub(crate) fn moved_faces(
    alloc: Global,
    faces: &[Face],
    u: u32,
    v: u32,
) -> Result<Vec<Face>, Memory>
    ensures { IfOk result (λ w. triples_of w.items ≡ map rising (put_in u v (triples_of faces.now))) }
{
    let mut moved = Vec::new(alloc);
    for face in faces {
        push_risen(&mut moved, *face, u, v)?;
    }
    Ok(moved)
}

fn push_risen(moved: &mut Vec<Face>, face: Face, u: u32, v: u32) -> Result<(), Memory>
    ensures { OnOk result (triples_of moved.new.items ≡ triples_of moved.old.items ++ map rising (put_in u v (face.0 ∷ []))) }
{
    if !face.has(v) {
        moved.push(face.subst(u, v).rising())?;
    }
    Ok(())
}
