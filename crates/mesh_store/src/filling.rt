// The parts of a new store.
ghost use Rattle.grid.specs.Limits.{most_points, most_made};
ghost use Rattle.grid.specs.Meshes.{IsTriple, Ordered};
ghost use Rattle.grid.specs.Simplices.{IsTet};
ghost use Rattle.grid.specs.Views.{corners_of, triples_of};
ghost use Rattle.mesh_store.specs.Parts.{live_slot};
ghost use Rattle.std.specs.Prelude.{All, IfOk, false, length, map, true, ◌≡◌, ◌≤◌};

use grid::{Face, Memory};
use mesh_types::Lists;
use std::alloc::Global;
use tet_slots::Slots;
use tracked::Tracked;

/// The points and the tetrahedra, all live.
pub(crate) fn fill_slots(alloc: Global, mesh: &Lists) -> Result<Slots, Memory>
    requires points_few { length mesh.now.points ≤ most_points }
    requires tets_few { length mesh.now.tets ≤ most_made }
    requires corners { All (λ t. IsTet (length mesh.now.points) t.0) mesh.now.tets }
    ensures { IfOk result (λ s. s ≡ record { points = mesh.now.points; slots = map live_slot (corners_of mesh.now.tets); forgotten = map (λ _. false) mesh.now.tets }) }
{
    let mut slots = Slots::new(alloc);
    for point in mesh.points.as_slice() {
        slots.add_point(*point)?;
    }
    for tet in mesh.tets.as_slice() {
        slots.add_tet(*tet)?;
    }
    Ok(slots)
}

/// The faces, all in.
pub(crate) fn tracking(alloc: Global, faces: &[Face], points: usize) -> Result<Tracked, Memory>
    requires triples { All (λ f. IsTriple points f.0) faces.now }
    requires ordered { Ordered (triples_of faces.now) }
    ensures { IfOk result (λ t. t ≡ map (λ f. (f, true)) faces.now) }
{
    let mut tracked = Tracked::new(alloc);
    for face in faces {
        let _ = tracked.add(*face)?;
    }
    Ok(tracked)
}
