// The lists of a mesh.
ghost use Rattle.grid.specs.Views.{corners_of};
ghost use Rattle.mesh_store.specs.Parts.{live_tets};
ghost use Rattle.std.specs.Prelude.{IfOk, OnOk, [], length, ◌++◌, ◌<◌, ◌∷◌, ◌≡◌};
ghost use Rattle.tet_slots.specs.Slots.{slot_at};

use grid::{Memory, Point, Tet};
use std::alloc::Global;
use tet_slots::Slots;

/// The points.
pub(crate) fn listed_points(alloc: Global, slots: &Slots) -> Result<Vec<Point>, Memory>
    ensures { IfOk result (λ v. v.items ≡ slots.now.points) }
{
    let mut points = Vec::new(alloc);
    for i in 0..slots.points() {
        points.push(slots.point(i))?;
    }
    Ok(points)
}

/// The tetrahedra of the live slots.
pub(crate) fn listed_tets(alloc: Global, slots: &Slots) -> Result<Vec<Tet>, Memory>
    ensures { IfOk result (λ v. corners_of v.items ≡ live_tets slots.now.slots) }
{
    let mut tets = Vec::new(alloc);
    for i in 0..slots.made() {
        push_live(&mut tets, slots, i)?;
    }
    Ok(tets)
}

fn push_live(tets: &mut Vec<Tet>, slots: &Slots, slot: u32) -> Result<(), Memory>
    requires { slot < length slots.now.slots }
    ensures { OnOk result (corners_of tets.new.items ≡ corners_of tets.old.items ++ live_tets (slot_at slots.now.slots slot ∷ [])) }
{
    if slots.live(slot) {
        tets.push(slots.tet(slot))?;
    }
    Ok(())
}
