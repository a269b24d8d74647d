// The pieces of what a list of cuts touches.
ghost use Rattle.grid.specs.Simplices.{IsTet, rising};
ghost use Rattle.grid.specs.Views.{corners_of, triples_of};
ghost use Rattle.mesh_store.specs.Exchanges.{tet_in};
ghost use Rattle.mesh_types.specs.CutLists.{AreCuts};
ghost use Rattle.mesh_types.specs.Refines.{sub_all};
ghost use Rattle.std.specs.List.{flat_map};
ghost use Rattle.std.specs.Prelude.{All, IfOk, OnOk, length, map, ◌+◌, ◌++◌, ◌<◌, ◌^◌, ◌≡◌};

use grid::{Face, Memory, Tet};
use mesh_types::Cut;
use std::alloc::Global;
use table_pieces::push_pieces;
use tet_slots::Slots;

/// The pieces of the tetrahedra of these slots, whose new points are numbered from `first` on.
pub(crate) fn tet_pieces(
    alloc: Global,
    slots: &Slots,
    numbers: &[u32],
    cuts: &[Cut],
    first: u32,
) -> Result<Vec<Tet>, Memory>
    requires there { All (λ i. i < length slots.now.slots) numbers.now }
    requires tets { All (λ s. IsTet first s.tet.0) slots.now.slots }
    requires cuts { AreCuts first cuts.now }
    requires room { first + length cuts.now < 2 ^ 32 }
    ensures { IfOk result (λ w. corners_of w.items ≡ flat_map (sub_all first cuts.now) (map (tet_in slots.now.slots) numbers.now)) }
{
    let mut all = Vec::new(alloc);
    let mut pieces = Vec::new(alloc);
    let mut spare = Vec::new(alloc);
    for slot in numbers {
        push_pieces(
            cuts,
            first,
            slots.tet(*slot),
            &mut all,
            &mut pieces,
            &mut spare,
        )?;
    }
    Ok(all)
}

/// The pieces of the faces, each in rising order, whose new points are numbered from `first` on.
pub(crate) fn face_pieces(
    alloc: Global,
    faces: &[Face],
    cuts: &[Cut],
    first: u32,
) -> Result<Vec<Face>, Memory>
    requires { first + length cuts.now < 2 ^ 32 }
    ensures { IfOk result (λ w. triples_of w.items ≡ map rising (flat_map (sub_all first cuts.now) (triples_of faces.now))) }
{
    let mut all = Vec::new(alloc);
    let mut pieces = Vec::new(alloc);
    let mut spare = Vec::new(alloc);
    for face in faces {
        pieces::split(cuts, first, *face, &mut pieces, &mut spare)?;
        push_risen(&mut all, &pieces)?;
    }
    Ok(all)
}

fn push_risen(all: &mut Vec<Face>, faces: &[Face]) -> Result<(), Memory>
    ensures { OnOk result (triples_of all.new.items ≡ triples_of all.old.items ++ map rising (triples_of faces.now)) }
{
    for face in faces {
        all.push(face.rising())?;
    }
    Ok(())
}
