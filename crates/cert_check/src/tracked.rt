//! Whether the tracked triangles are faces.

ghost use Rattle.std.specs.Prelude.{◌≡◌, ℕ, ◌+◌, ◌^◌, ◌≤◌, ◌++◌, List, length, IfOk, OnOk};
ghost use Rattle.std.specs.List.{Contains};
ghost use Rattle.grid.specs.Simplices.{all_faces, rising};
ghost use Rattle.grid.specs.Views.{corners_of, triples_of};
ghost use Rattle.cert_check.specs.Faults.{IsFace};
ghost use Rattle.cert_check.specs.Firsts.{IsFirstOrNone};
ghost use Rattle.cert_check.specs.Searches.{AreTriplesOf};

use grid::{Face, Memory, Tet};
use indexmap::IndexSet;
use std::alloc::Global;

/// Adds the triples of the faces, their corners in rising order.
fn add_triples(triples: &mut IndexSet<Face>, faces: &[Face; 4]) -> Result<(), Memory>
    ensures { OnOk result ((before : List (List ℕ)) → AreTriplesOf before triples.old.keys → AreTriplesOf (before ++ triples_of faces.now) triples.new.keys) }
{
    for face in faces {
        triples.insert(face.rising())?;
    }
    Ok(())
}

/// The triples of all faces of the tetrahedra.
fn triples_of(alloc: Global, tets: &[Tet]) -> Result<IndexSet<Face>, Memory>
    ensures { IfOk result (λ t. AreTriplesOf (all_faces (corners_of tets.now)) t.keys) }
{
    let mut triples = IndexSet::new(alloc);
    for tet in tets {
        add_triples(&mut triples, &tet.faces())?;
    }
    Ok(triples)
}

/// The place, from 1, of the first triangle that is no face of a tetrahedron.
pub fn first_not_a_face(
    alloc: Global,
    tets: &[Tet],
    tracked: &[Face],
) -> Result<Option<u32>, Memory>
    requires { length tracked.now ≤ 2 ^ 24 }
    ensures { IfOk result (IsFirstOrNone (length tracked.now) (IsFace (corners_of tets.now) tracked.now) (λ i. i + 1)) }
{
    let triples = triples_of(alloc, tets)?;
    for i in 0..tracked.len() {
        if !triples.contains(&tracked[i]) {
            return Ok(Some(i as u32 + 1));
        }
    }
    Ok(None)
}
