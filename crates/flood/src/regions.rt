// Which tetrahedra are outside.
ghost use Rattle.std.specs.Prelude.{◌^◌, ◌≤◌, length, IfOk};
ghost use Rattle.grid.specs.Regions.{AreRegions};
ghost use Rattle.grid.specs.Views.{corners_of, triples_of};

use crate::conditions::{open_facets, paired_facets};
use crate::facets::{Facets, chains_of, facets_of};
use crate::flood::mark_reachable;
use grid::{Face, Memory, Tet};
use std::alloc::Global;

/// One answer for each tetrahedron, in order: whether it is outside. A tetrahedron is outside where
/// it can be reached, through faces that are not tracked, from a tetrahedron with a face whose
/// reverse does not occur. The time is linear in the number of tetrahedra and tracked faces.
///
/// The tetrahedra may have any corners, equal ones too, and any faces in common. A face is tracked
/// where its corners in rising order are one of `tracked`.
pub fn outside(alloc: Global, tets: &[Tet], tracked: &[Face]) -> Result<Vec<bool>, Memory>
    requires { length tets.now ≤ 2 ^ 24 }
    ensures { IfOk result (λ flags. AreRegions (corners_of tets.now) (triples_of tracked.now) flags.items) }
{
    let Facets { triples, of } = facets_of(alloc, tets)?;
    let is_open = open_facets(alloc, &triples, tracked)?;
    let chains = chains_of(alloc, triples.len(), of)?;
    let is_paired = paired_facets(alloc, tets, &chains)?;
    let flags = mark_reachable(alloc, tets.len(), chains, is_open, &is_paired)?;
    Ok(flags)
}
