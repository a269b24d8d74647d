// Through which facets the flood may pass, and where it begins.
ghost use Rattle.std.specs.Prelude.{◌≡◌, ◌*◌, ◌<◌, ◌≤◌, true, length, slice_set, if◌then◌else◌, IfOk};
ghost use Rattle.grid.specs.Views.{corners_of, triples_of};
ghost use Rattle.flood.specs.HalfFaces.{AreOpen, ArePaired, IsBelow, is_mate, shut_at};
ghost use Rattle.flood.specs.Chains.{IsChained};

use crate::facets::{Chains, half_face};
use grid::{Face, Memory, Tet};
use indexmap::IndexSet;
use std::alloc::Global;

fn shut(is_open: &mut Vec<bool>, facet: Option<usize>)
    requires { IsBelow (length is_open.old.items) facet }
    ensures { is_open.new.items ≡ shut_at facet is_open.old.items }
{
    if let Some(facet) = facet {
        is_open[facet] = false;
    }
}

// Whether each facet is not tracked.
pub(crate) fn open_facets(
    alloc: Global,
    triples: &IndexSet<Face>,
    tracked: &[Face],
) -> Result<Vec<bool>, Memory>
    ensures { IfOk result (λ o. AreOpen (triples_of tracked.now) (length tracked.now) triples.now.keys o.items) }
{
    let mut is_open = vec![in alloc; true; triples.len()]?;
    for face in tracked {
        shut(&mut is_open, triples.get_index_of(face));
    }
    Ok(is_open)
}

// Whether the half-face is the reverse of the other one, if there is one.
fn is_mate(tets: &[Tet], h: usize, other: Option<u32>) -> bool
    requires there { h < 4 * length tets.now }
    requires other_there { IsBelow (4 * length tets.now) other }
    ensures { result ≡ is_mate (corners_of tets.now) h other }
{
    match other {
        None => false,
        Some(other) => half_face(tets, h).same(half_face(tets, other as usize).reverse()),
    }
}

fn pair(is_paired: &mut Vec<bool>, facet: usize, has_mate: bool)
    requires { facet < length is_paired.old.items }
    ensures { is_paired.new.items ≡ (if has_mate then slice_set is_paired.old.items facet true else is_paired.old.items) }
{
    if has_mate {
        is_paired[facet] = true;
    }
}

// Whether each facet has half-faces of both orientations: whether one of them is the reverse of the
// last one.
pub(crate) fn paired_facets(
    alloc: Global,
    tets: &[Tet],
    chains: &Chains,
) -> Result<Vec<bool>, Memory>
    requires chained { IsChained chains.now }
    requires four_each { length chains.now.of.items ≡ 4 * length tets.now }
    ensures { IfOk result (λ p. ArePaired (corners_of tets.now) chains.now.of.items (length chains.now.of.items) chains.now.last.items p.items) }
{
    let mut is_paired = vec![in alloc; false; chains.last.len()]?;
    for h in 0..chains.of.len() {
        let facet = chains.of[h] as usize;
        pair(&mut is_paired, facet, is_mate(tets, h, chains.last[facet]));
    }
    Ok(is_paired)
}
