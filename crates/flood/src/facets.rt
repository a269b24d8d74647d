// The facets of tetrahedra, and the chains of half-faces on each.
ghost use Rattle.std.specs.Prelude.{◌≡◌, ◌*◌, ◌^◌, ◌<◌, ◌≤◌, length, All, IfOk};
ghost use Rattle.grid.specs.Views.{corners_of};
ghost use Rattle.flood.specs.HalfFaces.{AreFacets, IsHalfFace};
ghost use Rattle.flood.specs.Chains.{IsChained};

use grid::{Face, Memory, Tet};
use indexmap::IndexSet;
use std::alloc::Global;

// The corners of each facet in rising order, and the facet of each half-face.
#[derive(Drop)]
pub(crate) struct Facets {
    pub(crate) triples: IndexSet<Face>,
    pub(crate) of: Vec<u32>,
}

// The facet of each half-face, the last half-face on each facet, and the one before each half-face
// on its facet.
#[derive(Drop)]
pub(crate) struct Chains {
    pub(crate) of: Vec<u32>,
    pub(crate) last: Vec<Option<u32>>,
    pub(crate) before: Vec<Option<u32>>,
}

pub(crate) fn half_face(tets: &[Tet], h: usize) -> Face
    requires { h < 4 * length tets.now }
    ensures { IsHalfFace (corners_of tets.now) h result.0 }
{
    tets[h / 4].faces()[h % 4]
}

pub(crate) fn facets_of(alloc: Global, tets: &[Tet]) -> Result<Facets, Memory>
    requires { length tets.now ≤ 2 ^ 24 }
    ensures { IfOk result (λ f. AreFacets (corners_of tets.now) (4 * length tets.now) f.triples.keys f.of.items) }
{
    let count = 4 * tets.len();
    let mut triples = IndexSet::with_capacity(alloc, 2 * tets.len())?;
    let mut of = Vec::with_capacity(alloc, count)?;
    for h in 0..count {
        let (facet, _) = triples.insert_full(half_face(tets, h).rising())?;
        of.push(facet as u32)?;
    }
    Ok(Facets { triples, of })
}

// The chains of half-faces on each of so many facets.
pub(crate) fn chains_of(alloc: Global, facets: usize, of: Vec<u32>) -> Result<Chains, Memory>
    requires in_range { All (λ c. c < facets) of.items }
    requires few { length of.items ≤ 2 ^ 26 }
    ensures same { IfOk result (λ c. c.of.items ≡ of.items) }
    ensures one_last { IfOk result (λ c. length c.last.items ≡ facets) }
    ensures chained { IfOk result IsChained }
{
    let mut last = vec![in alloc; None; facets]?;
    let mut before = Vec::with_capacity(alloc, of.len())?;
    for h in 0..of.len() {
        let facet = of[h] as usize;
        before.push(last[facet])?;
        last[facet] = Some(h as u32);
    }
    Ok(Chains { of, last, before })
}
