// The flood: from loose faces through facets that are open.
ghost use Rattle.std.specs.Prelude.{◌≡◌, ℕ, ◌*◌, ◌/◌, ◌^◌, ◌<◌, ◌≤◌, true, false, [], length, replicate, slice_index_or, IfOk, OnOk};
ghost use Rattle.flood.specs.HalfFaces.{facet_at};
ghost use Rattle.flood.specs.Chains.{IsChained};
ghost use Rattle.flood.specs.Floods.{AreReachable, CanPass, FillsFacets, is_marked, IsBehind, IsFilled, IsLoose, IsOn, Reaches};

use crate::facets::Chains;
use grid::Memory;
use std::alloc::Global;
use std::marker::Model;

// How far a flood has come: the half-faces on each facet, whether each facet waits to be passed, a
// mark for each tetrahedron of the mesh that was reached, and their numbers in the order reached.
#[derive(Drop)]
struct Flood {
    chains: Chains,
    waiting: Vec<bool>,
    marks: Vec<bool>,
    order: Vec<u32>,
}

impl Model for Flood {
    ghost use Rattle.flood.specs.Floods.{IsFlood, State};

    ghost Value = { State };

    ghost view = { λ f. record { facet_of = f.chains.of.items; waiting = f.waiting.items; marks = f.marks.items; order = f.order.items } };

    ghost invariant = { λ f. IsFlood f.chains f.waiting.items f.marks.items f.order.items };
}

impl Flood {
    // Nothing is reached yet, and the open facets wait.
    fn new(alloc: Global, tets: usize, chains: Chains, is_open: Vec<bool>) -> Result<Flood, Memory>
        requires chained { IsChained chains }
        requires one_each { length is_open.items ≡ length chains.last.items }
        requires four_each { length chains.of.items ≡ 4 * tets }
        requires few { tets ≤ 2 ^ 24 }
        ensures { IfOk result (λ f. f ≡ record { facet_of = chains.of.items; waiting = is_open.items; marks = replicate tets false; order = [] }) }
    {
        let marks = vec![in alloc; false; tets]?;
        let order = Vec::with_capacity(alloc, tets)?;
        Ok(Flood {
            chains,
            waiting: is_open,
            marks,
            order,
        })
    }

    fn reach(&mut self, tet: usize) -> Result<(), Memory>
        requires { tet < length self.old.marks }
        ensures reaches { OnOk result (Reaches (λ i. i ≡ tet) self.old self.new) }
        ensures waiting { OnOk result (self.new.waiting ≡ self.old.waiting) }
        ensures marked { OnOk result (is_marked self.new.marks tet ≡ true) }
    {
        if self.marks[tet] {
            return Ok(());
        }
        self.order.push(tet as u32)?;
        self.marks[tet] = true;
        Ok(())
    }

    // Reaches each tetrahedron with a half-face on the facet.
    fn reach_facet(&mut self, facet: usize) -> Result<(), Memory>
        requires { facet < length self.old.waiting }
        ensures reaches { OnOk result (Reaches (IsOn self.old.facet_of facet) self.old self.new) }
        ensures waiting { OnOk result (self.new.waiting ≡ self.old.waiting) }
        ensures filled { OnOk result (IsFilled self.old.facet_of self.new.marks facet) }
    {
        let mut next = self.chains.last[facet];
        while let Some(h) = next {
            self.reach(h as usize / 4)?;
            next = self.chains.before[h as usize];
        }
        Ok(())
    }

    // Reaches each tetrahedron on the facet, if the facet still waits.
    fn reach_through(&mut self, facet: usize) -> Result<(), Memory>
        requires { facet < length self.old.waiting }
        ensures reaches { OnOk result (Reaches (CanPass self.old.facet_of self.old.waiting facet) self.old self.new) }
        ensures fills { OnOk result (FillsFacets self.old self.new) }
        ensures done { OnOk result (slice_index_or self.new.waiting facet false ≡ false) }
    {
        if !self.waiting[facet] {
            return Ok(());
        }
        self.waiting[facet] = false;
        self.reach_facet(facet)?;
        Ok(())
    }

    // Reaches each tetrahedron behind a facet of this one that still waits.
    fn reach_from(&mut self, tet: usize) -> Result<(), Memory>
        requires { tet < length self.old.marks }
        ensures reaches { OnOk result (Reaches (IsBehind self.old.facet_of self.old.waiting tet) self.old self.new) }
        ensures fills { OnOk result (FillsFacets self.old self.new) }
        ensures done { OnOk result ((c : ℕ) → IsOn self.old.facet_of c tet → slice_index_or self.new.waiting c false ≡ false) }
    {
        // The type says what holds of the fields before and after.
        let _ = &self.marks;
        for h in 4 * tet..4 * tet + 4 {
            let facet = self.chains.of[h] as usize;
            self.reach_through(facet)?;
        }
        Ok(())
    }

    // Reaches the tetrahedra that are reached, through facets that wait, from those that are marked.
    fn reach_all(&mut self) -> Result<(), Memory>
        ensures one_each { OnOk result (length self.new.marks ≡ length self.old.marks) }
        ensures reachable { OnOk result (AreReachable self.old.facet_of self.old.waiting (λ i. is_marked self.old.marks i ≡ true) self.new.marks) }
    {
        let mut done = 0;
        while done < self.order.len() {
            let tet = self.order[done] as usize;
            self.reach_from(tet)?;
            done += 1;
        }
        Ok(())
    }

    // Reaches the tetrahedron of the half-face, if its facet is not paired.
    fn reach_if_loose(&mut self, is_paired: &[bool], h: usize) -> Result<(), Memory>
        requires there { h < length self.old.facet_of }
        requires one_each { length is_paired.now ≡ length self.old.waiting }
        ensures reaches { OnOk result (Reaches (IsLoose self.old.facet_of is_paired.now) self.old self.new) }
        ensures waiting { OnOk result (self.new.waiting ≡ self.old.waiting) }
        ensures marked { OnOk result (slice_index_or is_paired.now (facet_at self.old.facet_of h) false ≡ false → is_marked self.new.marks (h / 4) ≡ true) }
    {
        if is_paired[self.chains.of[h] as usize] {
            return Ok(());
        }
        self.reach(h / 4)?;
        Ok(())
    }

    // Reaches the tetrahedra with a half-face on a facet that is not paired.
    fn reach_loose(&mut self, is_paired: &[bool]) -> Result<(), Memory>
        requires { length is_paired.now ≡ length self.old.waiting }
        ensures reaches { OnOk result (Reaches (IsLoose self.old.facet_of is_paired.now) self.old self.new) }
        ensures waiting { OnOk result (self.new.waiting ≡ self.old.waiting) }
        ensures marked { OnOk result ((i : ℕ) → IsLoose self.old.facet_of is_paired.now i → is_marked self.new.marks i ≡ true) }
    {
        for h in 0..self.chains.of.len() {
            self.reach_if_loose(is_paired, h)?;
        }
        Ok(())
    }

    fn into_marks(self) -> Vec<bool>
        ensures { result.items ≡ self.marks }
    {
        self.marks
    }
}

// A mark for each of so many tetrahedra: whether it is reached, through open facets, from one with
// a half-face on a facet that is not paired.
pub(crate) fn mark_reachable(
    alloc: Global,
    tets: usize,
    chains: Chains,
    is_open: Vec<bool>,
    is_paired: &[bool],
) -> Result<Vec<bool>, Memory>
    requires chained { IsChained chains }
    requires one_open { length is_open.items ≡ length chains.last.items }
    requires one_paired { length is_paired.now ≡ length chains.last.items }
    requires four_each { length chains.of.items ≡ 4 * tets }
    requires few { tets ≤ 2 ^ 24 }
    ensures one_each { IfOk result (λ marks. length marks.items ≡ tets) }
    ensures reachable { IfOk result (λ marks. AreReachable chains.of.items is_open.items (IsLoose chains.of.items is_paired.now) marks.items) }
{
    let mut flood = Flood::new(alloc, tets, chains, is_open)?;
    flood.reach_loose(is_paired)?;
    flood.reach_all()?;
    Ok(flood.into_marks())
}
