// The candidates at a point, kept while the mesh stays the same.
ghost use Rattle.improve.specs.Listing.{HasSameLowest, IsCurrent, candidates_at};
ghost use Rattle.mesh_store.specs.Parts.{live_tets};
ghost use Rattle.mesh_types.specs.Journals.{is_kept};
ghost use Rattle.std.specs.Prelude.{IsTrue, List, OnOk, false, true, ℕ, ◌≡◌};

use crate::kind::Kind;
use crate::listing::list_tries;
use crate::star::find_star;
use grid::{Memory, Tet};
use mesh_types::{Try, Verdict};
use std::alloc::Global;
use tet_slots::Slots;

/// The candidates of one kind that begin with one point, as they were listed last, whether they are
/// still those of the mesh, and room to list them in.
#[derive(Debug, Drop)]
pub(crate) struct Listed {
    pub(crate) is_current: bool,
    pub(crate) kind: Kind,
    pub(crate) point: u32,
    pub(crate) tries: Vec<Try>,
    star: Vec<Tet>,
    numbers: Vec<u32>,
}

/// Nothing is listed yet.
pub(crate) fn none_listed(alloc: Global) -> Listed
    ensures { (tets : List (List ℕ)) → IsCurrent tets result }
{
    Listed {
        is_current: false,
        kind: Kind::Split,
        point: 0,
        tries: Vec::new(alloc),
        star: Vec::new(alloc),
        numbers: Vec::new(alloc),
    }
}

/// Lists the candidates of a kind that begin with u, unless they are listed.
pub(crate) fn list_at(slots: &Slots, listed: &mut Listed, kind: Kind, u: u32) -> Result<(), Memory>
    requires { IsCurrent (live_tets slots.now.slots) listed.old }
    ensures current { OnOk result (IsCurrent (live_tets slots.now.slots) listed.new) }
    ensures tries { OnOk result (HasSameLowest listed.new.tries.items (candidates_at (live_tets slots.now.slots) kind u)) }
{
    if is_listed(listed, kind, u) {
        return Ok(());
    }
    list_anew(slots, listed, kind, u)
}

/// Whether the candidates of the kind that begin with u are listed.
fn is_listed(listed: &Listed, kind: Kind, u: u32) -> bool
    ensures current { IsTrue result → listed.now.is_current ≡ true }
    ensures kind { IsTrue result → listed.now.kind ≡ kind }
    ensures point { IsTrue result → listed.now.point ≡ u }
{
    if !listed.is_current {
        return false;
    }
    if listed.kind == kind {
        listed.point == u
    } else {
        false
    }
}

fn list_anew(slots: &Slots, listed: &mut Listed, kind: Kind, u: u32) -> Result<(), Memory>
    ensures current { OnOk result (IsCurrent (live_tets slots.now.slots) listed.new) }
    ensures tries { OnOk result (HasSameLowest listed.new.tries.items (candidates_at (live_tets slots.now.slots) kind u)) }
{
    find_star(slots, u, &mut listed.numbers, &mut listed.star)?;
    list_tries(&listed.star, kind, u, &mut listed.tries)?;
    listed.kind = kind;
    listed.point = u;
    listed.is_current = true;
    Ok(())
}

/// After a kept try what is listed counts no more.
pub(crate) fn forget_if_kept(listed: &mut Listed, verdict: Verdict)
    ensures kept { is_kept verdict ≡ true → listed.new.is_current ≡ false }
    ensures same { is_kept verdict ≡ false → listed.new ≡ listed.old }
{
    match verdict {
        Verdict::Kept => listed.is_current = false,
        Verdict::Refused(_) => {}
    }
}
