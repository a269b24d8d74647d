// The candidates of a kind among the tries that begin with a point.
ghost use Rattle.grid.specs.Views.{corners_of};
ghost use Rattle.improve.specs.Listing.{HasSameLowest, HaveSameLowestWith};
ghost use Rattle.improve.specs.Search.{tries_at_corner, tries_at_tet};
ghost use Rattle.mesh_types.specs.Tries.{is_candidate};
ghost use Rattle.std.specs.List.{filter, flat_map};
ghost use Rattle.std.specs.Prelude.{OnOk, [], map, ◌++◌, ◌∷◌, ◌≡◌};

use crate::kind::Kind;
use crate::repeats::is_among;
use crate::star::{is_candidate, may_be_candidate};
use grid::{Memory, Tet};
use mesh_types::Try;

/// Makes `tries` the candidates of a kind that begin with u, as the tetrahedra that have u propose them,
/// each once.
pub(crate) fn list_tries(
    star: &[Tet],
    kind: Kind,
    u: u32,
    tries: &mut Vec<Try>,
) -> Result<(), Memory>
    ensures { OnOk result (HasSameLowest tries.new.items (filter (is_candidate (corners_of star.now)) (flat_map (tries_at_tet kind u) (corners_of star.now)))) }
{
    tries.clear();
    for tet in star {
        push_of_tet(star, kind, u, *tet, tries)?;
    }
    Ok(())
}

fn push_of_tet(
    star: &[Tet],
    kind: Kind,
    u: u32,
    tet: Tet,
    tries: &mut Vec<Try>,
) -> Result<(), Memory>
    ensures { OnOk result (HaveSameLowestWith tries.new.items tries.old.items (filter (is_candidate (corners_of star.now)) (tries_at_tet kind u tet.0))) }
{
    for v in &tet.0 {
        push_of_corner(star, kind, u, tet, *v, tries)?;
    }
    Ok(())
}

fn push_of_corner(
    star: &[Tet],
    kind: Kind,
    u: u32,
    tet: Tet,
    v: u32,
    tries: &mut Vec<Try>,
) -> Result<(), Memory>
    ensures { OnOk result (HaveSameLowestWith tries.new.items tries.old.items (filter (is_candidate (corners_of star.now)) (tries_at_corner kind u tet.0 v))) }
{
    match kind {
        Kind::Split => push_candidate(star, Try::Split(u, v), tries),
        Kind::Collapse => push_candidate(star, Try::Collapse(u, v), tries),
        Kind::EdgeSwap => push_candidate(star, Try::EdgeSwap(u, v), tries),
        Kind::FaceSwap => push_of_edge(star, u, v, tet, tries),
        Kind::Shift => push_shifts(star, u, tries),
    }
}

fn push_of_edge(star: &[Tet], u: u32, v: u32, tet: Tet, tries: &mut Vec<Try>) -> Result<(), Memory>
    ensures { OnOk result (HaveSameLowestWith tries.new.items tries.old.items (filter (is_candidate (corners_of star.now)) (map (λ w. Try.FaceSwap u v w) tet.0))) }
{
    for w in &tet.0 {
        push_candidate(star, Try::FaceSwap(u, v, *w), tries)?;
    }
    Ok(())
}

fn push_shifts(star: &[Tet], u: u32, tries: &mut Vec<Try>) -> Result<(), Memory>
    ensures { OnOk result (HaveSameLowestWith tries.new.items tries.old.items (filter (is_candidate (corners_of star.now)) (Try.Shift u 0 ∷ Try.Shift u 1 ∷ []))) }
{
    push_candidate(star, Try::Shift(u, 0), tries)?;
    push_candidate(star, Try::Shift(u, 1), tries)
}

fn push_candidate(star: &[Tet], t: Try, tries: &mut Vec<Try>) -> Result<(), Memory>
    ensures { OnOk result (HaveSameLowestWith tries.new.items tries.old.items (filter (is_candidate (corners_of star.now)) (t ∷ []))) }
{
    if !may_be_candidate(t) {
        return Ok(());
    }
    if is_among(tries, t) {
        return Ok(());
    }
    if is_candidate(star, t) {
        tries.push(t)?;
    }
    Ok(())
}
