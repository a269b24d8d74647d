// Refinement by a list of cuts.
ghost use Rattle.grid.specs.Limits.{most_points};
ghost use Rattle.grid.specs.Meshes.{IsWithinLimits};
ghost use Rattle.grid.specs.Simplices.{rising};
ghost use Rattle.grid.specs.Views.{corners_of, triples_of};
ghost use Rattle.mesh_types.specs.Refines.{in_order as in_order_of};
ghost use Rattle.mesh_types.specs.Refines.{is_touched, refine, sub_all};
ghost use Rattle.mesh_types.specs.Views.{mesh_of};
ghost use Rattle.std.specs.List.{filter, flat_map};
ghost use Rattle.std.specs.Prelude.{IfOk, OnOk, [], ◌∷◌, length, map, not, ◌+◌, ◌++◌, ◌<◌, ◌≤◌, ◌^◌, ◌≡◌};

use crate::order::in_order;
use grid::{Face, Memory, Point, Tet};
use items::Items;
use mesh_types::{Cut, Lists};
use pieces::{is_touched, split};
use std::alloc::Global;

// The points, and then those of the cuts.
fn points_of(alloc: Global, points: &[Point], cuts: &[Cut]) -> Result<Vec<Point>, Memory>
    ensures { IfOk result (λ v. v.items ≡ points.now ++ map (λ e. e.at) cuts.now) }
{
    let mut all = Vec::from_slice(alloc, points)?;
    for cut in cuts {
        all.push(cut.at)?;
    }
    Ok(all)
}

fn push_untouched(all: &mut Vec<Tet>, cuts: &[Cut], tet: Tet) -> Result<(), Memory>
    ensures { OnOk result (corners_of all.new.items ≡ corners_of all.old.items ++ filter (λ x. not (is_touched cuts.now x)) (tet.0 ∷ [])) }
{
    if is_touched(cuts, tet) {
        return Ok(());
    }
    all.push(tet)?;
    Ok(())
}

// The tetrahedra that no cut touches.
fn untouched_tets(alloc: Global, cuts: &[Cut], tets: &[Tet]) -> Result<Vec<Tet>, Memory>
    ensures { IfOk result (λ v. corners_of v.items ≡ filter (λ x. not (is_touched cuts.now x)) (corners_of tets.now)) }
{
    let mut all = Vec::new(alloc);
    for tet in tets {
        push_untouched(&mut all, cuts, *tet)?;
    }
    Ok(all)
}

fn push_pieces(
    all: &mut Vec<Tet>,
    cuts: &[Cut],
    first: u32,
    tet: Tet,
    room: &mut Vec<Tet>,
    spare: &mut Vec<Tet>,
) -> Result<(), Memory>
    requires { first + length cuts.now < 2 ^ 32 }
    ensures { OnOk result (corners_of all.new.items ≡ corners_of all.old.items ++ flat_map (sub_all first cuts.now) (filter (λ x. is_touched cuts.now x) (tet.0 ∷ []))) }
{
    if !is_touched(cuts, tet) {
        return Ok(());
    }
    split(cuts, first, tet, room, spare)?;
    all.extend_from_slice(room)?;
    Ok(())
}

// The pieces of the tetrahedra that a cut touches.
pub(crate) fn pieces_of(
    alloc: Global,
    cuts: &[Cut],
    first: u32,
    tets: &[Tet],
) -> Result<Vec<Tet>, Memory>
    requires { first + length cuts.now < 2 ^ 32 }
    ensures { IfOk result (λ v. corners_of v.items ≡ flat_map (sub_all first cuts.now) (filter (λ x. is_touched cuts.now x) (corners_of tets.now))) }
{
    let mut all = Vec::new(alloc);
    let mut room = Vec::new(alloc);
    let mut spare = Vec::new(alloc);
    for tet in tets {
        push_pieces(&mut all, cuts, first, *tet, &mut room, &mut spare)?;
    }
    Ok(all)
}

fn push_rising(all: &mut Vec<Face>, faces: &[Face]) -> Result<(), Memory>
    ensures { OnOk result (triples_of all.new.items ≡ triples_of all.old.items ++ map rising (triples_of faces.now)) }
{
    for face in faces {
        all.push(face.rising())?;
    }
    Ok(())
}

// The rising triples of the pieces of faces.
fn triples_split(
    alloc: Global,
    cuts: &[Cut],
    first: u32,
    faces: &[Face],
) -> Result<Vec<Face>, Memory>
    requires { first + length cuts.now < 2 ^ 32 }
    ensures { IfOk result (λ v. triples_of v.items ≡ map rising (flat_map (sub_all first cuts.now) (triples_of faces.now))) }
{
    let mut all = Vec::new(alloc);
    let mut room = Vec::new(alloc);
    let mut spare = Vec::new(alloc);
    for face in faces {
        split(cuts, first, *face, &mut room, &mut spare)?;
        push_rising(&mut all, &room)?;
    }
    Ok(all)
}

// A count of more than 32 bits is answered as want of memory, which that many tetrahedra would be.
pub(crate) fn made_after(made: u32, pieces: usize) -> Result<u32, Memory>
    ensures { IfOk result (λ n. n ≡ made + pieces) }
{
    if pieces > (u32::MAX - made) as usize {
        return Err(Memory);
    }
    Ok(made + pieces as u32)
}

// The tetrahedra of a refined mesh, and how many of them are new.
#[derive(Drop)]
struct Refined {
    tets: Vec<Tet>,
    new: usize,
}

fn refined_tets(alloc: Global, cuts: &[Cut], first: u32, tets: &[Tet]) -> Result<Refined, Memory>
    requires { first + length cuts.now < 2 ^ 32 }
    ensures tets { IfOk result (λ r. corners_of r.tets.items ≡ filter (λ x. not (is_touched cuts.now x)) (corners_of tets.now) ++ flat_map (sub_all first cuts.now) (filter (λ x. is_touched cuts.now x) (corners_of tets.now))) }
    ensures new { IfOk result (λ r. r.new ≡ length (flat_map (sub_all first cuts.now) (filter (λ x. is_touched cuts.now x) (corners_of tets.now)))) }
{
    let mut all = untouched_tets(alloc, cuts, tets)?;
    let pieces = pieces_of(alloc, cuts, first, tets)?;
    let new = pieces.len();
    all.extend_from_slice(&pieces)?;
    Ok(Refined { tets: all, new })
}

// The rising triples of the pieces of faces, in rising order.
fn refined_triples(
    alloc: Global,
    cuts: &[Cut],
    first: u32,
    faces: &[Face],
) -> Result<Vec<Face>, Memory>
    requires { first + length cuts.now < 2 ^ 32 }
    ensures { IfOk result (λ v. triples_of v.items ≡ in_order_of (map rising (flat_map (sub_all first cuts.now) (triples_of faces.now)))) }
{
    let triples = triples_split(alloc, cuts, first, faces)?;
    let ordered = in_order(alloc, &triples)?;
    Ok(ordered)
}

pub(crate) fn count_of(points: &[Point]) -> u32
    requires { length points.now ≤ most_points }
    ensures { result ≡ length points.now }
{
    points.len() as u32
}

/// The mesh refined by the cuts: their points are added, the tetrahedra that no cut touches stay and
/// the pieces of the others follow, and tracked faces are split likewise.
pub fn refine_plain(alloc: Global, mesh: &Lists, cuts: &[Cut]) -> Result<Lists, Memory>
    requires within { IsWithinLimits (mesh_of mesh.now) }
    requires few { length cuts.now ≤ 2 ^ 31 }
    ensures { IfOk result (λ m. mesh_of m ≡ refine (mesh_of mesh.now) cuts.now) }
{
    let first = count_of(mesh.points.as_slice());
    let points = points_of(alloc, mesh.points.as_slice(), cuts)?;
    let Refined { tets, new } = refined_tets(alloc, cuts, first, mesh.tets.as_slice())?;
    let tracked = refined_triples(alloc, cuts, first, mesh.tracked.as_slice())?;
    let made = made_after(mesh.made, new)?;
    Ok(Lists {
        points: Items::from_vec(points),
        tets: Items::from_vec(tets),
        tracked: Items::from_vec(tracked),
        made,
    })
}
