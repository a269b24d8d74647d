// From a soup to its mesh.
ghost use Rattle.grid.specs.Boxes.{IsTriInBox};
ghost use Rattle.grid.specs.Limits.{IsCells, IsSide, largest_side, most_epsilon};
ghost use Rattle.mesher.specs.Meshed.{IsMeshed};
ghost use Rattle.std.specs.Prelude.{All, IfOk, length, pos, ◌*◌, ◌^◌, ◌≤ℤ◌, ◌≤◌};

use crate::coverings::coverings;
use crate::parts::{First, first_part, second_part};
use background::lattice;
use envelope_tree::Envelope;
use grid::Memory;
use items::Items;
use mesh_store::Store;
use mesh_types::{End, Journal, Lists, Outcome};
use report_text::{Covering, Second};
use soup::Soup;
use std::alloc::Global;

/// The mesh of a soup, what became of each triangle and of each try, why the tries ended, the second part
/// where a triangle was rolled back, and the certificates of the tracked faces, which are named by the
/// numbers of the mesh file.
#[derive(Debug, Drop)]
pub struct Meshed {
    pub mesh: Lists,
    pub outcomes: Items<Outcome>,
    pub journal: Journal,
    pub end: End,
    pub second: Option<Second>,
    pub faces: Items<Covering>,
}

/// Meshes a placed soup: fills its box with the background lattice of `cells` cubes along each axis,
/// inserts every triangle in turn, and improves the mesh by at most `budget` tries. Where triangles were
/// rolled back it inserts these once more, and improves the mesh by what is left of the budget. Then it
/// finds the certificate of each tracked face for `epsilon` grid steps.
pub fn mesh_soup(
    alloc: Global,
    soup: &Soup,
    epsilon: u32,
    cells: u32,
    budget: u32,
) -> Result<Meshed, Memory>
    requires cells { IsCells cells }
    requires side { IsSide soup.now.side }
    requires room { pos (4 * cells) ≤ℤ soup.now.side }
    requires few { length soup.now.triangles ≤ 2 ^ 24 }
    requires inside { All (IsTriInBox largest_side) soup.now.triangles }
    requires e_least { 1 ≤ epsilon }
    requires e_most { epsilon ≤ most_epsilon }
    requires budget_most { budget ≤ 1000000 }
    ensures { IfOk result (IsMeshed soup.now epsilon cells budget) }
{
    let env = Envelope::build(alloc, soup.triangles.as_slice())?;
    let start = lattice(alloc, soup.side, cells)?;
    let mut store = Store::new(alloc, &start, soup.side)?;
    drop(start);
    let First {
        outcomes,
        journal,
        end,
    } = first_part(alloc, &mut store, &env, epsilon, budget)?;
    let left = budget - journal.lines.len() as u32;
    let second = second_part(alloc, &mut store, &env, &outcomes, epsilon, left)?;
    // The type says what holds of the store.
    let _ = store.slots();
    let mesh = store.lists(alloc)?;
    let faces = coverings(
        alloc,
        &env,
        mesh.points.as_slice(),
        mesh.tracked.as_slice(),
        epsilon,
    )?;
    Ok(Meshed {
        mesh,
        outcomes: Items::from_vec(outcomes),
        journal,
        end,
        second,
        faces: Items::from_vec(faces),
    })
}
