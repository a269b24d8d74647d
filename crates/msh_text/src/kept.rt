//! The part of a mesh that is kept.

ghost use Rattle.std.specs.Prelude.{◌≡◌, ◌==◌, ◌<◌, ◌≤◌, ◌^◌, ◌||◌, ℕ, false, length, map, filter, slice_index_or, All, IfOk};
ghost use Rattle.grid.specs.Simplices.{has};
ghost use Rattle.msh_text.specs.FileMesh.{is_used, kept_part, kept_tets};

use crate::file_mesh::{MshMesh, MshNode, MshTet};
use grid::Memory;
use items::Items;
use std::alloc::Global;

fn kept_tets(alloc: Global, tets: &[MshTet]) -> Result<Vec<MshTet>, Memory>
    ensures { IfOk result (λ kept. kept.items ≡ kept_tets tets.now) }
{
    let mut kept = Vec::new(alloc);
    for tet in tets {
        if tet.tag == 1 {
            kept.push(*tet)?;
        }
    }
    Ok(kept)
}

// Raises a bound above the number.
fn raise_bound(bound: usize, number: u32) -> usize
    requires { bound ≤ 2 ^ 32 }
    ensures number { number < result }
    ensures bound { bound ≤ result }
    ensures small { result ≤ 2 ^ 32 }
{
    let least = number as usize + 1;
    if bound < least { least } else { bound }
}

// A bound that every node's number is below.
fn number_bound(nodes: &[MshNode]) -> usize
    ensures { All (λ n. n.number < result) nodes.now }
{
    let mut bound = 0;
    for node in nodes {
        bound = raise_bound(bound, node.number);
    }
    bound
}

// Marks the corners for which there is a mark.
fn mark_corners(marks: &mut [bool], corners: &[u32])
    ensures length { length marks.new ≡ length marks.old }
    ensures marks { (u : ℕ) → u < length marks.old → slice_index_or marks.new u false ≡ (slice_index_or marks.old u false || has corners.now u) }
{
    for corner in corners {
        let at = *corner as usize;
        if at < marks.len() {
            marks[at] = true;
        }
    }
}

// Which of the numbers below the bound some tetrahedron has.
fn corner_marks(alloc: Global, bound: usize, tets: &[MshTet]) -> Result<Vec<bool>, Memory>
    ensures length { IfOk result (λ m. length m.items ≡ bound) }
    ensures marks { IfOk result (λ m. (u : ℕ) → u < bound → slice_index_or m.items u false ≡ is_used (map (λ t. t.corners) tets.now) u) }
{
    let mut marks = vec![in alloc; false; bound]?;
    for tet in tets {
        mark_corners(&mut marks, &tet.corners);
    }
    Ok(marks)
}

fn marked_nodes(alloc: Global, nodes: &[MshNode], marks: &[bool]) -> Result<Vec<MshNode>, Memory>
    requires { All (λ n. n.number < length marks.now) nodes.now }
    ensures { IfOk result (λ marked. marked.items ≡ filter (λ n. slice_index_or marks.now n.number false) nodes.now) }
{
    let mut marked = Vec::new(alloc);
    for node in nodes {
        if marks[node.number as usize] {
            marked.push(*node)?;
        }
    }
    Ok(marked)
}

/// The kept tetrahedra and the nodes that they have, without faces.
pub fn kept_part(alloc: Global, mesh: &MshMesh) -> Result<MshMesh, Memory>
    ensures { IfOk result (λ kept. kept ≡ kept_part mesh.now) }
{
    let nodes = mesh.nodes.as_slice();
    let tets = kept_tets(alloc, mesh.tets.as_slice())?;
    let marks = corner_marks(alloc, number_bound(nodes), &tets)?;
    let nodes = marked_nodes(alloc, nodes, &marks)?;
    Ok(MshMesh {
        digits: mesh.digits,
        nodes: Items::from_vec(nodes),
        tets: Items::from_vec(tets),
        tracked: Items::new(alloc),
    })
}
