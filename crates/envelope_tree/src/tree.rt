// The nodes of the tree, and how they are made.
ghost use Rattle.grid.specs.Limits.{largest_side};
ghost use Rattle.std.specs.Prelude.{◌≡◌, ◌^◌, ◌+◌, ◌<◌, ◌≤◌, ℕ, [], length, All, IfOk};
ghost use Rattle.grid.specs.Boxes.{IsTriInBox};
ghost use Rattle.envelope_tree.specs.Bounds.{AreInGrid};
ghost use Rattle.envelope_tree.specs.Trees.{Fits, AreNodes, IsTree, Grows};

use crate::order::in_order;
use crate::summary::Summary;
use grid::{Memory, Tri};
use smallvec::SmallVec;
use std::alloc::Global;

/// The most triangles of a leaf.
const LEAF: usize = 8;

/// A node of the tree. The nodes stand in postorder: a node and all below it are those from `start`
/// up to itself.
#[derive(Debug, Drop)]
pub struct Node {
    pub summary: Summary,
    pub start: usize,
    /// The numbers of its triangles, if it is a leaf; else none.
    pub numbers: SmallVec<u32, 8>,
}

/// The nodes of a tree of all triangles, in postorder.
pub fn nodes_of(alloc: Global, triangles: &[Tri]) -> Result<Vec<Node>, Memory>
    requires few { length triangles.now ≤ 2 ^ 24 }
    requires triangles_in { All (IsTriInBox largest_side) triangles.now }
    ensures { IfOk result (λ v. IsTree triangles.now v.items) }
{
    let mut nodes = Vec::new(alloc);
    if triangles.is_empty() {
        return Ok(nodes);
    }
    let numbers = in_order(alloc, triangles)?;
    add(&mut nodes, alloc, triangles, numbers.as_slice())?;
    Ok(nodes)
}

/// Adds a tree of the triangles of these numbers, whose depth is at most that of halving their count
/// down to a leaf. The front half is added last: a search goes from the last node to the first.
fn add(
    nodes: &mut Vec<Node>,
    alloc: Global,
    triangles: &[Tri],
    numbers: &[u32],
) -> Result<Summary, Memory>
    requires triangles_in { All (IsTriInBox largest_side) triangles.now }
    requires some { 0 < length numbers.now }
    requires numbers_in { All (λ t. t < length triangles.now) numbers.now }
    requires nodes { AreNodes triangles.now nodes.old.items }
    ensures { IfOk result (λ s. Grows triangles.now numbers.now nodes.old.items nodes.new.items s) }
{
    if numbers.len() <= LEAF {
        return add_leaf(nodes, alloc, triangles, numbers);
    }
    let start = nodes.len();
    let (front, back) = numbers.split_at(numbers.len() / 2);
    let second = add(nodes, alloc, triangles, back)?;
    let first = add(nodes, alloc, triangles, front)?;
    let summary = first.join(second);
    nodes.push(Node {
        summary,
        start,
        numbers: SmallVec::new(alloc),
    })?;
    Ok(summary)
}

/// Adds a leaf with the triangles of these numbers.
fn add_leaf(
    nodes: &mut Vec<Node>,
    alloc: Global,
    triangles: &[Tri],
    numbers: &[u32],
) -> Result<Summary, Memory>
    requires triangles_in { All (IsTriInBox largest_side) triangles.now }
    requires some { 0 < length numbers.now }
    requires numbers_in { All (λ t. t < length triangles.now) numbers.now }
    requires nodes { AreNodes triangles.now nodes.old.items }
    ensures { IfOk result (λ s. Grows triangles.now numbers.now nodes.old.items nodes.new.items s) }
{
    let summary = summary_of(triangles, numbers);
    let start = nodes.len();
    nodes.push(Node {
        summary,
        start,
        numbers: SmallVec::from_slice(alloc, numbers)?,
    })?;
    Ok(summary)
}

/// The bounding box and the least number of these triangles.
fn summary_of(triangles: &[Tri], numbers: &[u32]) -> Summary
    requires triangles_in { All (IsTriInBox largest_side) triangles.now }
    requires some { 0 < length numbers.now }
    requires numbers_in { All (λ t. t < length triangles.now) numbers.now }
    ensures fits { All (Fits triangles.now result) numbers.now }
    ensures within { AreInGrid result.bounds }
{
    let mut summary = Summary::of_one(triangles, numbers[0]);
    for t in numbers {
        summary = summary.join(Summary::of_one(triangles, *t));
    }
    summary
}
