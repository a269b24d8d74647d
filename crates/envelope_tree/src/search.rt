// The walk through the tree.
ghost use Rattle.grid.specs.Limits.{largest_side};
ghost use Rattle.std.specs.Prelude.{◌↔◌, ◌≤◌, ◌^◌, ◌⊎◌, All, IsTrue, IfSome, IfNone, length};
ghost use Rattle.grid.specs.Boxes.{IsTriInBox};
ghost use Rattle.grid.specs.Envelopes.{IsLeastNear, HasNoneNear};
ghost use Rattle.envelope_tree.specs.Bounds.{AreInGrid};
ghost use Rattle.envelope_tree.specs.Queries.{IsQuery, IsOutOfReach};
ghost use Rattle.envelope_tree.specs.Trees.{IsTree};

use crate::query::Query;
use crate::tree::Node;
use grid::Tri;

/// The least number of a triangle that all points of the query are near to. Nodes whose box is too far
/// away, and those without a number below the best so far, are left out with all nodes below them.
pub fn least_near(nodes: &[Node], triangles: &[Tri], query: &Query) -> Option<u32>
    requires few { length triangles.now ≤ 2 ^ 24 }
    requires triangles_in { All (IsTriInBox largest_side) triangles.now }
    requires tree { IsTree triangles.now nodes.now }
    requires query { IsQuery query.now }
    ensures found { IfSome result (λ t. IsLeastNear triangles.now query.now.a query.now.b query.now.c query.now.k query.now.e t) }
    ensures none { IfNone result (HasNoneNear triangles.now query.now.a query.now.b query.now.c query.now.k query.now.e) }
{
    let count = triangles.len() as u32;
    let mut limit = count;
    let mut end = nodes.len();
    while end > 0 {
        let node = &nodes[end - 1];
        if is_left_out(node, query, limit) {
            end = node.start;
        } else {
            limit = query.least_of(triangles, node.numbers.as_slice(), limit);
            end -= 1;
        }
    }
    if limit < count { Some(limit) } else { None }
}

/// Whether no triangle below the node is near to all points of the query and numbered below the limit,
/// as its box or its least number shows.
fn is_left_out(node: &Node, query: &Query, limit: u32) -> bool
    requires query { IsQuery query.now }
    requires node_in { AreInGrid node.now.summary.bounds }
    ensures { IsTrue result ↔ (limit ≤ node.now.summary.least) ⊎ IsOutOfReach query.now node.now.summary.bounds }
{
    if node.summary.least >= limit {
        return true;
    }
    query.leaves_out(node.summary.bounds)
}
