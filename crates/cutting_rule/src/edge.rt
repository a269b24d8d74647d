// Edges by the numbers of their ends.
ghost use Rattle.cutting_rule.specs.Edges.{edge_if, numbers_of};
ghost use Rattle.cutting_rule.specs.Packing.{IsPacked};
ghost use Rattle.grid.specs.Meshes.{is_below};
ghost use Rattle.grid.specs.Simplices.{rising};
ghost use Rattle.mesh_types.specs.Tracking.{in_order_once};
ghost use Rattle.std.specs.Ordering.{is_lt};
ghost use Rattle.std.specs.Prelude.{OnOk, [], ◌++◌, ◌∷◌, ◌≡◌};

use grid::Memory;
use std::cmp::Ordering;

/// An edge, the smaller number first.
#[derive(Clone, Copy, Debug, PartialEq, Eq)]
pub struct Edge(pub [u32; 2]);

/// The edge of the points numbered a and b.
fn edge_of(a: u32, b: u32) -> Edge
    ensures { result.0 ≡ rising (a ∷ b ∷ []) }
{
    if b < a { Edge([b, a]) } else { Edge([a, b]) }
}

/// Adds the edge of the points numbered a and b, where it is wanted.
pub(crate) fn push_if(wanted: bool, a: u32, b: u32, into: &mut Vec<Edge>) -> Result<(), Memory>
    ensures { OnOk result (numbers_of into.new.items ≡ numbers_of into.old.items ++ edge_if wanted a b) }
{
    if wanted {
        into.push(edge_of(a, b))?;
    }
    Ok(())
}

// Both ends as one number, so that a sort compares once.
fn pack(edge: Edge) -> u64
    ensures { IsPacked 2 edge.0 result }
{
    let Edge([u, v]) = edge;
    u64::from(u) * 0x1_0000_0000 + u64::from(v)
}

/// Sorts the edges by the smaller number, then by the larger, and keeps one of each.
pub fn sort_edges_once(edges: &mut Vec<Edge>)
    ensures { numbers_of edges.new.items ≡ in_order_once (numbers_of edges.old.items) }
{
    edges.sort_unstable_by(
        |a: &Edge, b: &Edge| -> Ordering
            ensures { is_lt result ≡ is_below a.now.0 b.now.0 }
        { pack(*a).cmp(&pack(*b)) },
    );
    edges.dedup();
}
