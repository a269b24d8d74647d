// Where edges are cut.
ghost use Rattle.grid.specs.Boxes.{IsInBox};
ghost use Rattle.grid.specs.Limits.{largest_side};
ghost use Rattle.grid.specs.Planes.{crossing};
ghost use Rattle.mesh_types.specs.CuttingRule.{splits};
ghost use Rattle.std.specs.Prelude.{[], true, ◌∷◌, ◌≡◌};

use grid::Point;
use mesh_types::Cut;
use planes::Plane;

/// The cut of the edge from u to v, whose ends are p and q, where it crosses a plane.
pub fn cut_between(plane: &Plane, u: u32, p: Point, v: u32, q: Point) -> Cut
    requires p_in { IsInBox largest_side p }
    requires q_in { IsInBox largest_side q }
    requires apart { splits plane.now (p ∷ q ∷ []) ≡ true }
    ensures { result ≡ record { u = u; v = v; at = crossing plane.now p q } }
{
    let at = plane.crossing(p, q);
    Cut { u, v, at }
}
