// Whether a face swap makes worse, as it is told from the mesh before.
ghost use Rattle.grid.specs.Boxes.{IsInBox};
ghost use Rattle.grid.specs.Determinants.{IsPositive};
ghost use Rattle.grid.specs.Limits.{largest_side};
ghost use Rattle.grid.specs.Simplices.{IsTet, count, faces, replaced};
ghost use Rattle.grid.specs.Views.{corners_of};
ghost use Rattle.local_ops.specs.Swaps.{AreSides, IsSeenWorse, are_below, are_new_once, has_new_once, is_new_once};
ghost use Rattle.mesh_store.specs.Exchanges.{tet_in};
ghost use Rattle.std.specs.List.{list_all};
ghost use Rattle.std.specs.Prelude.{All, IfOk, IsTrue, [], false, length, ◌<◌, ◌∷◌, ◌≡◌, ◌≤◌};
ghost use Rattle.tet_slots.specs.Searches.{has_edge, numbers_of};

use crate::apart::is_face;
use crate::measures::energy_of;
use crate::single::count_in;
use crate::swapping::Sides;
use grid::{Face, Memory, Tet};
use mesh_store::outside_corner;
use std::alloc::Global;
use tet_slots::Slots;

/// Whether the swap is seen to make no face occur twice, and not to lower the largest energy. Where no
/// tetrahedron has the new edge, and none of the new faces occurs twice among the new tetrahedra, it
/// makes none occur twice.
pub(crate) fn is_seen_worse(
    alloc: Global,
    slots: &Slots,
    sides: Sides,
    a: u32,
    b: u32,
    c: u32,
) -> Result<bool, Memory>
    requires in_box { All (IsInBox largest_side) slots.now.points }
    requires first { sides.first < length slots.now.slots }
    requires second { sides.second < length slots.now.slots }
    requires first_positive { IsPositive slots.now.points (tet_in slots.now.slots sides.first) }
    requires second_positive { IsPositive slots.now.points (tet_in slots.now.slots sides.second) }
    requires at_a { IsTet (length slots.now.points) (replaced a sides.apex (tet_in slots.now.slots sides.first)) }
    requires at_b { IsTet (length slots.now.points) (replaced b sides.apex (tet_in slots.now.slots sides.first)) }
    requires at_c { IsTet (length slots.now.points) (replaced c sides.apex (tet_in slots.now.slots sides.first)) }
    requires a_positive { IsPositive slots.now.points (replaced a sides.apex (tet_in slots.now.slots sides.first)) }
    requires b_positive { IsPositive slots.now.points (replaced b sides.apex (tet_in slots.now.slots sides.first)) }
    requires c_positive { IsPositive slots.now.points (replaced c sides.apex (tet_in slots.now.slots sides.first)) }
    ensures { IfOk result (λ worse. IsTrue worse → IsSeenWorse slots.now.slots slots.now.points a b c sides) }
{
    let x = slots.tet(sides.first);
    let y = slots.tet(sides.second);
    let Some(far) = outside_corner(y, x) else {
        return Ok(false);
    };
    if has_tet_at(alloc, slots, far, sides.apex)? {
        return Ok(false);
    }
    let p = x.subst(a, sides.apex);
    let q = x.subst(b, sides.apex);
    let r = x.subst(c, sides.apex);
    if !are_new_once(x, y, &[p, q, r], far, sides.apex) {
        return Ok(false);
    }
    Ok(!are_below(slots, x, y, p, q, r))
}

/// Whether some tetrahedron has both u and v.
fn has_tet_at(alloc: Global, slots: &Slots, u: u32, v: u32) -> Result<bool, Memory>
    ensures { IfOk result (λ some. some ≡ false → numbers_of (has_edge u v) 0 slots.now.slots ≡ []) }
{
    let mut numbers = Vec::new(alloc);
    slots.having2(u, v, &mut numbers)?;
    Ok(!numbers.is_empty())
}

/// Whether each face of the new tetrahedra is new once.
fn are_new_once(x: Tet, y: Tet, new: &[Tet], far: u32, apex: u32) -> bool
    requires { length new.now ≤ 3 }
    ensures { result ≡ are_new_once x.0 y.0 (corners_of new.now) far apex }
{
    for tet in new {
        if !has_new_once(x, y, new, far, apex, *tet) {
            return false;
        }
    }
    true
}

fn has_new_once(x: Tet, y: Tet, new: &[Tet], far: u32, apex: u32, tet: Tet) -> bool
    requires { length new.now ≤ 3 }
    ensures { result ≡ has_new_once x.0 y.0 (corners_of new.now) far apex tet.0 }
{
    let [f, g, h, k] = tet.faces();
    is_new_once(x, y, new, far, apex, f)
        && is_new_once(x, y, new, far, apex, g)
        && is_new_once(x, y, new, far, apex, h)
        && is_new_once(x, y, new, far, apex, k)
}

/// Whether the face occurs once among the new tetrahedra, and is one of x or y or has the new edge.
fn is_new_once(x: Tet, y: Tet, new: &[Tet], far: u32, apex: u32, face: Face) -> bool
    requires { length new.now ≤ 3 }
    ensures { result ≡ is_new_once x.0 y.0 (corners_of new.now) far apex face.0 }
{
    if count_of(new, face) >= 2 {
        return false;
    }
    if is_face(face, x) {
        return true;
    }
    if is_face(face, y) {
        return true;
    }
    face.has(far) && face.has(apex)
}

/// How often the face occurs among the tetrahedra.
fn count_of(tets: &[Tet], face: Face) -> u64
    requires { length tets.now ≤ 3 }
    ensures { result ≡ count face.0 (corners_of tets.now) }
{
    let mut found = 0;
    for tet in tets {
        found += count_in(face, *tet);
    }
    found
}

/// Whether the energies of p, q and r are below the larger one of x and y.
fn are_below(slots: &Slots, x: Tet, y: Tet, p: Tet, q: Tet, r: Tet) -> bool
    requires in_box { All (IsInBox largest_side) slots.now.points }
    requires x_there { IsTet (length slots.now.points) x.0 }
    requires y_there { IsTet (length slots.now.points) y.0 }
    requires p_there { IsTet (length slots.now.points) p.0 }
    requires q_there { IsTet (length slots.now.points) q.0 }
    requires r_there { IsTet (length slots.now.points) r.0 }
    requires x_positive { IsPositive slots.now.points x.0 }
    requires y_positive { IsPositive slots.now.points y.0 }
    requires p_positive { IsPositive slots.now.points p.0 }
    requires q_positive { IsPositive slots.now.points q.0 }
    requires r_positive { IsPositive slots.now.points r.0 }
    ensures { result ≡ are_below slots.now.points x.0 y.0 (p.0 ∷ q.0 ∷ r.0 ∷ []) }
{
    let of_x = energy_of(slots, x);
    let of_y = energy_of(slots, y);
    let most = if of_x < of_y { of_y } else { of_x };
    energy_of(slots, p) < most && energy_of(slots, q) < most && energy_of(slots, r) < most
}
