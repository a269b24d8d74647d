// Determinants, sides and faces, by hand.
ghost use Rattle.std.specs.Prelude.{◌≡◌};

use crate::{Face, Point, Tet, det, sides, sq_dist};

fn point(x: i32, y: i32, z: i32) -> Point
    ensures { result ≡ record { x = x; y = y; z = z } }
{
    Point { x, y, z }
}

#[test]
fn a_kuhn_tetrahedron_is_positive(rt: HostRuntime) {
    let side = 262144;
    let a = point(0, 0, 0);
    let b = point(side, 0, 0);
    let c = point(side, side, 0);
    let d = point(side, side, side);
    assert_eq!(rt; det(a, b, c, d), 18014398509481984, "the cube of 2^18");
    assert_eq!(rt;
        det(a, c, b, d),
        -18014398509481984,
        "in the other orientation"
    );
    assert_eq!(rt; sq_dist(a, d), 206158430208, "three times 2^36");
}

#[test]
fn six_sides(rt: HostRuntime) {
    assert_eq!(rt; sides(point(0, 16, 5), 16), 9, "x = 0 and y = L");
    assert_eq!(rt; sides(point(16, 0, 16), 16), 38, "x = L, y = 0 and z = L");
    assert_eq!(rt; sides(point(8, 8, 0), 16), 16, "z = 0");
    assert_eq!(rt; sides(point(8, 8, 8), 16), 0, "inside");
}

#[test]
fn corners_and_faces(rt: HostRuntime) {
    let tet = Tet([7, 3, 9, 5]);
    assert!(rt; tet.has(9), "a corner");
    assert!(rt; !tet.has(4), "no corner");
    assert_eq!(rt; tet.subst(3, 8), Tet([7, 8, 9, 5]), "in place");
    let [f, g, h, k] = tet.faces();
    assert_eq!(rt; f, Face([7, 9, 3]), "opposite to the fourth corner");
    assert_eq!(rt; g, Face([7, 3, 5]), "opposite to the third");
    assert_eq!(rt; h, Face([7, 5, 9]), "opposite to the second");
    assert_eq!(rt; k, Face([3, 9, 5]), "opposite to the first");
    assert!(rt; k.has(5) && !k.has(7), "of the first");
    assert_eq!(rt; k.subst(9, 2), Face([3, 2, 5]), "in place");
    assert_eq!(rt; k.reverse(), Face([3, 5, 9]), "reversed");
    assert_eq!(rt; k.rising(), Face([3, 5, 9]), "rising");
    assert!(rt; k.same(Face([5, 3, 9])), "rotated");
    assert!(rt; !k.same(k.reverse()), "the reverse is another face");
    assert!(rt;
        Face([1, 2, 9]) < Face([1, 3, 0]),
        "the first corner that differs decides"
    );
}
