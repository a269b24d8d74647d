// Planes, signs and crossings, by hand.
ghost use Rattle.std.specs.Prelude.{◌≡◌};

use crate::{plane_of, side_plane};
use grid::{Point, Tri};

fn point(x: i32, y: i32, z: i32) -> Point
    ensures { result ≡ record { x = x; y = y; z = z } }
{
    Point { x, y, z }
}

#[test]
fn corners_on_one_line(rt: HostRuntime) {
    let tri = Tri([point(0, 0, 0), point(3, 4, 0), point(6, 8, 0)]);
    assert!(rt; plane_of(tri).is_none(), "no plane");
}

// The normal is (1, 2, 2), of length 3, so that values can lie at exactly the snapping distance.
#[test]
fn snapped_signs(rt: HostRuntime) {
    let tri = Tri([point(0, 1, 1), point(2, 0, 1), point(2, 1, 0)]);
    match plane_of(tri) {
        Some(plane) => {
            assert_eq!(rt; plane.normal(), [1, 2, 2], "the normal");
            assert_eq!(rt; plane.origin(), point(0, 1, 1), "the first corner");
            assert_eq!(rt; plane.snap_sign(point(1, 2, 1)), 0, "at distance 1");
            assert_eq!(rt; plane.snap_sign(point(2, 2, 1)), 1, "beyond it");
            assert_eq!(rt;
                plane.snap_sign(point(0, 0, 0)),
                -1,
                "beyond it on the other side"
            );
            let wider = plane.with_snap(4);
            assert_eq!(rt; wider.snap_sign(point(0, 7, 1)), 0, "at distance 4");
            assert_eq!(rt; wider.snap_sign(point(1, 7, 1)), 1, "beyond it");
            assert_eq!(rt; wider.snap_sign(point(0, 0, 0)), 0, "within it");
        }
        None => assert!(rt; false, "a plane"),
    }
}

// The normal (1, 2, 2) is longest along y and z: the sides are parallel to y, the first of them.
#[test]
fn sides_of_a_triangle(rt: HostRuntime) {
    let tri = Tri([point(0, 1, 1), point(2, 0, 1), point(2, 1, 0)]);
    let first = side_plane(tri, 0);
    assert_eq!(rt; first.normal(), [0, 0, -2], "turned to the third corner");
    assert_eq!(rt; first.origin(), point(0, 1, 1), "the corner 0");
    assert_eq!(rt;
        first.snap_sign(point(2, 1, 0)),
        0,
        "the third corner is at distance 1"
    );
    let second = side_plane(tri, 1);
    assert_eq!(rt; second.normal(), [-1, 0, 0], "turned to the first corner");
    assert_eq!(rt; second.origin(), point(2, 0, 1), "the corner 1");
    assert_eq!(rt;
        second.snap_sign(point(0, 1, 1)),
        1,
        "the first corner is at distance 2"
    );
}

#[test]
fn a_crossing_is_rounded_up_at_halves(rt: HostRuntime) {
    let tri = Tri([point(0, 0, 1), point(1, 0, 1), point(0, 1, 1)]);
    match plane_of(tri) {
        Some(plane) => {
            let crossing = plane.crossing(point(0, 0, 0), point(3, 5, 2));
            assert_eq!(rt; crossing, point(2, 3, 1), "from (1.5, 2.5, 1)");
        }
        None => assert!(rt; false, "a plane"),
    }
}
