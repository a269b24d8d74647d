// Points at known distances.
use super::near;
use grid::{Point, Tri};

#[test]
fn above_the_inside(rt: HostRuntime) {
    let p = Point { x: 0, y: 0, z: 5 };
    let tri = Tri([
        Point { x: 0, y: 0, z: 0 },
        Point { x: 9, y: 0, z: 0 },
        Point { x: 0, y: 9, z: 0 },
    ]);
    assert!(rt; near(p, 0, &tri, 5));
    assert!(rt; !near(p, 0, &tri, 4));
}

#[test]
fn three_times_one_point(rt: HostRuntime) {
    let p = Point { x: 0, y: 0, z: 0 };
    let a = Point { x: 3, y: 4, z: 0 };
    let tri = Tri([a, a, a]);
    assert!(rt; near(p, 0, &tri, 5));
    assert!(rt; !near(p, 0, &tri, 4));
}

#[test]
fn beyond_an_edge(rt: HostRuntime) {
    let p = Point { x: 8, y: 1, z: 4 };
    let tri = Tri([
        Point { x: 4, y: 4, z: 0 },
        Point { x: 13, y: 4, z: 0 },
        Point { x: 4, y: 13, z: 0 },
    ]);
    assert!(rt; near(p, 0, &tri, 5));
    assert!(rt; !near(p, 0, &tri, 4));
}

#[test]
fn at_twice_the_scale(rt: HostRuntime) {
    let p = Point { x: 1, y: 1, z: 11 };
    let tri = Tri([
        Point { x: 0, y: 0, z: 0 },
        Point { x: 9, y: 0, z: 0 },
        Point { x: 0, y: 9, z: 0 },
    ]);
    assert!(rt; near(p, 1, &tri, 6));
    assert!(rt; !near(p, 1, &tri, 5));
}
