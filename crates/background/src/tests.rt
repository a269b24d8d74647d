// The lattice of one cell, and of two along an axis.
use crate::lattice;
use grid::{Memory, Point, Tet};

fn point(x: i32, y: i32, z: i32) -> Point {
    Point { x, y, z }
}

fn point_of(points: &[Point], number: u32) -> Point {
    match points.get(number as usize) {
        Some(p) => *p,
        None => point(-1, -1, -1),
    }
}

/// The edge from a to b.
fn edge(a: Point, b: Point) -> [i32; 3] {
    [
        b.x.wrapping_sub(a.x),
        b.y.wrapping_sub(a.y),
        b.z.wrapping_sub(a.z),
    ]
}

/// The determinant of three edges by the rule of Sarrus.
fn determinant(p: [i32; 3], q: [i32; 3], r: [i32; 3]) -> i32 {
    let product = |i: usize, j: usize, k: usize| p[i % 3]
        .wrapping_mul(q[j % 3])
        .wrapping_mul(r[k % 3]);
    product(0, 1, 2)
        .wrapping_add(product(1, 2, 0))
        .wrapping_add(product(2, 0, 1))
        .wrapping_sub(product(2, 1, 0))
        .wrapping_sub(product(1, 0, 2))
        .wrapping_sub(product(0, 2, 1))
}

#[test]
fn one_cell(rt: HostRuntime) -> Result<(), Memory> {
    let mesh = lattice(rt.alloc(), 16, 1)?;
    let corners = [
        point(0, 0, 0),
        point(16, 0, 0),
        point(0, 16, 0),
        point(16, 16, 0),
        point(0, 0, 16),
        point(16, 0, 16),
        point(0, 16, 16),
        point(16, 16, 16),
    ];
    let paths = [
        Tet([0, 1, 3, 7]),
        Tet([0, 5, 1, 7]),
        Tet([0, 3, 2, 7]),
        Tet([0, 2, 6, 7]),
        Tet([0, 4, 5, 7]),
        Tet([0, 6, 4, 7]),
    ];
    assert!(rt; mesh.points.as_slice() == corners.as_slice());
    assert!(rt; mesh.tets.as_slice() == paths.as_slice());
    assert_eq!(rt; mesh.tracked.len(), 0);
    assert_eq!(rt; mesh.made, 6);
    Ok(())
}

#[test]
fn two_cells_along_an_axis(rt: HostRuntime) -> Result<(), Memory> {
    let mesh = lattice(rt.alloc(), 16, 2)?;
    assert_eq!(rt; mesh.points.len(), 27);
    assert_eq!(rt; mesh.tets.len(), 48);
    let points = mesh.points.as_slice();
    let mut sum: i32 = 0;
    for tet in mesh.tets.as_slice() {
        let Tet([a, b, c, d]) = *tet;
        let origin = point_of(points, a);
        let value = determinant(
            edge(origin, point_of(points, b)),
            edge(origin, point_of(points, c)),
            edge(origin, point_of(points, d)),
        );
        assert_eq!(rt; value, 512);
        sum = sum.wrapping_add(value);
    }
    assert_eq!(rt; sum, 24576);
    Ok(())
}
