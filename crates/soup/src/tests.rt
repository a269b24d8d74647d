// Soups in their boxes, and height fields.
ghost use Rattle.std.specs.Prelude.{◌≤◌, length, All};
ghost use Rattle.soup.specs.Limits.{IsVertex, IsFaceBelow};
ghost use Rattle.grid.specs.Limits.{IsCells};

use crate::{PlaceIssue, Raw, height_field, place};
use grid::{Memory, Point, Tri};
use items::Items;
use std::alloc::Global;
use std::process::Abort;
use std::test::Fail;

/// Places a soup with epsilon 2, and compares its box and its triangles.
fn compare(
    rt: &impl Abort,
    alloc: Global,
    vertices: &[[i64; 3]],
    faces: &[[u32; 3]],
    cells: u32,
    side: i32,
    shift: [i64; 3],
    triangles: &[Tri],
) -> Result<(), Fail>
    requires coordinates { All IsVertex vertices.now }
    requires corners { All (IsFaceBelow (length vertices.now)) faces.now }
    requires cells { IsCells cells }
{
    let raw = Raw {
        vertices: Items::from_slice(alloc, vertices)?,
        faces: Items::from_slice(alloc, faces)?,
    };
    let soup = place(alloc, &raw, 2, cells)?;
    assert_eq!(rt; soup.side, side);
    assert_eq!(rt; soup.shift, shift);
    assert_eq!(rt; soup.triangles.as_slice(), triangles);
    Ok(())
}

#[test]
fn one_vertex_lies_in_the_middle_of_the_least_box(rt: HostRuntime) -> Result<(), Fail> {
    compare(
        &rt,
        rt.alloc(),
        &[[100, -7, 0]],
        &[],
        1,
        16,
        [92, -15, -8],
        &[],
    )
}

#[test]
fn a_triangle_lies_in_the_middle_of_its_box(rt: HostRuntime) -> Result<(), Fail> {
    let at = |x, y, z| Point { x, y, z };
    let vertices = [[-3, -10, 5], [1, 2, -4], [0, 0, 0]];
    let triangle = Tri([at(14, 10, 20), at(18, 22, 11), at(17, 20, 15)]);
    compare(
        &rt,
        rt.alloc(),
        &vertices,
        &[[0, 1, 2]],
        8,
        32,
        [-17, -20, -15],
        &[triangle],
    )
}

#[test]
fn an_empty_soup_has_the_least_box(rt: HostRuntime) -> Result<(), Fail> {
    compare(&rt, rt.alloc(), &[], &[], 16, 64, [0, 0, 0], &[])
}

#[test]
fn the_largest_extent_is_placed_and_the_next_is_not(rt: HostRuntime) -> Result<(), Fail> {
    let alloc = rt.alloc();
    compare(
        &rt,
        alloc,
        &[[0; 3], [262_136, 0, 0]],
        &[],
        4,
        262_144,
        [-4, -131_072, -131_072],
        &[],
    )?;
    let raw = Raw {
        vertices: Items::from_slice(alloc, &[[0, 0, 0], [0, 262_137, 0]])?,
        faces: Items::new(alloc),
    };
    let issue = place(alloc, &raw, 2, 4).err();
    assert_eq!(rt; issue, Some(PlaceIssue::TooWide(262_137)));
    Ok(())
}

#[test]
fn a_height_field_follows_from_its_seed(rt: HostRuntime) -> Result<(), Memory> {
    let raw = height_field(rt.alloc(), 1, 1)?;
    let vertices = [[0, 0, 1], [4, 0, 2], [0, 4, 4], [4, 4, 5]];
    assert_eq!(rt; raw.vertices.as_slice(), vertices.as_slice());
    assert_eq!(rt; raw.faces.as_slice(), [[0, 1, 3], [0, 3, 2]].as_slice());
    Ok(())
}
