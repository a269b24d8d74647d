//! The vertices and the faces of a text.

ghost use Rattle.grid.specs.Limits.{most_input};
ghost use Rattle.std.specs.Prelude.{◌≡◌, ◌+◌, ◌-◌, ◌≤◌, length, drop, Ok, IfOk, IfErr, IfSome, OnOk};
ghost use Rattle.off_text.specs.Scans.{rest_at, beyond_at};
ghost use Rattle.off_text.specs.Grammar.{vertex, vertices, several, index, beyond_line, face, faces};
ghost use Rattle.off_text.specs.Gives.{Gives, Fails, with_front, with_fan};

use crate::field::{read_coordinate, read_corner_count, read_index};
use crate::issue::OffIssue;
use crate::scan::next_line;
use std::alloc::Global;

/// A vertex that was read, and the place after its words.
#[derive(Clone, Copy)]
struct Vertex {
    at: [i64; 3],
    end: usize,
}

/// The vertices that were read, and the place after their words.
#[derive(Drop)]
pub struct Vertices {
    pub points: Vec<[i64; 3]>,
    pub end: usize,
}

fn read_vertex(bytes: &[u8], from: usize, digits: Option<u32>) -> Result<Vertex, OffIssue>
    requires from { from ≤ length bytes.now }
    requires digits { IfSome digits (λ d. d ≤ 5) }
    ensures gives { Gives (λ x. (x.at, rest_at bytes.now x.end)) result (vertex digits (length bytes.now) (rest_at bytes.now from)) }
    ensures high { IfOk result (λ x. x.end ≤ length bytes.now) }
{
    let x = read_coordinate(bytes, from, digits)?;
    let y = read_coordinate(bytes, x.end, digits)?;
    let z = read_coordinate(bytes, y.end, digits)?;
    Ok(Vertex {
        at: [x.value, y.value, z.value],
        end: z.end,
    })
}

/// Reads so many vertices.
pub fn read_vertices(
    alloc: Global,
    bytes: &[u8],
    from: usize,
    count: u32,
    digits: Option<u32>,
) -> Result<Vertices, OffIssue>
    requires from { from ≤ length bytes.now }
    requires digits { IfSome digits (λ d. d ≤ 5) }
    ensures gives { Gives (λ x. (x.points.items, rest_at bytes.now x.end)) result (vertices digits (length bytes.now) count (rest_at bytes.now from)) }
    ensures high { IfOk result (λ x. x.end ≤ length bytes.now) }
{
    let mut points = Vec::new(alloc);
    let mut at = from;
    for _ in 0..count {
        let vertex = read_vertex(bytes, at, digits)?;
        points.push(vertex.at)?;
        at = vertex.end;
    }
    Ok(Vertices { points, end: at })
}

/// Reads the further corners of a face behind the first and the second, appends its triangles, and
/// answers the place after the last corner.
fn read_fan(
    bytes: &[u8],
    from: usize,
    vertices: u32,
    more: u32,
    first: u32,
    second: u32,
    triangles: &mut Vec<[u32; 3]>,
) -> Result<usize, OffIssue>
    requires from { from ≤ length bytes.now }
    requires few { vertices ≤ most_input }
    requires more { 1 ≤ more }
    ensures ok { OnOk result (with_fan triangles.old.items first second (several (index vertices) (length bytes.now) more (rest_at bytes.now from)) ≡ Ok triangles.new.items) }
    ensures err { IfErr result (λ e. Fails e (several (index vertices) (length bytes.now) more (rest_at bytes.now from))) }
    ensures beyond { IfOk result (λ end. beyond_at bytes.now end ≡ beyond_line (drop (more - 1) (rest_at bytes.now from))) }
    ensures high { IfOk result (λ end. end ≤ length bytes.now) }
    ensures len { OnOk result (length triangles.new.items ≡ length triangles.old.items + more) }
{
    let mut at = from;
    let mut last = second;
    for _ in 0..more {
        let corner = read_index(bytes, at, vertices)?;
        triangles.push([first, last, corner.value])?;
        last = corner.value;
        at = corner.end;
    }
    Ok(at)
}

/// Reads a face, appends its triangles, and answers the place after its line.
fn read_face(
    bytes: &[u8],
    from: usize,
    vertices: u32,
    triangles: &mut Vec<[u32; 3]>,
) -> Result<usize, OffIssue>
    requires from { from ≤ length bytes.now }
    requires few { vertices ≤ most_input }
    requires made { length triangles.old.items ≤ most_input }
    ensures ok { IfOk result (λ end. with_front triangles.old.items (face (length bytes.now) vertices (length triangles.old.items) (rest_at bytes.now from)) ≡ Ok (triangles.new.items, rest_at bytes.now end)) }
    ensures err { IfErr result (λ e. Fails e (face (length bytes.now) vertices (length triangles.old.items) (rest_at bytes.now from))) }
    ensures high { IfOk result (λ end. end ≤ length bytes.now) }
    ensures made { OnOk result (length triangles.new.items ≤ most_input) }
{
    let corners = read_corner_count(bytes, from, triangles.len())?;
    let first = read_index(bytes, corners.end, vertices)?;
    let second = read_index(bytes, first.end, vertices)?;
    let more = corners.value - 2;
    let end = read_fan(
        bytes,
        second.end,
        vertices,
        more,
        first.value,
        second.value,
        triangles,
    )?;
    Ok(next_line(bytes, end))
}

/// The triangles of so many faces.
pub fn read_faces(
    alloc: Global,
    bytes: &[u8],
    from: usize,
    vertices: u32,
    count: u32,
) -> Result<Vec<[u32; 3]>, OffIssue>
    requires from { from ≤ length bytes.now }
    requires few { vertices ≤ most_input }
    ensures { Gives (λ triangles. triangles.items) result (faces (length bytes.now) vertices count 0 (rest_at bytes.now from)) }
{
    let mut triangles = Vec::new(alloc);
    let mut at = from;
    for _ in 0..count {
        at = read_face(bytes, at, vertices, &mut triangles)?;
    }
    Ok(triangles)
}
