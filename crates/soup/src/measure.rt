// The ranges of a soup along the axes, and its shift.
ghost use Rattle.grid.specs.Limits.{largest_side};
ghost use Rattle.std.specs.Prelude.{◌≡◌, ◌≤◌, ◌<◌, All};
ghost use Rattle.soup.specs.Limits.{IsVertex};
ghost use Rattle.soup.specs.Ranges.{IsRangeOf, IsMeasureOf};
ghost use Rattle.soup.specs.Placement.{extent, spread, start_along, start};

use crate::range::{Range, range_along};
use crate::raw::Raw;

/// The ranges of the vertices along the axes, and the longest.
#[derive(Clone, Copy)]
pub struct Measure {
    pub x: Range,
    pub y: Range,
    pub z: Range,
    pub extent: u64,
}

/// Measures a soup.
pub fn measure_of(raw: &Raw) -> Measure
    requires { All IsVertex raw.now.vertices }
    ensures { IsMeasureOf raw.now result }
{
    let vertices = raw.vertices.as_slice();
    let x = range_along(vertices, 0);
    let y = range_along(vertices, 1);
    let z = range_along(vertices, 2);
    let extent = x.spread().max(y.spread()).max(z.spread());
    Measure { x, y, z, extent }
}

/// Where a box of that side begins along an axis.
fn start_along(vertices: &[[i64; 3]], axis: usize, range: Range, side: u64) -> i64
    requires range { IsRangeOf axis vertices.now range }
    requires fits { spread axis vertices.now ≤ side }
    requires side { side ≤ largest_side }
    ensures { result ≡ start_along axis vertices.now side }
{
    if vertices.is_empty() {
        0
    } else {
        range.start(side)
    }
}

/// The input coordinates of the origin of a box of that side.
pub fn start_of(raw: &Raw, measure: &Measure, side: u64) -> [i64; 3]
    requires measure { IsMeasureOf raw.now measure.now }
    requires fits { extent raw.now ≤ side }
    requires side { side ≤ largest_side }
    ensures { result ≡ start raw.now.vertices side }
{
    let vertices = raw.vertices.as_slice();
    [
        start_along(vertices, 0, measure.x, side),
        start_along(vertices, 1, measure.y, side),
        start_along(vertices, 2, measure.z, side),
    ]
}
