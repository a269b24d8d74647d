// The four pieces of a face between its corners and the midpoints of its edges.
ghost use Rattle.std.specs.Prelude.{◌≡◌, ◌+◌, ◌^◌, ◌<◌, All};
ghost use Rattle.grid.specs.Boxes.{IsInBox, IsTriInBox};
ghost use Rattle.mesh_types.specs.Certificates.{midpoint, pieces};

use grid::{Point, Tri};

/// How often a face may be cut.
pub const LEVELS: u32 = 6;

/// The midpoint at twice the scale.
fn midpoint(a: Point, b: Point, k: u32) -> Point
    requires k_in { k < LEVELS }
    requires a_in { IsInBox (2 ^ (18 + k)) a }
    requires b_in { IsInBox (2 ^ (18 + k)) b }
    ensures value { result ≡ midpoint a b }
    ensures within { IsInBox (2 ^ (18 + (k + 1))) result }
{
    Point {
        x: a.x + b.x,
        y: a.y + b.y,
        z: a.z + b.z,
    }
}

/// The pieces of a face at the scale 2^k, at twice that scale: the three at its corners, then the
/// middle one.
pub fn quarters(face: &Tri, k: u32) -> [Tri; 4]
    requires k_in { k < LEVELS }
    requires face_in { IsTriInBox (2 ^ (18 + k)) face.now }
    ensures value { result ≡ pieces face.now }
    ensures within { All (IsTriInBox (2 ^ (18 + (k + 1)))) result }
{
    let [a, b, c] = face.0;
    let ab = midpoint(a, b, k);
    let ac = midpoint(a, c, k);
    let bc = midpoint(b, c, k);
    [
        Tri([midpoint(a, a, k), ab, ac]),
        Tri([ab, midpoint(b, b, k), bc]),
        Tri([ac, bc, midpoint(c, c, k)]),
        Tri([ab, bc, ac]),
    ]
}
