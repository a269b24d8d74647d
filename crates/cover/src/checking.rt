// Whether a certificate is one of a face.
ghost use Rattle.grid.specs.Limits.{largest_side, most_epsilon};
ghost use Rattle.std.specs.Prelude.{◌≡◌, ◌↔◌, ◌≤◌, ◌+◌, ◌^◌, All, IsTrue};
ghost use Rattle.grid.specs.Boxes.{IsTriInBox};
ghost use Rattle.mesh_types.specs.Certificates.{most_levels, IsFaceNear, Covers};

use crate::pieces::{LEVELS, quarters};
use grid::Tri;
use mesh_types::Cert;
use tri_distance::near;

/// Whether all corners of a face at the scale 2^k are near to the triangle of that number.
fn is_leaf(triangles: &[Tri], face: &Tri, t: u32, e: u32, k: u32) -> bool
    requires triangles_in { All (IsTriInBox largest_side) triangles.now }
    requires k_in { k ≤ LEVELS }
    requires face_in { IsTriInBox (2 ^ (18 + k)) face.now }
    requires e_in { e ≤ most_epsilon }
    ensures { IsTrue result ↔ IsFaceNear triangles.now e k face.now t }
{
    let t = t as usize;
    if t >= triangles.len() {
        return false;
    }
    let tri = &triangles[t];
    let [a, b, c] = face.0;
    if !near(a, k, tri, e) {
        return false;
    }
    if !near(b, k, tri, e) {
        return false;
    }
    near(c, k, tri, e)
}

/// Whether a certificate of at most that many levels is one of a face at the scale 2^k.
fn covers(triangles: &[Tri], face: &Tri, cert: &Cert, e: u32, levels: u32, k: u32) -> bool
    requires triangles_in { All (IsTriInBox largest_side) triangles.now }
    requires levels_in { levels + k ≤ LEVELS }
    requires face_in { IsTriInBox (2 ^ (18 + k)) face.now }
    requires e_in { e ≤ most_epsilon }
    ensures { IsTrue result ↔ Covers triangles.now e levels k face.now cert.now }
{
    match cert {
        Cert::Leaf(t) => is_leaf(triangles, face, *t, e, k),
        Cert::Split(parts) => {
            if levels == 0 {
                return false;
            }
            let [f, g, h, i] = quarters(face, k);
            let [at_a, at_b, at_c, middle] = parts.get();
            if !covers(triangles, &f, at_a, e, levels - 1, k + 1) {
                return false;
            }
            if !covers(triangles, &g, at_b, e, levels - 1, k + 1) {
                return false;
            }
            if !covers(triangles, &h, at_c, e, levels - 1, k + 1) {
                return false;
            }
            covers(triangles, &i, middle, e, levels - 1, k + 1)
        }
    }
}

/// Whether `cert` is a certificate of a face in the envelope of the triangles for epsilon e. It need
/// not be the least one. A leaf beyond the list is no certificate. It takes no memory.
pub fn check(triangles: &[Tri], face: &Tri, cert: &Cert, e: u32) -> bool
    requires triangles_in { All (IsTriInBox largest_side) triangles.now }
    requires face_in { IsTriInBox largest_side face.now }
    requires e_in { e ≤ most_epsilon }
    ensures { IsTrue result ↔ Covers triangles.now e most_levels 0 face.now cert.now }
{
    covers(triangles, face, cert, e, LEVELS, 0)
}
