// The search for the certificate of a face.
ghost use Rattle.grid.specs.Limits.{largest_side, most_epsilon};
ghost use Rattle.std.specs.Prelude.{◌≡◌, ◌↔◌, ◌≤◌, ◌+◌, ◌^◌, IsTrue, IfOk};
ghost use Rattle.grid.specs.Boxes.{IsTriInBox};
ghost use Rattle.mesh_types.specs.Certificates.{IsCov, HasCertificate};
ghost use Rattle.cover.specs.Levels.{IsCovAt, HasCertificateAt};

use crate::pieces::{LEVELS, quarters};
use envelope_tree::Envelope;
use grid::{Memory, Tri};
use mesh_types::Cert;
use sqlite_items::Boxed;
use std::alloc::Global;

/// The certificate of a face at the scale 2^k that may be cut that many times.
fn find_at(
    alloc: Global,
    env: &Envelope,
    face: &Tri,
    e: u32,
    levels: u32,
    k: u32,
) -> Result<Option<Cert>, Memory>
    requires levels_in { levels + k ≤ LEVELS }
    requires face_in { IsTriInBox (2 ^ (18 + k)) face.now }
    requires e_in { e ≤ most_epsilon }
    ensures { IfOk result (IsCovAt env.now e levels k face.now) }
{
    let [a, b, c] = face.0;
    if let Some(t) = env.least_near(a, b, c, k, e) {
        return Ok(Some(Cert::Leaf(t)));
    }
    if levels == 0 {
        return Ok(None);
    }
    let [f, g, h, i] = quarters(face, k);
    let Some(at_a) = find_at(alloc, env, &f, e, levels - 1, k + 1)? else {
        return Ok(None);
    };
    let Some(at_b) = find_at(alloc, env, &g, e, levels - 1, k + 1)? else {
        return Ok(None);
    };
    let Some(at_c) = find_at(alloc, env, &h, e, levels - 1, k + 1)? else {
        return Ok(None);
    };
    let Some(middle) = find_at(alloc, env, &i, e, levels - 1, k + 1)? else {
        return Ok(None);
    };
    Ok(Some(Cert::Split(Boxed::new(alloc, [at_a, at_b, at_c, middle])?)))
}

/// Whether a face at the scale 2^k that may be cut that many times has a certificate.
fn covered_at(env: &Envelope, face: &Tri, e: u32, levels: u32, k: u32) -> bool
    requires levels_in { levels + k ≤ LEVELS }
    requires face_in { IsTriInBox (2 ^ (18 + k)) face.now }
    requires e_in { e ≤ most_epsilon }
    ensures { IsTrue result ↔ HasCertificateAt env.now e levels k face.now }
{
    let [a, b, c] = face.0;
    if env.least_near(a, b, c, k, e).is_some() {
        return true;
    }
    if levels == 0 {
        return false;
    }
    let [f, g, h, i] = quarters(face, k);
    if !covered_at(env, &f, e, levels - 1, k + 1) {
        return false;
    }
    if !covered_at(env, &g, e, levels - 1, k + 1) {
        return false;
    }
    if !covered_at(env, &h, e, levels - 1, k + 1) {
        return false;
    }
    covered_at(env, &i, e, levels - 1, k + 1)
}

/// The certificate of a face in the envelope for epsilon e: the least triangle at each leaf, and a
/// split only where there is no triangle. None exactly where the face has no certificate. It takes
/// memory for the certificate alone.
pub fn find(alloc: Global, env: &Envelope, face: &Tri, e: u32) -> Result<Option<Cert>, Memory>
    requires face_in { IsTriInBox largest_side face.now }
    requires e_in { e ≤ most_epsilon }
    ensures { IfOk result (IsCov env.now e face.now) }
{
    find_at(alloc, env, face, e, LEVELS, 0)
}

/// Whether a face has a certificate in the envelope for epsilon e. It takes no memory.
pub fn covered(env: &Envelope, face: &Tri, e: u32) -> bool
    requires face_in { IsTriInBox largest_side face.now }
    requires e_in { e ≤ most_epsilon }
    ensures { IsTrue result ↔ HasCertificate env.now e face.now }
{
    covered_at(env, face, e, LEVELS, 0)
}
