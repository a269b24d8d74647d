// Products of vectors.
ghost use Rattle.grid.specs.Limits.{largest_side};
ghost use Rattle.grid.specs.Vectors;
ghost use Rattle.int_algebra.specs.Within.{IsWithin};
ghost use Rattle.std.specs.Prelude.{ℕ, ◌*◌, ◌+◌, ◌^◌, ◌≡◌, ◌≤◌};
ghost use Rattle.vectors.specs.Bounded.{IsVectorWithin, vector_of};

use crate::vector::Vector;

/// The vector product of vectors whose components are at most 2^24: within 2^49, and within 2^37 where
/// those are differences of points.
#[tactic(auto, using(crate::proofs::Fitting::minors))]
pub fn cross(m: Vector, n: Vector) -> Vector
    requires m_in { IsVectorWithin (2 ^ 24) (vector_of m) }
    requires n_in { IsVectorWithin (2 ^ 24) (vector_of n) }
    ensures value { vector_of result ≡ Vectors.cross (vector_of m) (vector_of n) }
    ensures within { IsVectorWithin (2 ^ 49) (vector_of result) }
    ensures short { IsVectorWithin largest_side (vector_of m) → IsVectorWithin largest_side (vector_of n)
        → IsVectorWithin (2 ^ 37) (vector_of result) }
{
    Vector {
        x: m.y * n.z - m.z * n.y,
        y: m.z * n.x - m.x * n.z,
        z: m.x * n.y - m.y * n.x,
    }
}

/// The scalar product of any two vectors with components up to 2^49, as vector products have them.
#[tactic(auto, using(crate::proofs::Fitting::long_terms))]
pub fn dot(m: Vector, n: Vector) -> i128
    requires m_in { IsVectorWithin (2 ^ 49) (vector_of m) }
    requires n_in { IsVectorWithin (2 ^ 49) (vector_of n) }
    ensures value { result ≡ Vectors.dot (vector_of m) (vector_of n) }
    ensures within { (j k l : ℕ) → IsVectorWithin j (vector_of m) → IsVectorWithin k (vector_of n)
        → j * k + j * k + j * k ≤ l → IsWithin l result }
{
    m.x as i128 * n.x as i128 + m.y as i128 * n.y as i128 + m.z as i128 * n.z as i128
}

/// The scalar product in 64 bits, of a vector within 2^37 and a vector within 2^24.
#[tactic(auto, using(crate::proofs::Fitting::terms))]
pub fn short_dot(m: Vector, n: Vector) -> i64
    requires m_in { IsVectorWithin (2 ^ 37) (vector_of m) }
    requires n_in { IsVectorWithin (2 ^ 24) (vector_of n) }
    ensures value { result ≡ Vectors.dot (vector_of m) (vector_of n) }
    ensures within { (j k l : ℕ) → IsVectorWithin j (vector_of m) → IsVectorWithin k (vector_of n)
        → j * k + j * k + j * k ≤ l → IsWithin l result }
{
    m.x * n.x + m.y * n.y + m.z * n.z
}

/// The square of the length of a vector with components up to 2^49.
pub fn squared_length(m: Vector) -> i128
    requires { IsVectorWithin (2 ^ 49) (vector_of m) }
    ensures value { result ≡ Vectors.dot (vector_of m) (vector_of m) }
    ensures within { (j l : ℕ) → IsVectorWithin j (vector_of m) → j * j + j * j + j * j ≤ l
        → IsWithin l result }
{
    dot(m, m)
}
