// Height fields from two numbers.
ghost use Rattle.std.specs.Prelude.{◌≡◌, ◌+◌, ◌*◌, ◌/◌, ◌^◌, ◌<◌, ◌≤◌, ◌∷◌, [], pos, IfOk};
ghost use Rattle.soup.specs.Limits.{IsRaw};
ghost use Rattle.soup.specs.Placement.{extent};
ghost use Rattle.soup.specs.HeightField.{at_places, next_word, square_at, vertex_at, vertex_number, word_after};
ghost use Rattle.soup.specs.HeightField.{height_field as height_field_of};

use crate::raw::Raw;
use grid::Memory;
use items::Items;
use std::alloc::Global;

/// The word of 32 bits after a word, of a linear congruential sequence.
fn next_word(word: u32) -> u32
    ensures { result ≡ next_word word }
{
    ((1_664_525 * u64::from(word) + 1_013_904_223) % (1 << 32)) as u32
}

fn vertex(i: u32, j: u32, word: u32) -> [i64; 3]
    requires i { i ≤ 64 }
    requires j { j ≤ 64 }
    ensures { result ≡ pos (4 * i) ∷ pos (4 * j) ∷ pos (word / 2 ^ 29) ∷ [] }
{
    [
        i64::from(4 * i),
        i64::from(4 * j),
        i64::from(word / (1 << 29)),
    ]
}

#[tactic(auto, using(crate::proofs::Places::so_far_steps))]
fn vertices(alloc: Global, k: u32, seed: u32) -> Result<Vec<[i64; 3]>, Memory>
    requires { k ≤ 64 }
    ensures { IfOk result (λ v. v.items ≡ at_places (k + 1) (λ i j. vertex_at k seed i j ∷ [])) }
{
    let places = k + 1;
    let mut vertices = Vec::with_capacity(alloc, (places * places) as usize)?;
    let mut word = seed;
    for j in 0..places {
        for i in 0..places {
            word = next_word(word);
            vertices.push(vertex(i, j, word))?;
        }
    }
    Ok(vertices)
}

/// The number of the vertex (i, j), of `k` squares along each axis.
fn number(k: u32, i: u32, j: u32) -> u32
    requires k { k ≤ 64 }
    requires i { i ≤ 64 }
    requires j { j ≤ 64 }
    ensures { result ≡ vertex_number k i j }
{
    i + (k + 1) * j
}

/// The two triangles of the square (i, j).
fn square(k: u32, i: u32, j: u32) -> [[u32; 3]; 2]
    requires k { k ≤ 64 }
    requires i { i < k }
    requires j { j < k }
    ensures { result ≡ square_at k i j }
{
    let near = number(k, i, j);
    let right = number(k, i + 1, j);
    let above = number(k, i, j + 1);
    let far = number(k, i + 1, j + 1);
    [[near, right, far], [near, far, above]]
}

#[tactic(auto, using(crate::proofs::Places::so_far_steps))]
fn faces(alloc: Global, k: u32) -> Result<Vec<[u32; 3]>, Memory>
    requires { k ≤ 64 }
    ensures { IfOk result (λ v. v.items ≡ at_places k (square_at k)) }
{
    let mut faces = Vec::with_capacity(alloc, (2 * k * k) as usize)?;
    for j in 0..k {
        for i in 0..k {
            faces.extend_from_slice(&square(k, i, j))?;
        }
    }
    Ok(faces)
}

/// A height field over `k` times `k` squares, each of side 4 and cut into two triangles. The heights,
/// from 0 to 7, follow from the seed.
///
/// # Errors
/// `Memory` where the memory of its vertices and triangles is not to be had.
#[tactic(auto, unfolding(crate::specs::HeightField::height_field))]
pub fn height_field(alloc: Global, k: u32, seed: u32) -> Result<Raw, Memory>
    requires least { 1 ≤ k }
    requires most { k ≤ 64 }
    ensures is { IfOk result (λ raw. raw ≡ height_field_of k seed) }
    ensures limits { IfOk result IsRaw }
    ensures extent { IfOk result (λ raw. extent raw ≤ 256) }
{
    let vertices = vertices(alloc, k, seed)?;
    let faces = faces(alloc, k)?;
    Ok(Raw {
        vertices: Items::from_vec(vertices),
        faces: Items::from_vec(faces),
    })
}
