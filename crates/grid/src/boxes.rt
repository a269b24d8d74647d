// The sides of the box on which a point lies.
ghost use Rattle.grid.specs.Boxes.{IsOn, Side};
ghost use Rattle.grid.specs.SideBits.{bit_of, number_of, side_bits};
ghost use Rattle.std.specs.Ordering.{int_eq};
ghost use Rattle.std.specs.Prelude.{[], IsBitSet, pos, ℕ, ◌<◌, ◌∷◌, ◌≡◌, ◌↔◌};

use crate::shapes::Point;

/// The sides of the box from 0 to `side` on which a point lies, as bits 0 to 5 for x = 0,
/// x = `side`, y = 0, y = `side`, z = 0 and z = `side`.
pub fn sides(p: Point, side: i32) -> u8
    ensures value { result ≡ side_bits side p }
    ensures six { result < 64 }
    ensures bits { (length_of : ℕ) (s : Side) → side ≡ pos length_of
        → (IsBitSet result (bit_of s) ↔ IsOn length_of s p) }
{
    both_ends(p.x, side) + 4 * both_ends(p.y, side) + 16 * both_ends(p.z, side)
}

// The bits of the two sides across one axis.
fn both_ends(coordinate: i32, side: i32) -> u8
    ensures value { result ≡ number_of (int_eq coordinate (pos 0) ∷ int_eq coordinate side ∷ []) }
    ensures two { result < 4 }
{
    one_end(coordinate, 0) + 2 * one_end(coordinate, side)
}

fn one_end(coordinate: i32, end: i32) -> u8
    ensures value { result ≡ number_of (int_eq coordinate end ∷ []) }
    ensures one { result < 2 }
{
    if coordinate == end { 1 } else { 0 }
}
