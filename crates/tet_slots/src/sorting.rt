// Numbers in rising order.
ghost use Rattle.grid.specs.Simplices.{has};
ghost use Rattle.std.specs.List.Sorted.{IsStrictlyIncreasing};
ghost use Rattle.std.specs.Prelude.{ℕ, ◌≡◌};

/// Puts numbers into rising order, each once. Takes no memory.
pub fn rise(numbers: &mut Vec<u32>)
    ensures rising { IsStrictlyIncreasing numbers.new.items }
    ensures same { (i : ℕ) → has numbers.new.items i ≡ has numbers.old.items i }
{
    numbers.sort_unstable();
    numbers.dedup();
}
