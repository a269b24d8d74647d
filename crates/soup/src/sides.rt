// The side of a box.
ghost use Rattle.grid.specs.Limits.{largest_side};
ghost use Rattle.std.specs.Prelude.{◌≡◌, ◌≤◌};
ghost use Rattle.soup.specs.Placement.{power_from};

/// The least power of two that is at least 16 and at least `room`.
pub fn side_for(room: u64) -> u64
    requires { room ≤ largest_side }
    ensures { result ≡ power_from 14 4 room }
{
    room.max(16).next_power_of_two()
}
