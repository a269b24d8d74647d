// The range of a soup along one axis.
ghost use Rattle.grid.specs.Limits.{largest_side};
ghost use Rattle.std.specs.Prelude.{◌≡◌, ◌<◌, ◌≤◌, ◌-◌, ◌/◌, ◌^◌, max, pos, unsigned_abs, ◌-ℤ◌};
ghost use Rattle.std.specs.Int.{int_min, int_max};
ghost use Rattle.int_algebra.specs.Within.{IsWithin};
ghost use Rattle.soup.specs.Placement.{along, least, greatest, spread};

/// The least and the greatest coordinate of the vertices along an axis.
#[derive(Clone, Copy)]
pub struct Range {
    pub least: i64,
    pub greatest: i64,
}

impl Range {
    fn at(z: i64) -> Range
        ensures { result ≡ record { least = z; greatest = z } }
    {
        Range {
            least: z,
            greatest: z,
        }
    }

    /// The range with the coordinate of another vertex.
    fn with(self, v: &[i64; 3], axis: usize) -> Range
        requires { axis < 3 }
        ensures { result ≡ record { least = int_min self.least (along axis v.now); greatest = int_max self.greatest (along axis v.now) } }
    {
        let z = along(v, axis);
        Range {
            least: self.least.min(z),
            greatest: self.greatest.max(z),
        }
    }

    pub fn spread(self) -> u64
        ensures { result ≡ unsigned_abs (self.greatest -ℤ self.least) }
    {
        self.greatest.abs_diff(self.least)
    }

    /// Where a box of that side begins that has the range in its middle.
    pub fn start(self, side: u64) -> i64
        requires wide { unsigned_abs (self.greatest -ℤ self.least) ≤ side }
        requires side_in { side ≤ largest_side }
        requires least_in { IsWithin (10 ^ 9) self.least }
        ensures { result ≡ self.least -ℤ pos ((side - unsigned_abs (self.greatest -ℤ self.least)) / 2) }
    {
        let before = (side - self.spread()) / 2;
        self.least - before as i64
    }
}

/// The coordinate of a vertex along the axis 0, 1 or 2.
pub fn along(v: &[i64; 3], axis: usize) -> i64
    requires { axis < 3 }
    ensures { result ≡ along axis v.now }
{
    v[axis]
}

/// The range along an axis. It is 0 to 0 where there are no vertices.
#[tactic(auto, unfolding(crate::specs::Placement::least, crate::specs::Placement::greatest))]
pub fn range_along(vertices: &[[i64; 3]], axis: usize) -> Range
    requires { axis < 3 }
    ensures least { result.least ≡ least axis vertices.now }
    ensures greatest { result.greatest ≡ greatest axis vertices.now }
{
    let [first, rest @ ..] = vertices else {
        return Range::at(0);
    };
    let mut range = Range::at(along(first, axis));
    for v in rest {
        range = range.with(v, axis);
    }
    range
}
