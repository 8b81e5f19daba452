//! Where lines are at a height.
ghost use Rattle.std.specs.Prelude.{◌≡◌, ◌≤◌, ◌*ℤ◌, ◌-ℤ◌, pos, unsigned_abs};
ghost use Rattle.osm_lattice.specs.Bounds.{IsLongitude, IsLatitude};
ghost use Rattle.osm_geom.specs.Level.{IsLevel, IsRunInRange, IsRise};
ghost use Rattle.osm_geom.specs.Ratio.{IsRatioDen};

use std::cmp::Ordering;

/// A height `num / den`, which need not be whole.
#[derive(Clone, Copy)]
pub struct Level {
    pub num: i128,
    pub den: u64,
    pub ghost den_in: { IsRatioDen den },
    pub ghost num_in: { IsLevel num den },
}

/// A line, by one of its points and a step along it.
#[derive(Clone, Copy)]
pub struct Line {
    pub x: i128,
    pub y: i128,
    pub run: i128,
    pub rise: i128,
    pub ghost x_in: { IsLongitude x },
    pub ghost y_in: { IsLatitude y },
    pub ghost run_in: { IsRunInRange run },
    pub ghost rise_in: { IsRise rise },
}

impl Line {
    ghost use Rattle.osm_geom.specs.LineOrder.{slope_cmp};

    /// The order of two rising lines by how far each runs to the right while it rises.
    fn compare_slopes(self, other: Line) -> Ordering
        ensures { result ≡ slope_cmp self other }
    {
        (self.run * other.rise).cmp(&(other.run * self.rise))
    }
}

impl Level {
    ghost use Rattle.osm_geom.specs.LineOrder.{x_num, place_cmp, line_cmp};

    /// How far the height is above the line's point, times its denominator.
    fn above(self, l: Line) -> i128
        ensures value { result ≡ self.num -ℤ l.y *ℤ pos self.den }
        ensures small { unsigned_abs result ≤ 6_480_000_000_000_000_000 }
    {
        self.num - l.y * i128::from(self.den)
    }

    /// The numerator of the line's x here, over its rise times the denominator.
    #[tactic(auto, unfolding(crate::specs::LineOrder::x_num))]
    fn x_num(self, l: Line) -> i128
        ensures value { result ≡ x_num l self }
        ensures small { unsigned_abs result ≤ 34_992_000_000_000_000_000_000_000_000 }
    {
        l.x * l.rise * i128::from(self.den) + self.above(l) * l.run
    }

    /// The order of two rising lines by where they are at this height.
    fn compare_places(self, l: Line, m: Line) -> Ordering
        ensures { result ≡ place_cmp l m self }
    {
        (self.x_num(l) * m.rise).cmp(&(self.x_num(m) * l.rise))
    }

    /// The order of two rising lines, from left to right just above this height.
    #[tactic(auto, unfolding(crate::specs::LineOrder::line_cmp))]
    pub fn compare(self, l: Line, m: Line) -> Ordering
        ensures { result ≡ line_cmp l m self }
    {
        self.compare_places(l, m).then(l.compare_slopes(m))
    }
}
