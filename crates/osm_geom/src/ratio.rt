//! Coordinates as fractions.
ghost use Rattle.std.specs.Prelude.{◌≡◌};
ghost use Rattle.osm_geom.specs.Part.{part_num};
ghost use Rattle.osm_geom.specs.Ratio.{IsRatioDen, IsRatioNum};

use crate::point::Part;
use std::cmp::Ordering;

/// A coordinate as a fraction.
#[derive(Clone, Copy)]
pub struct Ratio {
    pub num: i128,
    pub den: u64,
    pub ghost den_in: { IsRatioDen den },
    pub ghost num_in: { IsRatioNum num den },
}

impl Ratio {
    ghost use Rattle.osm_geom.specs.RatioOrder.{fraction_of, fraction_cmp};

    /// A whole number, over 1.
    pub fn of_whole(n: i32) -> Ratio
        ensures num { result.num ≡ n }
        ensures den { result.den ≡ 1 }
    {
        Ratio {
            num: i128::from(n),
            den: 1,
        }
    }

    /// A coordinate that isn't whole, as it is.
    pub fn of_part(p: Part) -> Ratio
        ensures num { result.num ≡ part_num p.floor p.above p.den }
        ensures den { result.den ≡ p.den }
    {
        let frac = p.frac();
        Ratio {
            num: frac.num,
            den: frac.den,
        }
    }

    /// Compares by cross products.
    pub fn compare(self, other: Ratio) -> Ordering
        ensures { result ≡ fraction_cmp (fraction_of self) (fraction_of other) }
    {
        let left = self.num * i128::from(other.den);
        left.cmp(&(other.num * i128::from(self.den)))
    }
}
