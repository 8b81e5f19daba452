//! Exact points with at most one fractional coordinate.
ghost use Rattle.std.specs.Prelude.{◌<◌, ◌≡◌, ◌≤◌, pos};
ghost use Rattle.std.specs.Int.{int_div_euclid, int_rem_euclid};
ghost use Rattle.osm_lattice.specs.Lowest.{IsInLowestTerms};
ghost use Rattle.osm_geom.specs.Part.{IsPartDen, IsPartNum, part_num};

use osm_lattice::{Frac, Loc};

/// The greatest whole number that is at most `num / den`.
fn whole_below(num: i128, den: u64) -> i32
    requires den_in { 1 ≤ den }
    requires num_in { IsPartNum num den }
    ensures { result ≡ int_div_euclid num (pos den) }
{
    num.div_euclid(i128::from(den)) as i32
}

/// How far `num / den` is above that whole number, times `den`.
fn rest_above(num: i128, den: u64) -> u32
    requires { IsPartDen den }
    ensures { pos result ≡ int_rem_euclid num (pos den) }
{
    num.rem_euclid(i128::from(den)) as u32
}

/// A coordinate that isn't whole, in units of 1e-7 degree: `floor + above / den`.
///
/// Over its denominator it is in lowest terms. The denominator is 2 to 3,600,000,000, the greatest distance of two
/// longitudes.
// Three numbers of 32 bits instead of a `Frac` of 32 bytes, since each edge holds two points.
#[derive(Clone, Copy, Debug, PartialEq, Eq)]
pub struct Part {
    pub floor: i32,
    pub above: u32,
    pub den: u32,
    pub ghost den_in: { IsPartDen den },
    pub ghost above_in: { above < den },
    pub ghost num_in: { IsPartNum (part_num floor above den) den },
    pub ghost lowest: { IsInLowestTerms (part_num floor above den) den },
}

impl Part {
    /// The part that is this fraction, which isn't whole.
    pub(crate) fn of(frac: Frac) -> Part
        requires den_in { IsPartDen frac.den }
        requires num_in { IsPartNum frac.num frac.den }
        ensures num { part_num result.floor result.above result.den ≡ frac.num }
        ensures den { result.den ≡ frac.den }
    {
        Part {
            floor: whole_below(frac.num, frac.den),
            above: rest_above(frac.num, frac.den),
            den: frac.den as u32,
        }
    }

    /// Its numerator.
    fn num(self) -> i128
        ensures { result ≡ part_num self.floor self.above self.den }
    {
        i128::from(self.floor) * i128::from(self.den) + i128::from(self.above)
    }

    /// The fraction that it is.
    pub fn frac(self) -> Frac
        ensures num { result.num ≡ part_num self.floor self.above self.den }
        ensures den { result.den ≡ self.den }
    {
        Frac {
            num: self.num(),
            den: u64::from(self.den),
        }
    }
}

/// An exact point of which at least one coordinate is whole.
///
/// Whole coordinates are OpenStreetMap's, longitude and latitude in units of 1e-7 degree. A point that isn't a location lies
/// where a segment meets a line of whole coordinate, so one of its coordinates is a fraction.
///
/// No point has two spellings: a fraction is in lowest terms and never whole. So equal points have equal fields, and `==` is
/// equality of points. A point where two segments cross may have no whole coordinate, and then is none of these: `meeting`
/// gives it as two fractions.
#[derive(Clone, Copy, Debug, PartialEq, Eq)]
pub enum Point {
    /// Both coordinates are whole.
    Lattice(Loc),
    /// Only x is whole: a point inside a segment, on the line x = c.
    OnVertical { c: i32, y: Part },
    /// Only y is whole: a point inside a segment, on the line y = d.
    OnHorizontal { x: Part, d: i32 },
}
