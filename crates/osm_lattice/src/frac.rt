//! Fractions in lowest terms.
ghost use Rattle.std.specs.Prelude.{◌≡◌, ◌*◌, ◌*ℤ◌, ◌≤◌, ◌<◌, pos, unsigned_abs};
ghost use Rattle.std.specs.Int.{IsGcd};
ghost use Rattle.osm_lattice.specs.Frac.{rounded};
ghost use Rattle.osm_lattice.specs.Lowest.{IsInLowestTerms};

/// The fraction `num / den`, in lowest terms, so that equal fractions have equal fields.
#[derive(Clone, Copy, Debug, PartialEq, Eq)]
pub struct Frac {
    pub num: i128,
    pub den: u64,
    pub ghost den_in: { 1 ≤ den },
    pub ghost lowest: { IsInLowestTerms num den },
}

/// The greatest common divisor.
fn gcd(a: u128, b: u128) -> u128
    ensures value { IsGcd a b result }
    ensures at_most { 0 < b → result ≤ b }
    ensures positive { 0 < b → 0 < result }
{
    let (mut x, mut y) = (a, b);
    while y != 0 {
        (x, y) = (y, x % y);
    }
    x
}

impl Frac {
    /// The fraction `num / den` in lowest terms. Neither part is larger than before.
    pub fn new(num: i128, den: u64) -> Frac
        requires { 1 ≤ den }
        ensures value { result.num *ℤ pos den ≡ num *ℤ pos result.den }
        ensures num_at_most { unsigned_abs result.num ≤ unsigned_abs num }
        ensures den_at_most { result.den ≤ den }
    {
        let common = gcd(num.unsigned_abs(), u128::from(den)) as u64;
        Frac {
            num: num / i128::from(common),
            den: den / common,
        }
    }
}

/// The nearest whole number, and at a half the greater one: floor((2 num + den) / (2 den)).
///
/// Cut points and meeting points are printed like this, in whole units of 1e-7 degree.
pub fn round(f: Frac) -> i64
    requires { unsigned_abs f.num ≤ 3_600_000_000 * f.den }
    ensures { result ≡ rounded f.num f.den }
{
    let den = i128::from(f.den);
    (2 * f.num + den).div_euclid(2 * den) as i64
}
