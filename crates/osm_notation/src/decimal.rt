//! Decimals of coordinates.

ghost use Rattle.std.specs.Prelude.{◌≡◌, ◌≢◌, ℕ, ◌+◌, ◌-◌, ◌^◌, ◌<◌, ◌≤◌, ◌∷◌, ◌++◌, [], length, take, slice_index, decimal};
ghost use Rattle.osm_notation.specs.Decimal.{units_text, magnitude_text, fraction_text, last_digits, without_end_zeros};

use itoa::Buffer;

/// The units of a degree.
const UNITS: u64 = 10_000_000;

/// Puts a byte at a place of the buffer, and gives the place after it.
pub(crate) fn put_byte(buf: &mut [u8], at: usize, byte: u8) -> usize
    requires { at < length buf.old }
    ensures end { result ≡ at + 1 }
    ensures text { take result buf.new ≡ take at buf.old ++ byte ∷ [] }
{
    buf[at] = byte;
    at + 1
}

/// Puts bytes at a place of the buffer, and gives the place after them.
fn put(buf: &mut [u8], at: usize, bytes: &[u8]) -> usize
    requires { at + length bytes.now ≤ length buf.old }
    ensures end { result ≡ at + length bytes.now }
    ensures text { take result buf.new ≡ take at buf.old ++ bytes.now }
{
    let end = at + bytes.len();
    buf[at..end].copy_from_slice(bytes);
    end
}

/// The decimal digit of a number below ten.
fn digit(number: u64) -> u8
    requires { number < 10 }
    ensures { result ≡ 48 + number }
{
    b'0' + number as u8
}

/// The seven decimals of a remainder. Each division is by a number that the compiler knows.
#[tactic(auto, unfolding(crate::specs::Decimal::last_digits))]
fn decimals(rest: u64) -> [u8; 7]
    requires { rest < 10 ^ 7 }
    ensures { result ≡ last_digits 7 rest }
{
    let second = rest % 1_000_000;
    let third = second % 100_000;
    let fourth = third % 10_000;
    let fifth = fourth % 1_000;
    let sixth = fifth % 100;
    [
        digit(rest / 1_000_000),
        digit(second / 100_000),
        digit(third / 10_000),
        digit(fourth / 1_000),
        digit(fifth / 100),
        digit(sixth / 10),
        digit(sixth % 10),
    ]
}

/// How many digits there are without trailing zeros.
#[tactic(auto, using(crate::proofs::DecimalLemmas::zero_less))]
fn len_without_end_zeros(digits: &[u8]) -> usize
    ensures bound { result ≤ length digits.now }
    ensures same { without_end_zeros (take result digits.now) ≡ without_end_zeros digits.now }
    ensures stops { 0 < result → slice_index digits.now (result - 1) ≢ 48 }
{
    let mut len = digits.len();
    while len > 0 && digits[len - 1] == b'0' {
        len -= 1;
    }
    len
}

/// Puts all seven decimals, and gives the place after the first `len`, which count.
///
/// So the compiler knows how many bytes it copies.
fn put_front(buf: &mut [u8], at: usize, decimals: [u8; 7], len: usize) -> usize
    requires room { at + 7 ≤ length buf.old }
    requires few { len ≤ 7 }
    ensures end { result ≡ at + len }
    ensures text { take result buf.new ≡ take at buf.old ++ take len decimals }
{
    put(buf, at, &decimals);
    at + len
}

/// Puts a point and decimals, if there is a remainder.
#[tactic(auto, unfolding(crate::specs::Decimal::fraction_text))]
fn put_fraction(buf: &mut [u8], at: usize, rest: u64) -> usize
    requires room { at + 8 ≤ length buf.old }
    requires rest { rest < 10 ^ 7 }
    ensures short { result ≤ at + 8 }
    ensures text { take result buf.new ≡ take at buf.old ++ fraction_text rest }
{
    if rest == 0 {
        return at;
    }
    let point = put_byte(buf, at, b'.');
    let decimals = decimals(rest);
    let len = len_without_end_zeros(&decimals);
    put_front(buf, point, decimals, len)
}

/// Puts whole degrees.
#[tactic(auto, using(crate::proofs::DecimalLemmas::short_degrees))]
fn put_degrees(buf: &mut [u8], at: usize, degrees: u64) -> usize
    requires room { at + 13 ≤ length buf.old }
    requires few { degrees < 10 ^ 13 }
    ensures short { result ≤ at + 13 }
    ensures text { take result buf.new ≡ take at buf.old ++ decimal degrees }
{
    let mut digits = Buffer::new();
    put(buf, at, digits.format(degrees).as_bytes())
}

/// Puts the decimal of a magnitude.
#[tactic(auto, using(crate::proofs::DecimalLemmas::few_degrees), unfolding(crate::specs::Decimal::magnitude_text))]
fn put_magnitude(buf: &mut [u8], at: usize, magnitude: u64) -> usize
    requires { at + 21 ≤ length buf.old }
    ensures short { result ≤ at + 21 }
    ensures text { take result buf.new ≡ take at buf.old ++ magnitude_text magnitude }
{
    let point = put_degrees(buf, at, magnitude / UNITS);
    put_fraction(buf, point, magnitude % UNITS)
}

/// Puts the decimal of a number of units at a place of the buffer, and gives the place after it.
pub(crate) fn put_units(buf: &mut [u8], at: usize, v: i64) -> usize
    requires { at + 22 ≤ length buf.old }
    ensures short { result ≤ at + 22 }
    ensures text { take result buf.new ≡ take at buf.old ++ units_text v }
{
    if v < 0 {
        let at = put_byte(buf, at, b'-');
        return put_magnitude(buf, at, v.unsigned_abs());
    }
    put_magnitude(buf, at, v.unsigned_abs())
}

/// Puts the decimal of a number of units at the front of the buffer, and gives its length.
pub fn put_decimal(buf: &mut [u8; 24], v: i64) -> usize
    ensures short { result ≤ 24 }
    ensures text { take result buf.new ≡ units_text v }
{
    put_units(buf, 0, v)
}
