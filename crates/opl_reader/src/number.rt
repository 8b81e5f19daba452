//! Ids and decimals.

ghost use Rattle.std.specs.Prelude.{◌≡◌, ◌+◌, ◌*◌, ◌/◌, ◌^◌, if◌then◌else◌, ◌<◌, ◌≤◌, ◌≤ℤ◌, pos, neg_ℤ, min, option_map, length, IsTrue, IfSome, IfNone, ℤ, nat_abs, Some, None};
ghost use Rattle.std.specs.List.{list_all, before_first, after_first};
ghost use Rattle.std.specs.Char.{is_ascii_digit};
ghost use Rattle.std.specs.Str.Parse.{digits_value};
ghost use Rattle.opl_reader.specs.Numbers.{IsWithinLimit, IsId, IsDecimal, first_eight};
ghost use Rattle.opl_reader.specs.NumberReading.{magnitude_of, id_spelled, is_point, unsigned_of, within, decimal_of};
ghost use Rattle.opl_reader.specs.Steps.{capped, LeadingDigits};

use crate::search::first_cut;

/// The greatest magnitude of an id, 2^62 - 1.
pub const MAX_ID: u64 = 4_611_686_018_427_387_903;

/// Whether each byte is a digit.
pub fn are_digits(bytes: &[u8]) -> bool
    ensures { result ≡ list_all is_ascii_digit bytes.now }
{
    bytes.iter().all(|b| b.is_ascii_digit())
}

/// How many digits always fit a u64.
const HELD_DIGITS: usize = 19;

/// The value of few digits; None if a byte is no digit.
fn short_value(bytes: &[u8]) -> Option<u64>
    requires { length bytes.now ≤ 19 }
    ensures { result ≡ (if list_all is_ascii_digit bytes.now
        then Some (digits_value 10 bytes.now) else None) }
{
    let mut value: u64 = 0;
    for byte in bytes {
        if !byte.is_ascii_digit() {
            return None;
        }
        value = value * 10 + u64::from(*byte - b'0');
    }
    Some(value)
}

/// How many digits are read at once: their value is always that of an id.
const FEW_DIGITS: usize = 18;

/// The value of the digits in front, at most 18, and how many there are.
pub fn leading_digits(bytes: &[u8]) -> (u64, usize)
    ensures digits { LeadingDigits bytes.now result.0 result.1 }
    ensures inside { result.1 ≤ length bytes.now }
    ensures small { result.0 < 10 ^ 18 }
{
    let most = bytes.len().min(FEW_DIGITS);
    let mut value: u64 = 0;
    for place in 0..most {
        let byte = bytes[place];
        if !byte.is_ascii_digit() {
            return (value, place);
        }
        value = value * 10 + u64::from(byte - b'0');
    }
    (value, most)
}

/// The value of any number of digits, at most 2^64 - 1; None if a byte is no digit.
fn long_value(bytes: &[u8]) -> Option<u64>
    ensures { result ≡ (if list_all is_ascii_digit bytes.now
        then Some (capped (digits_value 10 bytes.now)) else None) }
{
    let mut value: u64 = 0;
    for byte in bytes {
        if !byte.is_ascii_digit() {
            return None;
        }
        value = value
            .saturating_mul(10)
            .saturating_add(u64::from(*byte - b'0'));
    }
    Some(value)
}

/// The value of digits, at most 2^64 - 1; None if a byte is no digit.
///
/// Ways: up to 19 digits by plain sums; all others by sums that stop at the greatest number.
fn value(bytes: &[u8]) -> Option<u64>
    ensures { result ≡ (if list_all is_ascii_digit bytes.now
        then Some (capped (digits_value 10 bytes.now)) else None) }
{
    if bytes.len() > HELD_DIGITS {
        return long_value(bytes);
    }
    short_value(bytes)
}

/// One or more digits, up to the greatest magnitude of an id.
#[tactic(auto, unfolding(crate::specs::NumberReading::magnitude_of))]
fn magnitude(digits: &[u8]) -> Option<i64>
    ensures value { result ≡ magnitude_of digits.now }
    ensures in_range { IfSome result (λ n. (pos 0 ≤ℤ n) × (n ≤ℤ pos 4611686018427387903)) }
{
    if digits.is_empty() {
        return None;
    }
    let value = value(digits)?;
    if value > MAX_ID {
        return None;
    }
    Some(value as i64)
}

/// An optional minus, and a magnitude.
#[tactic(auto, unfolding(crate::specs::NumberReading::id_spelled))]
fn id(text: &[u8]) -> Option<i64>
    ensures { result ≡ id_spelled text.now }
{
    match text {
        [b'-', digits @ ..] => {
            let magnitude = magnitude(digits)?;
            Some(-magnitude)
        }
        digits => magnitude(digits),
    }
}

/// An id; None if the text is none.
pub fn read_id(text: &[u8]) -> Option<i64>
    ensures found { IfSome result (λ id. IsId text.now id) }
    ensures none { IfNone result ((id : ℤ) → ¬ IsId text.now id) }
    ensures value { result ≡ id_spelled text.now }
{
    id(text)
}

/// The digits before the first point, and those after it.
fn cut_at_point(text: &[u8]) -> (&[u8], &[u8])
    ensures whole { result.0.now ≡ before_first is_point text.now }
    ensures decimals { result.1.now ≡ after_first is_point text.now }
{
    let len = first_cut(text, b'.');
    if len == text.len() {
        return (text, &text[len..]);
    }
    (&text[..len], &text[len + 1..])
}

/// What the last of `n` decimals counts, in units, at place `n`.
const UNITS: [u64; 8] = [10_000_000, 1_000_000, 100_000, 10_000, 1_000, 100, 10, 1];

/// The units of at most seven decimals, which need no rounding; None if a byte is no digit.
fn few_decimals(decimals: &[u8]) -> Option<u64>
    requires { length decimals.now ≤ 7 }
    ensures value { result ≡ (if list_all is_ascii_digit decimals.now
        then Some ((digits_value 10 (first_eight decimals.now) + 5) / 10) else None) }
    ensures bound { IfSome result (λ n. n ≤ 10000000) }
{
    let value = short_value(decimals)?;
    Some(value * UNITS[decimals.len()])
}

/// The units of eight or more decimals, rounded at the eighth; None if a byte is no digit.
fn many_decimals(decimals: &[u8]) -> Option<u64>
    requires { 8 ≤ length decimals.now }
    ensures value { result ≡ (if list_all is_ascii_digit decimals.now
        then Some ((digits_value 10 (first_eight decimals.now) + 5) / 10) else None) }
    ensures bound { IfSome result (λ n. n ≤ 10000000) }
{
    let (first, others) = decimals.split_at(8);
    let tenths = short_value(first)?;
    if !are_digits(others) {
        return None;
    }
    Some((tenths + 5) / 10)
}

/// The units of decimals, rounded at the eighth; None if a byte is no digit.
fn fraction(decimals: &[u8]) -> Option<u64>
    ensures value { result ≡ (if list_all is_ascii_digit decimals.now
        then Some ((digits_value 10 (first_eight decimals.now) + 5) / 10) else None) }
    ensures bound { IfSome result (λ n. n ≤ 10000000) }
{
    if decimals.len() <= 7 {
        return few_decimals(decimals);
    }
    many_decimals(decimals)
}

/// The most degrees of any coordinate.
const MOST_DEGREES: u64 = 180;

/// The units of a coordinate in the usual form, with a few degrees and a point. None decides nothing.
fn usual(text: &[u8]) -> Option<u64>
    ensures units { IfSome result (λ n. unsigned_of text.now ≡ Some n) }
    ensures small { IfSome result (λ n. n < 2 ^ 64) }
{
    let (degrees, len) = leading_digits(text);
    if len == 0 || degrees > MOST_DEGREES {
        return None;
    }
    if len == text.len() || text[len] != b'.' {
        return None;
    }
    let (_, decimals) = text.split_at(len + 1);
    let fraction = fraction(decimals)?;
    Some(degrees * 10_000_000 + fraction)
}

/// The units of digits with a point, up to the greatest number of the machine.
///
/// Ways: decimals of up to 180 degrees and a point; all others by the whole grammar.
#[tactic(auto, unfolding(crate::specs::NumberReading::unsigned_of))]
fn unsigned(text: &[u8]) -> Option<u64>
    ensures { result ≡ option_map capped (unsigned_of text.now) }
{
    if let Some(units) = usual(text) {
        return Some(units);
    }
    let (whole, decimals) = cut_at_point(text);
    if whole.is_empty() && decimals.is_empty() {
        return None;
    }
    let degrees = value(whole)?;
    let fraction = fraction(decimals)?;
    Some(degrees.saturating_mul(10_000_000).saturating_add(fraction))
}

/// Digits with a point, worth at most the limit.
#[tactic(auto, unfolding(crate::specs::NumberReading::within))]
fn within(text: &[u8], limit: i64) -> Option<i64>
    ensures value { result ≡ within limit text.now }
    ensures in_range { IfSome result (λ units. (pos 0 ≤ℤ units) × (units ≤ℤ limit)) }
{
    let units = unsigned(text)?;
    if limit < 0 || units > limit as u64 {
        return None;
    }
    Some(units as i64)
}

/// The units of a decimal with its sign. The crate calls this one; its contract is the function alone.
#[tactic(auto, unfolding(crate::specs::NumberReading::decimal_of))]
pub fn decimal(text: &[u8], limit: i64) -> Option<i64>
    ensures value { result ≡ decimal_of limit text.now }
    ensures in_range { IfSome result (λ z. (neg_ℤ limit ≤ℤ z) × (z ≤ℤ limit)) }
{
    match text {
        [b'-', rest @ ..] => {
            let units = within(rest, limit)?;
            Some(-units)
        }
        [b'+', rest @ ..] => within(rest, limit),
        rest => within(rest, limit),
    }
}

/// The value of a decimal in units of 1e-7: an optional sign, digits, and after a point more digits, at least one in all.
///
/// The eighth decimal rounds the magnitude, upwards from 5 on, and later ones don't count. There is no exponent. None comes
/// if the text is no such decimal, or if its rounded magnitude is above the limit.
pub fn read_decimal(text: &[u8], limit: i64) -> Option<i64>
    ensures found { IfSome result (λ units. IsDecimal text.now units × IsWithinLimit limit units) }
    ensures none { IfNone result ((units : ℤ) → IsDecimal text.now units
        → ¬ IsWithinLimit limit units) }
    // The same, as a function of the text.
    ensures value { result ≡ decimal_of limit text.now }
{
    decimal(text, limit)
}
