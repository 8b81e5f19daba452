//! Degrees, the value of an option.

ghost use Rattle.std.specs.Prelude.{◌≡◌, ◌≤◌, IfSome};
ghost use Rattle.osm_words.specs.Degrees.{degrees_named};

use opl_reader::read_decimal;

/// The units of 1e-7 degree of a decimal without a sign; None where the word is none, or is above `most` of them.
pub(crate) fn degrees_named(word: &str, most: u32) -> Option<u32>
    ensures value { result ≡ degrees_named most word.now }
    ensures in_range { IfSome result (λ units. units ≤ most) }
{
    match word.as_bytes() {
        [b'-' | b'+', ..] => None,
        decimal => {
            let units = read_decimal(decimal, i64::from(most))?;
            u32::try_from(units).ok()
        }
    }
}
