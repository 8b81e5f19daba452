//! Numbers, the value of an option.

ghost use Rattle.std.specs.Prelude.{◌≡◌};
ghost use Rattle.std.specs.Char.{is_ascii_digit};
ghost use Rattle.std.specs.List.{list_all};
ghost use Rattle.osm_words.specs.Number.{number_named};

/// The most digits that a number is written with.
const MOST_DIGITS: usize = 7;

/// Whether each byte is a digit.
fn are_digits(bytes: &[u8]) -> bool
    ensures { result ≡ list_all is_ascii_digit bytes.now }
{
    bytes.iter().all(|byte| byte.is_ascii_digit())
}

/// The number that one to seven digits write; None for any other word.
pub(crate) fn number_named(word: &str) -> Option<u32>
    ensures { result ≡ number_named word.now }
{
    let digits = word.as_bytes();
    if digits.is_empty() || digits.len() > MOST_DIGITS || !are_digits(digits) {
        return None;
    }
    word.parse().ok()
}
