//! Cutting a text at a character, and bytes at a byte.

ghost use Rattle.std.specs.Prelude.{◌≡◌, ◌<◌, ◌==◌, ◌∷◌, [], length, ◌+◌, MatchOption, IfSome, option_map};
ghost use Rattle.opl_reader.specs.ItemReading.{halves};
ghost use Rattle.std.specs.Str.{IsUtf8};
ghost use Rattle.std.specs.List.{slice_split, position_or_len, before_first, after_first};

use crate::search::first_cut;

/// The text before the first such character, and the text after it.
pub fn cut(text: &str, at: char) -> Option<(&str, &str)>
    requires { at < 128 }
    ensures first { MatchOption result (position_or_len (λ b. b == at) text.now ≡ length text.now)
        (λ x. (x.0.now ≡ before_first (λ b. b == at) text.now)
        × (x.1.now ≡ after_first (λ b. b == at) text.now)
        × (position_or_len (λ b. b == at) text.now < length text.now)) }
    ensures parts { MatchOption result (slice_split (λ b. b == at) text.now ≡ text.now ∷ [])
        (λ x. slice_split (λ b. b == at) text.now ≡ x.0.now ∷ slice_split (λ b. b == at) x.1.now) }
    ensures halves { option_map (λ x. (x.0.now, x.1.now)) result ≡ halves at text.now }
    ensures utf8 { IfSome result (λ x. IsUtf8 x.1.now) }
    ensures len { IfSome result (λ x. length x.0.now + length x.1.now + 1 ≡ length text.now) }
{
    let place = first_cut(text.as_bytes(), at as u8);
    if place == text.len() {
        return None;
    }
    Some((&text[..place], &text[place + 1..]))
}

/// The bytes before the first such byte, and the bytes after it.
pub fn cut_bytes(bytes: &[u8], at: u8) -> Option<(&[u8], &[u8])>
    ensures { option_map (λ x. (x.0.now, x.1.now)) result ≡ halves at bytes.now }
{
    let place = first_cut(bytes, at);
    if place == bytes.len() {
        return None;
    }
    Some((&bytes[..place], &bytes[place + 1..]))
}
