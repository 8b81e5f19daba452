//! The lines of a text, taken off its front.

ghost use Rattle.std.specs.Prelude.{◌≡◌, ◌∷◌, [], MatchOption};
ghost use Rattle.area_certify.specs.Lines.{text_lines};

use memchr::memchr;

/// The first line of a text, with the LF that ends it, and the text after it. None if nothing is left.
pub(crate) fn first_line(text: &[u8]) -> Option<(&[u8], &[u8])>
    ensures { MatchOption result (text_lines text.now ≡ [])
        (λ x. text_lines text.now ≡ x.0.now ∷ text_lines x.1.now) }
{
    if text.is_empty() {
        return None;
    }
    match memchr(b'\n', text) {
        Some(end) => Some(text.split_at(end + 1)),
        None => Some(text.split_at(text.len())),
    }
}
