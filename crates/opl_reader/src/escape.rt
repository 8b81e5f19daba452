//! Strings with escapes.

ghost use Rattle.std.specs.Prelude.{◌≡◌, List, ℕ, IsTrue, Some, is_some};
ghost use Rattle.opl_reader.specs.Reading.{Gives};
ghost use Rattle.opl_reader.specs.Strings.{IsString};
ghost use Rattle.opl_reader.specs.StringReading.{code_point, string_of, string_at};

use crate::cut::cut;
use crate::fault::{FaultKind, LineError, fault};
use crate::search::first_cut;
use osm_elements::Text;
use std::alloc::Global;

/// The character of an escape: one to six hexadecimal digits.
fn code_point(digits: &str) -> Option<char>
    ensures { result ≡ code_point digits.now }
{
    if digits.is_empty() || digits.len() > 6 {
        return None;
    }
    let mut code: u32 = 0;
    for byte in digits.as_bytes() {
        let digit = char::from(*byte).to_digit(16)?;
        code = code.saturating_mul(16).saturating_add(digit);
    }
    char::from_u32(code)
}

/// Whether no escape begins in a text, so that the text is a string that spells itself.
pub fn is_plain(text: &str) -> bool
    ensures { IsTrue result → string_of text.now ≡ Some text.now }
{
    first_cut(text.as_bytes(), b'%') == text.len()
}

/// The string of a field or an item at this place, with its escapes read.
pub fn read_string(alloc: Global, text: &str, place: u64) -> Result<Text, LineError>
    ensures { Gives result (string_at place text.now) }
{
    let mut read = String::with_capacity(alloc, text.len())?;
    let mut rest = text;
    while let Some((plain, after)) = cut(rest, '%') {
        let Some((escape, after)) = cut(after, '%') else {
            return Err(fault(FaultKind::BadEscape, place));
        };
        let Some(c) = code_point(escape) else {
            return Err(fault(FaultKind::BadEscape, place));
        };
        read.push_str(plain)?;
        read.push(c)?;
        rest = after;
    }
    read.push_str(rest)?;
    Ok(Text::of(read))
}

/// Whether the text is a string. It takes no memory, for strings that aren't kept.
pub fn is_string(text: &str) -> bool
    ensures { result ≡ is_some (string_of text.now) }
{
    let mut rest = text;
    while let Some((_plain, after)) = cut(rest, '%') {
        let Some((escape, after)) = cut(after, '%') else {
            return false;
        };
        let Some(_c) = code_point(escape) else {
            return false;
        };
        rest = after;
    }
    true
}

/// A string is read as what its bytes spell, and as nothing else.
pub fn strings_are_spelled()
    ensures read { (bytes text : List ℕ) → string_of bytes ≡ Some text → IsString bytes text }
    ensures spelled { (bytes text : List ℕ) → IsString bytes text → string_of bytes ≡ Some text }
{}
