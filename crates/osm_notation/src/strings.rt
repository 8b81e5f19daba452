//! Written strings: texts as OPL and the format text spell them.

ghost use Rattle.std.specs.Prelude.{◌≡◌, ◌<◌, ◌≤◌, ◌∷◌, ◌++◌, [], true, false, length, take, slice_index, IfOk, OnOk, OnErr, IsUtf8};
ghost use Rattle.std.specs.Fmt.{digit_glyph, digits};
ghost use Rattle.std.specs.List.{list_all};
ghost use Rattle.osm_notation.specs.Written.{is_plain, written};
ghost use Rattle.osm_notation.specs.Kept.{KeepsFront};

use osm_elements::Text;
use std::alloc::{AllocError as OutOfMemory, Global};

/// Whether a byte is a character that is written as itself.
fn is_plain(c: u8) -> bool
    ensures { result ≡ is_plain c }
{
    b'!' <= c && c <= b'~' && !(c == b'%' || c == b',' || c == b'=' || c == b'@')
}

/// How many bytes at the front are characters that are written as themselves.
fn plain_len(bytes: &[u8]) -> usize
    ensures bound { result ≤ length bytes.now }
    ensures plain { list_all is_plain (take result bytes.now) ≡ true }
    ensures stops { result < length bytes.now → is_plain (slice_index bytes.now result) ≡ false }
{
    let mut len = 0;
    while len < bytes.len() && is_plain(bytes[len]) {
        len += 1;
    }
    len
}

/// The lower case hexadecimal digit of a number below 16.
fn digit(number: u32) -> u8
    requires { number < 16 }
    ensures { result ≡ digit_glyph false number }
{
    if number < 10 {
        b'0' + number as u8
    } else {
        b'a' + (number - 10) as u8
    }
}

/// Adds a number in lower case hexadecimal.
fn put_hexadecimal(bytes: &mut Vec<u8>, number: u32) -> Result<(), OutOfMemory>
    ensures text { OnOk result (bytes.new.items ≡ bytes.old.items ++ digits 16 false number) }
    ensures kept { OnErr result (KeepsFront bytes.old.items bytes.new.items) }
{
    let mut digits = [b'0'; 8];
    let mut at = 7;
    digits[at] = digit(number % 16);
    let mut left = number / 16;
    while left > 0 {
        at -= 1;
        digits[at] = digit(left % 16);
        left /= 16;
    }
    bytes.extend_from_slice(&digits[at..])?;
    Ok(())
}

/// Adds a character that isn't written as itself: its code point between percent signs.
fn put_escape(bytes: &mut Vec<u8>, c: char) -> Result<(), OutOfMemory>
    ensures text { OnOk result (bytes.new.items
        ≡ bytes.old.items ++ 37 ∷ digits 16 false c ++ 37 ∷ []) }
    ensures kept { OnErr result (KeepsFront bytes.old.items bytes.new.items) }
{
    bytes.push(b'%')?;
    put_hexadecimal(bytes, c as u32)?;
    bytes.push(b'%')?;
    Ok(())
}

/// Adds the first character of a text, which isn't written as itself, and gives the text after it.
fn put_first<'a>(bytes: &mut Vec<u8>, text: &'a str) -> Result<&'a str, OutOfMemory>
    requires { 0 < length text.now → is_plain (slice_index text.now 0) ≡ false }
    ensures text { IfOk result (λ rest. bytes.new.items ++ written rest.now
        ≡ bytes.old.items ++ written text.now) }
    ensures utf8 { IfOk result (λ rest. IsUtf8 rest.now) }
    ensures bound { IfOk result (λ rest. length rest.now ≤ length text.now) }
    ensures shorter { IfOk result (λ rest. 0 < length text.now
        → length rest.now < length text.now) }
    ensures kept { KeepsFront bytes.old.items bytes.new.items }
{
    let mut chars = text.chars();
    let Some(c) = chars.next() else {
        return Ok(text);
    };
    put_escape(bytes, c)?;
    Ok(chars.as_str())
}

/// Adds the written string of a text.
pub fn put_written(bytes: &mut Vec<u8>, text: &str) -> Result<(), OutOfMemory>
    ensures text { OnOk result (bytes.new.items ≡ bytes.old.items ++ written text.now) }
    ensures kept { OnErr result (KeepsFront bytes.old.items bytes.new.items) }
{
    let mut rest = text;
    while !rest.is_empty() {
        let (plain, more) = rest.split_at(plain_len(rest.as_bytes()));
        bytes.extend_from_slice(plain.as_bytes())?;
        rest = put_first(bytes, more)?;
    }
    Ok(())
}

/// The written string of a text, the spelling of strings in OPL (its manual calls it escaping).
///
/// The characters from `!` to `~` are written as themselves, except `%`, `,`, `=` and `@`. Each other character is `%`, its
/// code point in lower case hexadecimal without leading zeros, and `%`.
pub fn written(alloc: Global, text: &Text) -> Result<Vec<u8>, OutOfMemory>
    ensures { IfOk result (λ bytes. bytes.items ≡ written text.now) }
{
    let mut bytes = Vec::with_capacity(alloc, text.as_str().len())?;
    put_written(&mut bytes, text.as_str())?;
    Ok(bytes)
}
