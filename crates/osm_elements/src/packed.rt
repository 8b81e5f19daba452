//! Texts in one block. A usual text is one byte; any other follows its length.
//!
//! A length takes one byte, or five if the text has 192 or more bytes.

ghost use Rattle.std.specs.Prelude.{◌≡◌, ◌≤◌, ◌<◌, ◌^◌, ◌++◌, length, drop, take, OnOk, OnErr};
ghost use Rattle.osm_elements.specs.Packed.{length_bytes, head_len, text_len, first_text, after_text, BeginsWithText, IsTextAdded};

use crate::block::Block;
use crate::usual::{FIRST_CODE, usual_code, usual_text};
use std::alloc::AllocError as OutOfMemory;
use std::str;

/// The byte in front of a length of four bytes.
const LONG: u8 = 255;

/// The bytes of a length, and how many there are.
#[tactic(auto, unfolding(crate::specs::Packed::length_bytes))]
fn length_bytes(len: u32) -> ([u8; 5], usize)
    ensures few { result.1 ≤ 5 }
    ensures bytes { take result.1 result.0 ≡ length_bytes len }
{
    if len < u32::from(FIRST_CODE) {
        return ([len as u8, 0, 0, 0, 0], 1);
    }
    let digits = [
        len % 256,
        len / 256 % 256,
        len / 65_536 % 256,
        len / 16_777_216,
    ];
    (
        [
            LONG,
            digits[0] as u8,
            digits[1] as u8,
            digits[2] as u8,
            digits[3] as u8,
        ],
        5,
    )
}

/// Adds a text after its length. After an `Err` nothing is added.
fn push_whole(texts: &mut Block, len: u32, text: &str) -> Result<(), OutOfMemory>
    requires { len ≡ length text.now }
    ensures ok { OnOk result (texts.new
        ≡ texts.old ++ (length_bytes (length text.now) ++ text.now)) }
    ensures err { OnErr result (texts.new ≡ texts.old) }
{
    let before = texts.len();
    let (bytes, count) = length_bytes(len);
    texts.extend_from_slice(&bytes[..count])?;
    if texts.extend_from_slice(text.as_bytes()).is_err() {
        texts.truncate(before);
        return Err(OutOfMemory);
    }
    Ok(())
}

/// Adds a text. After an `Err` nothing is added.
pub(crate) fn push_text(texts: &mut Block, text: &str) -> Result<(), OutOfMemory>
    ensures ok { OnOk result (IsTextAdded texts.old text.now texts.new) }
    ensures short { OnOk result (length text.now < 2 ^ 32) }
    ensures err { OnErr result (texts.new ≡ texts.old) }
{
    let Ok(len) = u32::try_from(text.len()) else {
        return Err(OutOfMemory);
    };
    if let Some(code) = usual_code(text) {
        return texts.push(code);
    }
    push_whole(texts, len, text)
}

/// The length in front of a text, or 0 if one byte is the text, and the bytes after it.
#[tactic(auto, unfolding(crate::specs::Packed::head_len, crate::specs::Packed::text_len))]
fn split_length(bytes: &[u8]) -> (usize, &[u8])
    requires { head_len bytes.now ≤ length bytes.now }
    ensures len { result.0 ≡ text_len bytes.now }
    ensures behind { result.1.now ≡ drop (head_len bytes.now) bytes.now }
{
    let first = bytes[0];
    if first < LONG {
        let (_, behind) = bytes.split_at(1);
        let len = if first < FIRST_CODE {
            usize::from(first)
        } else {
            0
        };
        return (len, behind);
    }
    let (digits, behind) = bytes.split_at(5);
    let len = usize::from(digits[1])
        + 256 * usize::from(digits[2])
        + 65_536 * usize::from(digits[3])
        + 16_777_216 * usize::from(digits[4]);
    (len, behind)
}

/// The text in front, and the bytes after it.
#[tactic(auto, unfolding(crate::specs::Packed::text_by))]
pub(crate) fn split_text(bytes: &[u8]) -> (&str, &[u8])
    requires { BeginsWithText bytes.now }
    ensures text { result.0.now ≡ first_text bytes.now }
    ensures behind { result.1.now ≡ after_text bytes.now }
{
    let (len, behind) = split_length(bytes);
    let (text, behind) = behind.split_at(len);
    let first = bytes[0];
    if first >= FIRST_CODE && first < LONG {
        return (usual_text(first), behind);
    }
    // By contract these are the bytes of the text that was pushed, so they are UTF-8.
    let text = unsafe { str::from_utf8_unchecked(text) };
    (text, behind)
}
