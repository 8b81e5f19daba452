//! KEYS, the value of an option: keys separated by commas.

ghost use Rattle.std.specs.Prelude.{◌≡◌, ℕ, Some, None, IfOk, IfSome, is_some};
ghost use Rattle.std.specs.Prelude as prelude;
ghost use Rattle.std.specs.List.{list_all};
ghost use Rattle.opl_reader.specs.Keys.{AreKeys, is_inner, key_said, keys_said};

use crate::escape::{is_string, read_string};
use crate::fault::LineError;
use crate::items::next_item;
use lists::List;
use osm_elements::Text;
use std::alloc::{AllocError as OutOfMemory, Global};

/// The most keys that it may have.
const MOST_KEYS: usize = 64;

/// Whether the text has neither a space nor a tab.
fn is_one_word(text: &str) -> bool
    ensures { result ≡ list_all is_inner text.now }
{
    text.as_bytes()
        .iter()
        .all(|byte| *byte != b' ' && *byte != b'\t')
}

/// Whether a text writes a key.
fn is_key(written: &str) -> bool
    ensures { result ≡ is_some (key_said written.now) }
{
    if written.is_empty() {
        return false;
    }
    if !is_one_word(written) {
        return false;
    }
    is_string(written)
}

/// The key that a text writes; None if it writes none.
fn read_key(alloc: Global, written: &str) -> Result<Option<Text>, OutOfMemory>
    ensures { IfOk result (λ key. key ≡ key_said written.now) }
{
    if !is_key(written) {
        return Ok(None);
    }
    match read_string(alloc, written, 0) {
        Ok(key) => Ok(Some(key)),
        Err(LineError::Fault(_)) => Ok(None),
        Err(LineError::OutOfMemory) => Err(OutOfMemory),
    }
}

/// Whether a text is KEYS: 1 to 64 keys separated by commas. It takes no memory.
pub fn is_keys(text: &str) -> bool
    ensures { result ≡ is_some (keys_said text.now) }
{
    let mut left = Some(text);
    for _ in 0..MOST_KEYS {
        let Some(rest) = left else {
            return true;
        };
        let (written, more) = next_item(rest);
        if !is_key(written) {
            return false;
        }
        left = more;
    }
    left.is_none()
}

/// The keys of KEYS; None if the text isn't KEYS.
fn keys_of(alloc: Global, text: &str) -> Result<Option<List<Text>>, OutOfMemory>
    ensures { IfOk result (λ keys. keys ≡ keys_said text.now) }
{
    let mut keys = List::new(alloc);
    let mut left = Some(text);
    for _ in 0..MOST_KEYS {
        let Some(rest) = left else {
            return Ok(Some(keys));
        };
        let (written, more) = next_item(rest);
        let Some(key) = read_key(alloc, written)? else {
            return Ok(None);
        };
        keys.push(key)?;
        left = more;
    }
    if left.is_some() {
        return Ok(None);
    }
    Ok(Some(keys))
}

/// The keys of KEYS: 1 to 64 strings of an OPL line, none empty, separated by commas.
///
/// A space or a tab in one is written `%20%` or `%9%`; any other character is written as itself. A key may occur twice.
///
/// None comes exactly if the text isn't KEYS.
pub fn read_keys(alloc: Global, text: &str) -> Result<Option<List<Text>>, OutOfMemory>
    ensures said { IfOk result (λ read. read ≡ keys_said text.now) }
    ensures keys { IfOk result (λ read. IfSome read (AreKeys text.now)) }
    ensures none { IfOk result (λ read. read ≡ None → (keys : prelude.List (prelude.List ℕ))
        → ¬ AreKeys text.now keys) }
{
    keys_of(alloc, text)
}

/// KEYS is read as the keys that it writes, and as no others.
pub fn keys_are_written()
    ensures read { (bytes : prelude.List ℕ) (keys : prelude.List (prelude.List ℕ))
        → keys_said bytes ≡ Some keys → AreKeys bytes keys }
    ensures written { (bytes : prelude.List ℕ) (keys : prelude.List (prelude.List ℕ))
        → AreKeys bytes keys → keys_said bytes ≡ Some keys }
{}
