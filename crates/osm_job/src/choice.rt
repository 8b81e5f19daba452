//! Which objects the options of a job take for candidates.

ghost use Rattle.std.specs.Prelude.{◌≡◌, IfOk};
ghost use Rattle.osm_words.specs.Answers.{keys_seen};

use opl_reader::read_keys;
use osm_objects::{Choice, Keys};
use std::alloc::{AllocError as OutOfMemory, Global};

/// The keys that a text writes; None if there are none to read.
fn keys_of(alloc: Global, written: Option<&str>) -> Result<Option<Keys>, OutOfMemory>
    ensures { IfOk result (λ keys. keys ≡ keys_seen written.entry) }
{
    match written {
        Some(written) => read_keys(alloc, written),
        None => Ok(None),
    }
}

/// The choice of a job that keeps untagged objects or doesn't, with its lists of keys as they are written.
pub fn choice_of(
    alloc: Global,
    keep_untagged: bool,
    area_keys: Option<&str>,
    linear_keys: Option<&str>,
) -> Result<Choice, OutOfMemory>
    ensures { IfOk result (λ choice. choice ≡ record {
      keep_untagged = keep_untagged;
      area_keys = keys_seen area_keys.entry;
      linear_keys = keys_seen linear_keys.entry;
    }) }
{
    let area_keys = keys_of(alloc, area_keys)?;
    let linear_keys = keys_of(alloc, linear_keys)?;
    Ok(Choice {
        keep_untagged,
        area_keys,
        linear_keys,
    })
}
