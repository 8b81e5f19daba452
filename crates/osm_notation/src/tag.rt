//! Tags, as OPL and the format text spell them.

ghost use Rattle.std.specs.Prelude.{◌≡◌, ◌++◌, OnOk, OnErr};
ghost use Rattle.osm_elements.specs.Seen.{tag_seen};
ghost use Rattle.osm_notation.specs.Kept.{KeepsFront};
ghost use Rattle.osm_notation.specs.Written.{tag_text};

use crate::strings::put_written;
use osm_elements::TagRef;
use std::alloc::AllocError as OutOfMemory;

/// Adds a tag: its key, an equals sign and its value.
pub fn put_tag(text: &mut Vec<u8>, tag: &TagRef<'_>) -> Result<(), OutOfMemory>
    ensures text { OnOk result (text.new.items ≡ text.old.items ++ tag_text (tag_seen tag.now)) }
    ensures kept { OnErr result (KeepsFront text.old.items text.new.items) }
{
    put_written(text, tag.key)?;
    text.push(b'=')?;
    put_written(text, tag.value)
}
