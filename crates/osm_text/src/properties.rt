//! The object of an area's tags in GeoJSON.
ghost use Rattle.std.specs.Prelude.{◌≡◌, ◌++◌, List, ℕ, IfOk, OnOk, OnErr, string_bytes};
ghost use Rattle.serde_json.specs.View.{members_view};
ghost use Rattle.osm_elements.specs.declared.object.Tag.{Tag};
ghost use Rattle.osm_elements.specs.Seen.{tag_seen};
ghost use Rattle.osm_notation.specs.Kept.{KeepsFront};
ghost use Rattle.osm_text.specs.Members.{tag_members};
ghost use Rattle.osm_text.specs.Properties.{KeysRise, by_key, first_tag_with, properties_text, with_tag};

use osm_elements::{TagRef, Tags};
use serde_json::{Map, Value};
use std::alloc::{AllocError as OutOfMemory, Global};

/// Adds a tag, unless its key is there.
fn put(alloc: Global, object: &mut Map<String, Value>, tag: &TagRef<'_>) -> Result<(), OutOfMemory>
    ensures { (tags : List Tag) → members_view object.old.entries ≡ tag_members tags
        → OnOk result (members_view object.new.entries
        ≡ tag_members (with_tag tags (tag_seen tag.now))) }
{
    let key = String::from_str(alloc, tag.key)?;
    if object.contains_key(&key) {
        return Ok(());
    }
    let value = String::from_str(alloc, tag.value)?;
    object.insert(key, Value::String(value))?;
    Ok(())
}

/// The compact text of the object of tags: of equal keys the first alone, keys rising by their bytes.
fn properties(alloc: Global, tags: &Tags) -> Result<String, OutOfMemory>
    ensures { IfOk result (λ text. string_bytes text ≡ properties_text tags.now) }
{
    let mut object = Map::new(alloc);
    let mut rest = tags.iter();
    while let Some(tag) = rest.next() {
        put(alloc, &mut object, &tag)?;
    }
    Value::Object(object).to_string(alloc)
}

/// Adds this text.
pub(crate) fn put_properties(
    alloc: Global,
    text: &mut Vec<u8>,
    tags: &Tags,
) -> Result<(), OutOfMemory>
    ensures text { OnOk result (text.new.items ≡ text.old.items ++ properties_text tags.now) }
    ensures kept { OnErr result (KeepsFront text.old.items text.new.items) }
{
    text.extend_from_slice(properties(alloc, tags)?.as_bytes())?;
    Ok(())
}

/// The laws of the tags that the object has as members: their keys rise by their bytes, and with each key stands the
/// first of the tags with it.
#[tactic(auto, using(crate::proofs::KeyLaws::by_key_rises, crate::proofs::KeyLaws::first_stands))]
pub fn tags_by_key(_tags: &Tags)
    ensures rise { KeysRise (by_key _tags.now) }
    ensures first { (key : List ℕ) → first_tag_with key (by_key _tags.now)
        ≡ first_tag_with key _tags.now }
{}
