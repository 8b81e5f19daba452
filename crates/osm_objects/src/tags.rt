//! What an object's tags say. Of tags with one key the first counts.

ghost use Rattle.std.specs.Prelude.{◌≡◌, not, bytes_eq, IfOk};
ghost use Rattle.std.specs.List.{list_any};
ghost use Rattle.osm_objects.specs.Tags.{has_key, has_one_of, is_tagged, without_key};

use osm_elements::{Tags, Text};
use std::alloc::{AllocError as OutOfMemory, Global};

/// Whether the first tag of this key has this value.
pub(crate) fn is_tagged(tags: &Tags, key: &str, value: &str) -> bool
    ensures { result ≡ is_tagged key.now value.now tags.now }
{
    match tags.value_of(key) {
        Some(found) => found == value,
        None => false,
    }
}

/// Whether a tag has this key.
fn has_key(key: &Text, tags: &Tags) -> bool
    ensures { result ≡ has_key key.now tags.now }
{
    tags.value_of(key.as_str()).is_some()
}

/// Whether a tag has one of these keys.
pub(crate) fn has_one_of(keys: &[Text], tags: &Tags) -> bool
    ensures { result ≡ has_one_of keys.now tags.now }
{
    keys.iter().any(|key| has_key(key, tags))
}

/// Whether a tag has another key than this one.
pub(crate) fn has_other_key(tags: &Tags, key: &str) -> bool
    ensures { result ≡ list_any (λ t. not (bytes_eq t.key key.now)) tags.now }
{
    let mut rest = tags.iter();
    while let Some(tag) = rest.next() {
        if tag.key != key {
            return true;
        }
    }
    false
}

/// A copy of the tags that have another key than this one.
pub(crate) fn copy_without(alloc: Global, tags: &Tags, key: &str) -> Result<Tags, OutOfMemory>
    ensures { IfOk result (λ t. t ≡ without_key key.now tags.now) }
{
    let mut copies = Tags::new(alloc);
    let mut rest = tags.iter();
    while let Some(tag) = rest.next() {
        if tag.key != key {
            copies.push(tag.key, tag.value)?;
        }
    }
    Ok(copies)
}
