//! The tags of an object in one block of alternating keys and values: a usual one as one byte, any other after its length.

ghost use Rattle.std.specs.Prelude.{◌≡◌, ◌<◌, ◌^◌, ◌++◌, ◌∷◌, ◌==◌, [], length, IfOk, OnOk, OnErr, MatchOption, IfNone, option_map, find};
ghost use Rattle.std.specs.Str.{bytes_eq};
ghost use Rattle.osm_elements.specs.Packed.{BothAdded};
ghost use Rattle.osm_elements.specs.Seen.{tag_seen};

use crate::block::Block;
use crate::packed::{push_text, split_text};
use std::alloc::{AllocError as OutOfMemory, Global};
use std::marker::Model;

/// A tag that is lent.
#[derive(Clone, Copy, Debug)]
pub struct TagRef<'a> {
    pub key: &'a str,
    pub value: &'a str,
}

/// The tags of an object, in the order of its line.
///
/// They take one block of memory, or none if they take up to 30 bytes. A key or value that is usual in OpenStreetMap takes a
/// byte, and any other takes its text and a byte or five.
#[derive(Debug, Drop)]
pub struct Tags {
    texts: Block,
    count: usize,
}

impl Model for Tags {
    ghost use Rattle.std.specs.Prelude.{List};
    ghost use Rattle.osm_elements.specs.declared.object.Tag.{Tag};

    ghost Value = { List Tag };

    ghost use Rattle.osm_elements.specs.Packed.{tags_in, AreKeysAndValues};

    ghost view = { λ t. tags_in t.count t.texts };

    ghost invariant = { λ t. AreKeysAndValues t.count t.texts };
}

/// An iterator over tags.
#[derive(Drop)]
pub struct TagIter<'a> {
    texts: &'a [u8],
    left: usize,
}

impl<'a> Model for TagIter<'a> {
    ghost use Rattle.std.specs.Prelude.{List};
    ghost use Rattle.osm_elements.specs.declared.object.Tag.{Tag};

    ghost Value = { List Tag };

    ghost use Rattle.osm_elements.specs.Packed.{tags_in, AreKeysAndValues};

    ghost view = { λ t. tags_in t.left t.texts.now };

    ghost invariant = { λ t. AreKeysAndValues t.left t.texts.now };
}

/// Adds a key and a value. After an `Err` nothing is added.
fn push_both(texts: &mut Block, key: &str, value: &str) -> Result<(), OutOfMemory>
    ensures ok { OnOk result (BothAdded texts.old key.now value.now texts.new) }
    ensures short { OnOk result ((length key.now < 2 ^ 32) × (length value.now < 2 ^ 32)) }
    ensures err { OnErr result (texts.new ≡ texts.old) }
{
    let before = texts.len();
    push_text(texts, key)?;
    if push_text(texts, value).is_err() {
        texts.truncate(before);
        return Err(OutOfMemory);
    }
    Ok(())
}

impl Tags {
    /// The empty list, which takes no memory.
    pub fn new(alloc: Global) -> Tags
        ensures { result ≡ [] }
    {
        Tags {
            texts: Block::new(alloc),
            count: 0,
        }
    }

    /// Adds a copy of a tag at the end. After an `Err` the list is unchanged.
    /// Texts of 2^32 or more bytes are refused as out of memory.
    pub fn push(&mut self, key: &str, value: &str) -> Result<(), OutOfMemory>
        ensures ok { OnOk result (self.new
            ≡ self.old ++ record { key = key.now; value = value.now } ∷ []) }
        ensures err { OnErr result (self.new ≡ self.old) }
    {
        let Some(count) = self.count.checked_add(1) else {
            return Err(OutOfMemory);
        };
        push_both(&mut self.texts, key, value)?;
        self.count = count;
        Ok(())
    }

    /// How many tags there are.
    pub fn len(&self) -> usize
        ensures { result ≡ length self.now }
    {
        self.count
    }

    /// Whether there are none.
    pub fn is_empty(&self) -> bool
        ensures { result ≡ (length self.now == 0) }
    {
        self.count == 0
    }

    /// How many bytes of memory its texts take. No clause says it.
    ///
    /// Each usual text takes one byte, and any other one or five more than it has.
    pub fn bytes(&self) -> usize {
        self.texts.len()
    }

    /// The value of the first tag of this key. It takes no memory.
    pub fn value_of(&self, key: &str) -> Option<&str>
        ensures { option_map (λ v. v.now) result
            ≡ option_map (λ t. t.value) (find (λ t. bytes_eq t.key key.now) self.now) }
    {
        let mut rest = self.iter();
        while let Some(tag) = rest.next() {
            if tag.key == key {
                return Some(tag.value);
            }
        }
        None
    }

    /// A copy without spare room.
    pub fn copy(&self, alloc: Global) -> Result<Tags, OutOfMemory>
        ensures { IfOk result (λ tags. tags ≡ self.now) }
    {
        Ok(Tags {
            texts: self.texts.copy(alloc)?,
            count: self.count,
        })
    }

    /// The same tags without spare room. It copies them only if they take a block.
    pub fn without_spare_room(self, alloc: Global) -> Result<Tags, OutOfMemory>
        ensures { IfOk result (λ tags. tags ≡ self) }
    {
        if self.texts.is_in_place() {
            return Ok(self);
        }
        self.copy(alloc)
    }

    /// An iterator over the tags. It takes no memory.
    pub fn iter(&self) -> TagIter<'_>
        ensures { result ≡ self.now }
    {
        TagIter {
            texts: self.texts.as_slice(),
            left: self.count,
        }
    }
}

impl<'a> TagIter<'a> {
    /// The next tag. None exactly if none is left.
    pub fn next(&mut self) -> Option<TagRef<'a>>
        ensures tag { MatchOption result (self.old ≡ []) (λ t. self.old ≡ tag_seen t ∷ self.new) }
        ensures ended { IfNone result (self.new ≡ []) }
    {
        let left = self.left.checked_sub(1)?;
        let (key, texts) = split_text(self.texts);
        let (value, texts) = split_text(texts);
        self.texts = texts;
        self.left = left;
        Some(TagRef { key, value })
    }
}
