//! The references of a way, in few bytes: each by how it differs from the first of them.

ghost use Rattle.std.specs.Prelude.{◌≡◌, ◌++◌, ◌∷◌, ◌==◌, ◌+◌, ◌-◌, ◌<◌, [], Some, length, take, slice_get, IfOk, OnOk, OnErr};
ghost use Rattle.osm_elements.specs.Places.{location_from};
ghost use Rattle.osm_elements.specs.Places.{longitude, latitude};
ghost use Rattle.osm_elements.specs.Compact.{difference};
ghost use Rattle.osm_elements.specs.Held.{refs_behind, last_behind, compared_id, place_from, x_from, y_from, mark_of, place_bytes, ref_bytes, first_place, after_place, first_ref, after_ref};

use crate::block::Block;
use crate::compact::{difference, first_marked, first_number, moved, push_marked, push_number};
use crate::object::Ref;
use osm_lattice::Loc;
use std::alloc::{AllocError as OutOfMemory, Global};
use std::marker::Model;

/// The references of a way, in order.
///
/// Each takes one byte or two if its id is near that of the first, and about five if it carries a location near that of the
/// first. The first itself takes up to about fifteen.
#[derive(Debug, Drop)]
pub struct Refs {
    bytes: Block,
}

impl Model for Refs {
    ghost use Rattle.std.specs.Prelude.{List, None};
    ghost use Rattle.osm_elements.specs.declared.object.Ref.{Ref};
    ghost use Rattle.osm_elements.specs.Held.{refs_behind, AreRefBytes};

    ghost Value = { List Ref };

    ghost view = { λ r. refs_behind None r.bytes };

    ghost invariant = { λ r. AreRefBytes r.bytes };
}

/// An iterator over references.
#[derive(Drop)]
pub struct RefIter<'a> {
    bytes: &'a [u8],
    // The first of all, once it has been passed.
    first: Option<Ref>,
}

impl<'a> Model for RefIter<'a> {
    ghost use Rattle.std.specs.Prelude.{List};
    ghost use Rattle.osm_elements.specs.declared.object.Ref.{Ref};
    ghost use Rattle.osm_elements.specs.Held.{refs_behind};

    ghost Value = { List Ref };

    ghost view = { λ r. refs_behind r.first r.bytes.now };
}

/// The id that ids are compared with.
fn compared_id(first: Option<Ref>) -> i64
    ensures { result ≡ compared_id first }
{
    match first {
        None => 0,
        Some(first) => first.node,
    }
}

/// The location that locations are compared with.
fn place_from(first: Option<Ref>) -> Option<Loc>
    ensures { result ≡ place_from first }
{
    match first {
        None => None,
        Some(first) => first.at,
    }
}

/// The coordinates that those of locations are compared with.
fn coordinates_from(from: Option<Loc>) -> (i64, i64)
    ensures x { result.0 ≡ x_from from }
    ensures y { result.1 ≡ y_from from }
{
    match from {
        None => (0, 0),
        Some(at) => (i64::from(at.x), i64::from(at.y)),
    }
}

/// The location with these coordinates, if they are in range.
fn place_at(x: i64, y: i64) -> Option<Loc>
    ensures { result ≡ location_from (longitude x) (latitude y) }
{
    Loc::new(x, y)
}

/// By how much x differs, and by how much y differs.
fn differences(from: Option<Loc>, at: Loc) -> (u64, u64)
    ensures along { result.0 ≡ difference (x_from from) at.x }
    ensures up { result.1 ≡ difference (y_from from) at.y }
{
    let (x, y) = coordinates_from(from);
    let along = difference(x, i64::from(at.x));
    let up = difference(y, i64::from(at.y));
    (along, up)
}

/// The mark that tells whether there is a location.
fn mark_of(at: Option<Loc>) -> u8
    ensures mark { result ≡ mark_of at }
    ensures small { result < 2 }
{
    match at {
        None => 0,
        Some(_) => 1,
    }
}

/// Adds a location, if there is one. After an `Err` a part of it may have been added.
fn push_place(bytes: &mut Block, from: Option<Loc>, at: Option<Loc>) -> Result<(), OutOfMemory>
    ensures ok { OnOk result (bytes.new ≡ bytes.old ++ place_bytes from at) }
    ensures err { OnErr result (take (length bytes.old) bytes.new ≡ bytes.old) }
{
    let Some(at) = at else {
        return Ok(());
    };
    let (along, up) = differences(from, at);
    push_number(bytes, along)?;
    push_number(bytes, up)?;
    Ok(())
}

/// Adds a reference. After an `Err` a part of it may have been added.
fn push_ref(bytes: &mut Block, first: Option<Ref>, reference: Ref) -> Result<(), OutOfMemory>
    ensures ok { OnOk result (bytes.new ≡ bytes.old ++ ref_bytes first reference) }
    ensures err { OnErr result (take (length bytes.old) bytes.new ≡ bytes.old) }
{
    let by = difference(compared_id(first), reference.node);
    push_marked(bytes, mark_of(reference.at), by)?;
    push_place(bytes, place_from(first), reference.at)?;
    Ok(())
}

/// The location in front, if the mark says that there is one, and the bytes after it.
#[tactic(auto, unfolding(crate::specs::Held::first_place, crate::specs::Held::after_place))]
fn first_place(marked: bool, from: Option<Loc>, bytes: &[u8]) -> (Option<Loc>, &[u8])
    ensures place { result.0 ≡ first_place marked from bytes.now }
    ensures behind { result.1.now ≡ after_place marked bytes.now }
{
    if !marked {
        return (None, bytes);
    }
    let (x, y) = coordinates_from(from);
    let (along, behind) = first_number(bytes);
    let (up, behind) = first_number(behind);
    (place_at(moved(x, along), moved(y, up)), behind)
}

/// The reference in front, and the bytes after it.
fn first_ref(first: Option<Ref>, bytes: &[u8]) -> (Ref, &[u8])
    ensures reference { result.0 ≡ first_ref first bytes.now }
    ensures behind { result.1.now ≡ after_ref bytes.now }
{
    let (by, marked, behind) = first_marked(bytes);
    let (at, behind) = first_place(marked, place_from(first), behind);
    let node = moved(compared_id(first), by);
    (Ref { node, at }, behind)
}

/// The bytes after the reference in front, which isn't read.
#[tactic(auto, unfolding(crate::specs::Held::after_place))]
fn after_ref(bytes: &[u8]) -> &[u8]
    ensures { result.now ≡ after_ref bytes.now }
{
    let (_, marked, behind) = first_marked(bytes);
    if !marked {
        return behind;
    }
    let (_, behind) = first_number(behind);
    first_number(behind).1
}

/// The last of the references that follow a first one, or that one if none follows.
fn last_behind(first: Ref, bytes: &[u8]) -> Ref
    ensures { Some result ≡ last_behind (Some first) (refs_behind (Some first) bytes.now) }
{
    let mut last: &[u8] = &[];
    let mut rest = bytes;
    while !rest.is_empty() {
        last = rest;
        rest = after_ref(rest);
    }
    if last.is_empty() {
        return first;
    }
    first_ref(Some(first), last).0
}

impl Refs {
    /// The empty list, which takes no memory.
    pub fn new(alloc: Global) -> Refs
        ensures { result ≡ [] }
    {
        Refs {
            bytes: Block::new(alloc),
        }
    }

    /// Adds a reference at the end. After an `Err` the list is unchanged.
    pub fn push(&mut self, reference: Ref) -> Result<(), OutOfMemory>
        ensures ok { OnOk result (self.new ≡ self.old ++ reference ∷ []) }
        ensures err { OnErr result (self.new ≡ self.old) }
    {
        let first = self.first();
        self.push_behind(first, reference)
    }

    /// The same if the first reference is known, so that it isn't read again each time.
    pub fn push_behind(&mut self, first: Option<Ref>, reference: Ref) -> Result<(), OutOfMemory>
        requires { first ≡ slice_get self.old 0 }
        ensures ok { OnOk result (self.new ≡ self.old ++ reference ∷ []) }
        ensures err { OnErr result (self.new ≡ self.old) }
    {
        let len = self.bytes.len();
        if push_ref(&mut self.bytes, first, reference).is_err() {
            self.bytes.truncate(len);
            return Err(OutOfMemory);
        }
        Ok(())
    }

    /// How many references there are. It passes all of them, and reads none.
    pub fn len(&self) -> usize
        ensures { result ≡ length self.now }
    {
        let mut len = 0;
        let mut rest = self.bytes.as_slice();
        while !rest.is_empty() {
            len += 1;
            rest = after_ref(rest);
        }
        len
    }

    /// Whether there are none.
    pub fn is_empty(&self) -> bool
        ensures { result ≡ (length self.now == 0) }
    {
        self.bytes.is_empty()
    }

    /// The reference of this index, from 0; None if there are fewer. It passes those before it.
    pub fn get(&self, index: usize) -> Option<Ref>
        ensures { result ≡ slice_get self.now index }
    {
        let mut rest = self.iter();
        let mut before = index;
        while before > 0 {
            rest.next()?;
            before -= 1;
        }
        rest.next()
    }

    /// The first reference; None if there is none.
    pub fn first(&self) -> Option<Ref>
        ensures { result ≡ slice_get self.now 0 }
    {
        self.iter().next()
    }

    /// The last reference; None if there is none. It passes all of them, and reads the first and the last.
    pub fn last(&self) -> Option<Ref>
        ensures { result ≡ slice_get self.now (length self.now - 1) }
    {
        let first = self.first()?;
        Some(last_behind(first, after_ref(self.bytes.as_slice())))
    }

    /// A copy without spare room.
    pub fn copy(&self, alloc: Global) -> Result<Refs, OutOfMemory>
        ensures { IfOk result (λ refs. refs ≡ self.now) }
    {
        let bytes = self.bytes.copy(alloc)?;
        Ok(Refs { bytes })
    }

    /// The same references without spare room. It copies them only if they take a block.
    pub fn without_spare_room(self, alloc: Global) -> Result<Refs, OutOfMemory>
        ensures { IfOk result (λ refs. refs ≡ self) }
    {
        if self.bytes.is_in_place() {
            return Ok(self);
        }
        self.copy(alloc)
    }

    /// An iterator over the references. It takes no memory.
    pub fn iter(&self) -> RefIter<'_>
        ensures { result ≡ self.now }
    {
        RefIter {
            bytes: self.bytes.as_slice(),
            first: None,
        }
    }
}

impl<'a> Iterator for RefIter<'a> {
    ghost use Rattle.std.specs.Iterator.{YieldsFirst, item_count};

    type Item = Ref;

    ghost next_gives = { YieldsFirst (λ refs. refs) };

    ghost remaining = { item_count (λ refs. refs) };

    /// The next reference. None exactly if none is left.
    fn next(&mut self) -> Option<Ref> {
        if self.bytes.is_empty() {
            return None;
        }
        let (reference, behind) = first_ref(self.first, self.bytes);
        self.first = Some(self.first.unwrap_or(reference));
        self.bytes = behind;
        Some(reference)
    }
}
