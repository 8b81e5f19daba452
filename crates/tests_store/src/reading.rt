//! For the tests: objects of lines, stores of them, and tags and locations.

use opl_reader::read_line;
use osm_elements::{Object, ObjectKind, ObjectRef, Tags};
use osm_lattice::Loc;
use osm_objects::{AddError, Store};
use std::alloc::Global;
use std::test::Fail;

pub(crate) const NODE: ObjectKind = ObjectKind::Node;

pub(crate) const WAY: ObjectKind = ObjectKind::Way;

pub(crate) const RELATION: ObjectKind = ObjectKind::Relation;

pub(crate) fn at(kind: ObjectKind, id: i64) -> ObjectRef {
    ObjectRef { kind, id }
}

/// The location of whole degrees.
pub(crate) fn degrees(x: i32, y: i32) -> Option<Loc> {
    Loc::new(i64::from(x) * 10_000_000, i64::from(y) * 10_000_000)
}

/// Adds tags behind those that there are, parted by blanks, also of keys that there are.
fn add_tags(tags: &mut Tags, more: &str) -> Result<(), Fail> {
    for tag in more.split_whitespace() {
        let (key, value) = tag.split_once('=').unwrap_or((tag, ""));
        tags.push(key, value)?;
    }
    Ok(())
}

/// Adds tags to an object.
fn add_tags_to(object: &mut Object, more: &str) -> Result<(), Fail> {
    match object {
        Object::Node { tags, .. } => add_tags(tags, more),
        Object::Way { tags, .. } => add_tags(tags, more),
        Object::Relation { tags, .. } => add_tags(tags, more),
    }
}

/// The object of a line of OPL. The tags that stand behind ` + ` are added to it: of equal keys OPL reads the first alone.
pub(crate) fn object_of(alloc: Global, line: &str) -> Result<Object, Fail> {
    let (line, more) = line.split_once(" + ").unwrap_or((line, ""));
    match read_line(alloc, line.as_bytes()) {
        Ok(Some(mut object)) => {
            add_tags_to(&mut object, more)?;
            Ok(object)
        }
        _ => Err(Fail::new("no object")),
    }
}

/// The kind and id with which an object is refused as a duplicate.
pub(crate) fn refusal(answer: Result<(), AddError>) -> Result<Option<ObjectRef>, Fail> {
    match answer {
        Ok(()) => Ok(None),
        Err(AddError::Duplicate { kind, id }) => Ok(Some(at(kind, id))),
        Err(AddError::OutOfMemory) => Err(Fail::new("out of memory")),
    }
}

/// Adds the objects of lines.
fn add_lines(alloc: Global, store: &mut Store, lines: &str) -> Result<(), Fail> {
    for line in lines.lines() {
        let object = object_of(alloc, line)?;
        if store.add(object).is_err() {
            return Err(Fail::new("not added"));
        }
    }
    Ok(())
}

/// A store of the live objects of lines.
pub(crate) fn store_of(alloc: Global, lines: &str) -> Result<Store, Fail> {
    let mut store = Store::new(alloc);
    add_lines(alloc, &mut store, lines)?;
    Ok(store)
}

/// Tags as words, a blank after each.
pub(crate) fn words_of(alloc: Global, tags: &Tags) -> Result<String, Fail> {
    let mut words = String::new(alloc);
    let mut rest = tags.iter();
    for _ in 0..tags.len() {
        if let Some(tag) = rest.next() {
            words.push_str(tag.key)?;
            words.push_str("=")?;
            words.push_str(tag.value)?;
            words.push_str(" ")?;
        }
    }
    Ok(words)
}

/// Whether tags are these words.
pub(crate) fn are_tags(alloc: Global, tags: &Tags, words: &str) -> Result<bool, Fail> {
    Ok(words_of(alloc, tags)?.as_str() == words)
}
