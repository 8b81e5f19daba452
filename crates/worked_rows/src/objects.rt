//! What a line of OPL tells, in words.

use crate::answers::{Answer, NO_MEMORY};
use opl_reader::{LineError, fault_text, read_line};
use osm_elements::{Members, Object, ObjectKind, Refs, Tags};
use osm_lattice::Loc;
use std::alloc::Global;

/// Adds what is read of a line: an object in words, `nothing`, or its fault and where this stands.
pub(crate) fn put_line(alloc: Global, line: &[u8], told: &mut Answer) {
    match read_line(alloc, line) {
        Ok(Some(object)) => put_object(&object, told),
        Ok(None) => told.put("nothing"),
        Err(LineError::Fault(fault)) => {
            told.put(fault_text(fault.kind));
            told.put(" at ");
            told.put_shown(&fault.place);
        }
        Err(LineError::OutOfMemory) => told.put(NO_MEMORY),
    }
}

/// Adds an object: its kind and id, whether it was deleted, its tags, and then its place, references or members.
pub(crate) fn put_object(object: &Object, told: &mut Answer) {
    match object {
        Object::Node {
            id,
            live,
            tags,
            place,
        } => {
            begin(told, ObjectKind::Node, *id, *live, tags);
            put_place(told, *place);
        }
        Object::Way {
            id,
            live,
            tags,
            refs,
        } => {
            begin(told, ObjectKind::Way, *id, *live, tags);
            put_refs(told, refs);
        }
        Object::Relation {
            id,
            live,
            tags,
            members,
        } => {
            begin(told, ObjectKind::Relation, *id, *live, tags);
            put_members(told, members);
        }
    }
}

/// Adds the kind and the id of an object, whether it was deleted, and its tags.
fn begin(told: &mut Answer, kind: ObjectKind, id: i64, live: bool, tags: &Tags) {
    told.put(letter(kind));
    told.put_shown(&id);
    told.put(if live { "" } else { " deleted" });
    put_tags(told, tags);
}

/// The letter of a kind of object.
fn letter(kind: ObjectKind) -> &'static str {
    match kind {
        ObjectKind::Node => "n",
        ObjectKind::Way => "w",
        ObjectKind::Relation => "r",
    }
}

/// Adds tags.
fn put_tags(told: &mut Answer, tags: &Tags) {
    let mut others = tags.iter();
    for _ in 0..tags.len() {
        if let Some(tag) = others.next() {
            told.put(" ");
            told.put(tag.key);
            told.put("=");
            told.put(tag.value);
        }
    }
}

/// Adds a location, if there is one.
fn put_place(told: &mut Answer, place: Option<Loc>) {
    if let Some(at) = place {
        told.put(" at ");
        put_location(told, at);
    }
}

/// Adds a location as `x,y` in units.
pub(crate) fn put_location(told: &mut Answer, at: Loc) {
    told.put_shown(&at.x);
    told.put(",");
    told.put_shown(&at.y);
}

/// Adds references, each with its own location.
fn put_refs(told: &mut Answer, refs: &Refs) {
    for reference in refs.iter() {
        told.put(" n");
        told.put_shown(&reference.node);
        put_place(told, reference.at);
    }
}

/// Adds members with their roles.
fn put_members(told: &mut Answer, members: &Members) {
    let mut others = members.iter();
    for _ in 0..members.len() {
        if let Some(member) = others.next() {
            told.put(" ");
            told.put(letter(member.kind));
            told.put_shown(&member.id);
            told.put(" ");
            told.put(member.role);
        }
    }
}
