//! Lines of OPL, read and written again.

use crate::answers::Answer;
use opl_reader::read_line;
use opl_writer::{put_node, put_relation, put_way};
use osm_elements::Object;
use std::alloc::{AllocError as OutOfMemory, Global};

/// Adds the lines of a text read and written again; those that tell no object are left out.
pub(crate) fn put_rewritten(alloc: Global, text: &str, told: &mut Answer) {
    let mut written = Vec::new(alloc);
    for line in text.lines() {
        told.is_whole &= add_again(alloc, line, &mut written);
    }
    told.put_bytes(&written);
}

/// Adds a line read and written again, and says whether memory sufficed.
fn add_again(alloc: Global, line: &str, written: &mut Vec<u8>) -> bool {
    match read_line(alloc, line.as_bytes()) {
        Ok(Some(object)) => put(written, &object).is_ok(),
        _other => true,
    }
}

/// Adds the line of an object.
fn put(text: &mut Vec<u8>, object: &Object) -> Result<(), OutOfMemory> {
    match object {
        Object::Node {
            id,
            tags,
            place,
            ..
        } => put_node(text, *id, tags, *place),
        Object::Way { id, tags, refs, .. } => put_way(text, *id, tags, refs),
        Object::Relation {
            id,
            tags,
            members,
            ..
        } => put_relation(text, *id, tags, members),
    }
}
