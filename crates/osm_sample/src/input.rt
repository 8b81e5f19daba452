//! The bytes of the sample input.

ghost use Rattle.std.specs.Prelude.{◌≡◌, ◌≤◌, ◌++◌, IfOk, OnOk};
ghost use Rattle.opl_writer.specs.Written.{ended, object_line, objects_text};
ghost use Rattle.osm_sample.specs.Input.{sample_text};

use crate::objects::sample_objects;
use opl_writer::{put_node, put_relation, put_way};
use osm_elements::Object;
use std::alloc::{AllocError as OutOfMemory, Global};

/// Adds the line of an object.
fn put_object(text: &mut Vec<u8>, object: &Object) -> Result<(), OutOfMemory>
    ensures { OnOk result (text.new.items ≡ text.old.items ++ ended (object_line object.now)) }
{
    match object {
        Object::Node {
            id,
            tags,
            place,
            ..
        } => put_node(text, *id, tags, *place),
        Object::Way { id, tags, refs, .. } => put_way(text, *id, tags, refs),
        Object::Relation {
            id,
            tags,
            members,
            ..
        } => put_relation(text, *id, tags, members),
    }
}

/// The lines of objects, in order.
fn text_of(alloc: Global, objects: &[Object]) -> Result<Vec<u8>, OutOfMemory>
    ensures { IfOk result (λ text. text.items ≡ objects_text objects.now) }
{
    let mut text = Vec::new(alloc);
    for object in objects {
        put_object(&mut text, object)?;
    }
    Ok(text)
}

/// The bytes of the sample input of `count` times `count` cells.
///
/// Each cell has a hole, its two ways and a multipolygon. All cells are in one more multipolygon, and a closed coastline is
/// around them. Fails only if memory runs out.
pub fn sample_input(alloc: Global, count: u8) -> Result<Vec<u8>, OutOfMemory>
    requires some { 1 ≤ count }
    requires few { count ≤ 100 }
    ensures { IfOk result (λ text. text.items ≡ sample_text count) }
{
    let objects = sample_objects(alloc, count)?;
    text_of(alloc, &objects)
}
