//! Lines of objects, each ending with LF.

ghost use Rattle.std.specs.Prelude.{◌≡◌, ◌++◌, ◌∷◌, [], OnOk, OnErr};
ghost use Rattle.std.specs.Fmt.{signed_decimal};
ghost use Rattle.osm_notation.specs.Kept.{KeepsFront};
ghost use Rattle.opl_writer.specs.Written.{ended, node_line, relation_line, tags_field, way_line};

use crate::fields::{put_members, put_place, put_refs, put_tags};
use osm_elements::{Members, Refs, Tags};
use osm_lattice::Loc;
use osm_notation::put_number;
use std::alloc::AllocError as OutOfMemory;

/// Adds what begins each line: the letter of the object, its id, and ` T` and its tags.
fn put_head(text: &mut Vec<u8>, letter: u8, id: i64, tags: &Tags) -> Result<(), OutOfMemory>
    ensures text { OnOk result (text.new.items
        ≡ text.old.items ++ ((letter ∷ []) ++ signed_decimal id ++ tags_field tags.now)) }
    ensures kept { OnErr result (KeepsFront text.old.items text.new.items) }
{
    text.push(letter)?;
    put_number(text, id)?;
    put_tags(text, tags)
}

/// Adds the line of a node: `n` and its id, ` T` and its tags, ` x`, the longitude, ` y` and the latitude, and LF.
///
/// The tags are left out if there are none, and so are both coordinates if the node has no location. Fails only if memory
/// runs out. Then what was there before stays in front, and a part of the line may follow it.
pub fn put_node(
    text: &mut Vec<u8>,
    id: i64,
    tags: &Tags,
    place: Option<Loc>,
) -> Result<(), OutOfMemory>
    ensures text { OnOk result (text.new.items
        ≡ text.old.items ++ ended (node_line id tags.now place)) }
    ensures kept { OnErr result (KeepsFront text.old.items text.new.items) }
{
    put_head(text, b'n', id, tags)?;
    put_place(text, place)?;
    text.push(b'\n')?;
    Ok(())
}

/// Adds the line of a way: `w` and its id, ` T` and its tags, ` N` and its references, and LF.
///
/// Tags or references are left out if there are none. A reference that carries a location keeps it. Fails only if memory
/// runs out. Then what was there before stays in front, and a part of the line may follow it.
pub fn put_way(text: &mut Vec<u8>, id: i64, tags: &Tags, refs: &Refs) -> Result<(), OutOfMemory>
    ensures text { OnOk result (text.new.items
        ≡ text.old.items ++ ended (way_line id tags.now refs.now)) }
    ensures kept { OnErr result (KeepsFront text.old.items text.new.items) }
{
    put_head(text, b'w', id, tags)?;
    put_refs(text, refs)?;
    text.push(b'\n')?;
    Ok(())
}

/// Adds the line of a relation: `r` and its id, ` T` and its tags, ` M` and its members, and LF.
///
/// Tags or members are left out if there are none. Fails only if memory runs out. Then what was there before stays in front,
/// and a part of the line may follow it.
pub fn put_relation(
    text: &mut Vec<u8>,
    id: i64,
    tags: &Tags,
    members: &Members,
) -> Result<(), OutOfMemory>
    ensures text { OnOk result (text.new.items
        ≡ text.old.items ++ ended (relation_line id tags.now members.now)) }
    ensures kept { OnErr result (KeepsFront text.old.items text.new.items) }
{
    put_head(text, b'r', id, tags)?;
    put_members(text, members)?;
    text.push(b'\n')?;
    Ok(())
}
