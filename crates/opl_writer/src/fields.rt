//! Fields of a line. Each follows a space, and empty fields are left out.

ghost use Rattle.std.specs.Prelude.{◌≡◌, ◌++◌, OnOk, OnErr};
ghost use Rattle.osm_notation.specs.Kept.{KeepsFront};
ghost use Rattle.opl_writer.specs.Written.{members_field, place_fields, refs_field, tags_field};

use crate::items::{put_member, put_ref};
use osm_elements::{Members, Refs, Tags};
use osm_lattice::Loc;
use osm_notation::{put_coordinate, put_tag};
use std::alloc::AllocError as OutOfMemory;

/// Adds the field of tags, if there are any.
pub(crate) fn put_tags(text: &mut Vec<u8>, tags: &Tags) -> Result<(), OutOfMemory>
    ensures text { OnOk result (text.new.items ≡ text.old.items ++ tags_field tags.now) }
    ensures kept { OnErr result (KeepsFront text.old.items text.new.items) }
{
    let mut mark: &[u8] = b" T";
    let mut rest = tags.iter();
    while let Some(tag) = rest.next() {
        text.extend_from_slice(mark)?;
        put_tag(text, &tag)?;
        mark = b",";
    }
    Ok(())
}

/// Adds the field of references, if there are any.
pub(crate) fn put_refs(text: &mut Vec<u8>, refs: &Refs) -> Result<(), OutOfMemory>
    ensures text { OnOk result (text.new.items ≡ text.old.items ++ refs_field refs.now) }
    ensures kept { OnErr result (KeepsFront text.old.items text.new.items) }
{
    let mut mark: &[u8] = b" N";
    for reference in refs.iter() {
        text.extend_from_slice(mark)?;
        put_ref(text, reference)?;
        mark = b",";
    }
    Ok(())
}

/// Adds the field of members, if there are any.
pub(crate) fn put_members(text: &mut Vec<u8>, members: &Members) -> Result<(), OutOfMemory>
    ensures text { OnOk result (text.new.items ≡ text.old.items ++ members_field members.now) }
    ensures kept { OnErr result (KeepsFront text.old.items text.new.items) }
{
    let mut mark: &[u8] = b" M";
    let mut rest = members.iter();
    while let Some(member) = rest.next() {
        text.extend_from_slice(mark)?;
        put_member(text, &member)?;
        mark = b",";
    }
    Ok(())
}

/// Adds the two fields of a location, if there is one.
pub(crate) fn put_place(text: &mut Vec<u8>, place: Option<Loc>) -> Result<(), OutOfMemory>
    ensures text { OnOk result (text.new.items ≡ text.old.items ++ place_fields place) }
    ensures kept { OnErr result (KeepsFront text.old.items text.new.items) }
{
    let Some(place) = place else {
        return Ok(());
    };
    text.extend_from_slice(b" x")?;
    put_coordinate(text, i64::from(place.x))?;
    text.extend_from_slice(b" y")?;
    put_coordinate(text, i64::from(place.y))
}
