//! Items of a field: tags, references and members.

ghost use Rattle.std.specs.Prelude.{◌≡◌, ◌++◌, OnOk, OnErr};
ghost use Rattle.osm_elements.specs.Seen.{member_seen};
ghost use Rattle.osm_notation.specs.Kept.{KeepsFront};
ghost use Rattle.opl_writer.specs.Written.{kind_letter, member_text, own_place_text, ref_text};

use osm_elements::{MemberRef, ObjectKind, Ref};
use osm_lattice::Loc;
use osm_notation::{put_coordinate, put_number, put_written};
use std::alloc::AllocError as OutOfMemory;

/// Adds the location that a reference carries, if it carries one.
fn put_own_place(text: &mut Vec<u8>, at: Option<Loc>) -> Result<(), OutOfMemory>
    ensures text { OnOk result (text.new.items ≡ text.old.items ++ own_place_text at) }
    ensures kept { OnErr result (KeepsFront text.old.items text.new.items) }
{
    let Some(at) = at else {
        return Ok(());
    };
    text.push(b'x')?;
    put_coordinate(text, i64::from(at.x))?;
    text.push(b'y')?;
    put_coordinate(text, i64::from(at.y))
}

/// Adds a reference: the letter of nodes, the node's id and the reference's own location.
pub(crate) fn put_ref(text: &mut Vec<u8>, reference: Ref) -> Result<(), OutOfMemory>
    ensures text { OnOk result (text.new.items ≡ text.old.items ++ ref_text reference) }
    ensures kept { OnErr result (KeepsFront text.old.items text.new.items) }
{
    text.push(b'n')?;
    put_number(text, reference.node)?;
    put_own_place(text, reference.at)
}

/// The letter of a kind of object.
fn letter(kind: ObjectKind) -> &'static [u8]
    ensures { result.now ≡ kind_letter kind }
{
    match kind {
        ObjectKind::Node => b"n",
        ObjectKind::Way => b"w",
        ObjectKind::Relation => b"r",
    }
}

/// Adds a member: its letter, its id, an at sign and its role, which may be empty.
pub(crate) fn put_member(text: &mut Vec<u8>, member: &MemberRef<'_>) -> Result<(), OutOfMemory>
    ensures text { OnOk result (text.new.items
        ≡ text.old.items ++ member_text (member_seen member.now)) }
    ensures kept { OnErr result (KeepsFront text.old.items text.new.items) }
{
    text.extend_from_slice(letter(member.kind))?;
    put_number(text, member.id)?;
    text.push(b'@')?;
    put_written(text, member.role)
}
