//! Notes on roles that differ from what the geometry says.

ghost use Rattle.std.specs.Prelude.{◌≡◌, ◌++◌, ◌∷◌, [], ℤ, List, IfOk, IfSome, OnOk};
ghost use Rattle.std.specs.List.{cons_option, filter_map, list_any};
ghost use Rattle.osm_lattice.specs.declared.seg.Seg.{Seg};
ghost use Rattle.std.specs.Ordering.{int_eq};
ghost use Rattle.lists.specs.Once.{each_once};
ghost use Rattle.osm_elements.specs.Seen.{member_seen};
ghost use Rattle.osm_elements.specs.declared.object.Object.{Object};
ghost use Rattle.osm_area.specs.MemberWays.{member_ways, ways_among};
ghost use Rattle.osm_area.specs.RingSegments.{AreSegmentsOf};
ghost use Rattle.osm_area.specs.RoleKinds.{note_on};
ghost use Rattle.osm_area.specs.RoleWalk.{HaveSegments, IsMemberStep, mentions_first, note_along, notes_along};
ghost use Rattle.osm_area.specs.Roles.{inners, is_in_rings, outers, role_note, role_notes_of};
ghost use Rattle.osm_area.specs.Segments.{way_segments};

use crate::member_ways::is_way;
use crate::outcome_lists::Notes;
use crate::ring_lines::{RingLines, ring_lines, some_in_inner, some_in_outer};
use crate::roles::{Role, any_names_a_ring, role_named};
use osm_elements::{MemberRef, Members, ObjectKind, ObjectRef};
use osm_geom::Seg;
use osm_nest::Polygons;
use osm_objects::{Note, Store};
use std::alloc::{AllocError as OutOfMemory, Global};

/// Ways, their segments, one way after the other, and how many each has.
#[derive(Clone, Copy)]
pub struct Ways<'a> {
    pub ids: &'a [i64],
    pub counts: &'a [usize],
    pub segs: &'a [Seg],
}

/// Whether a member is the first of these ways.
fn mentions_first(member: &MemberRef<'_>, ways: &[i64]) -> bool
    ensures { result ≡ mentions_first (member_seen member.now) ways.now }
{
    match ways {
        [way, ..] => is_way(member.kind) && member.id == *way,
        [] => false,
    }
}

/// The segments of the first of the ways, and the ways after it.
fn first_way<'a>(ways: Ways<'a>) -> (&'a [Seg], Ways<'a>)
    ensures { (along : ℤ → List Seg) (way : ℤ) (others : List ℤ)
        → ways.entry.ids.now ≡ way ∷ others
        → HaveSegments along ways.entry.ids.now ways.entry.counts.now ways.entry.segs.now
        → (result.0.now ≡ along way)
        × (result.1.ids.now ≡ others)
        × HaveSegments along others result.1.counts.now result.1.segs.now }
{
    let [_, ids @ ..] = ways.ids else {
        return (&[], ways);
    };
    let [count, counts @ ..] = ways.counts else {
        return (&[], ways);
    };
    let (along, segs) = ways.segs.split_at((*count).min(ways.segs.len()));
    (along, Ways { ids, counts, segs })
}

/// The note on a way that has this role and these segments, if there is one.
fn note_on(lines: &RingLines<'_>, role: Role, way: i64, along: &[Seg]) -> Option<Note>
    requires { IfSome lines.now.segments (AreSegmentsOf lines.now.polygons.now) }
    ensures { result ≡ note_on role way
        (list_any (is_in_rings (outers lines.now.polygons.now)) along.now)
        (list_any (is_in_rings (inners lines.now.polygons.now)) along.now) }
{
    match role {
        Role::Inner => { some_in_outer(lines, along).then_some(Note::InnerInOuter { way }) }
        Role::Outer => { some_in_inner(lines, along).then_some(Note::OuterInInner { way }) }
        Role::Other => None,
    }
}

/// Adds the note on the way that a member mentions, if there is one.
fn add_note(
    notes: &mut Notes,
    lines: &RingLines<'_>,
    member: &MemberRef<'_>,
    along: &[Seg],
) -> Result<(), OutOfMemory>
    requires { IfSome lines.now.segments (AreSegmentsOf lines.now.polygons.now) }
    ensures { OnOk result (notes.new ≡ notes.old ++ cons_option
        (note_along lines.now.polygons.now member.now.role.now member.now.id along.now) []) }
{
    if let Some(note) = note_on(lines, role_named(member.role), member.id, along) {
        notes.push(note)?;
    }
    Ok(())
}

/// Adds the note on the first of the ways, if this member names it, and answers the ways that are left.
fn add_note_at<'a>(
    notes: &mut Notes,
    lines: &RingLines<'_>,
    member: &MemberRef<'_>,
    ways: Ways<'a>,
) -> Result<Ways<'a>, OutOfMemory>
    requires { IfSome lines.now.segments (AreSegmentsOf lines.now.polygons.now) }
    ensures { IfOk result (λ behind. (along : ℤ → List Seg)
        → IsMemberStep lines.now.polygons.now along (member_seen member.now)
        ways.entry.ids.now ways.entry.counts.now ways.entry.segs.now
        behind.ids.now behind.counts.now behind.segs.now notes.old notes.new) }
{
    if !mentions_first(member, ways.ids) {
        return Ok(ways);
    }
    let (along, behind) = first_way(ways);
    add_note(notes, lines, member, along)?;
    Ok(behind)
}

/// Adds the notes on ways that are in order of first mention among these members.
fn add_all(
    notes: &mut Notes,
    lines: &RingLines<'_>,
    members: &Members,
    ways: Ways<'_>,
) -> Result<(), OutOfMemory>
    requires { IfSome lines.now.segments (AreSegmentsOf lines.now.polygons.now) }
    ensures { OnOk result ((along : ℤ → List Seg)
        → HaveSegments along ways.entry.ids.now ways.entry.counts.now ways.entry.segs.now
        → notes.new ≡ notes.old ++ notes_along lines.now.polygons.now along
        members.now ways.entry.ids.now) }
{
    let mut behind = ways;
    let mut rest = members.iter();
    while let Some(member) = rest.next() {
        behind = add_note_at(notes, lines, &member, behind)?;
    }
    Ok(())
}

/// Adds the notes on ways that are in order of first mention among these members.
fn add_notes_among(
    notes: &mut Notes,
    alloc: Global,
    members: &Members,
    polygons: &Polygons,
    ways: Ways<'_>,
) -> Result<(), OutOfMemory>
    ensures { OnOk result ((objects : List Object)
        → HaveSegments (way_segments objects) ways.entry.ids.now ways.entry.counts.now
        ways.entry.segs.now
        → ways.entry.ids.now ≡ each_once int_eq (ways_among members.now)
        → notes.new ≡ notes.old
        ++ filter_map (role_note objects members.now polygons.now) ways.entry.ids.now) }
{
    if !any_names_a_ring(members) {
        return Ok(());
    }
    let lines = ring_lines(alloc, polygons.as_slice(), ways.segs.len())?;
    add_all(notes, &lines, members, ways)
}

/// Adds a note for each of a candidate's ways whose first role contradicts its rings.
///
/// Such a way is first mentioned as `inner` and lies in an outer ring, or as `outer` and lies in an inner one.
pub fn add_role_notes(
    notes: &mut Notes,
    alloc: Global,
    store: &Store,
    candidate: ObjectRef,
    polygons: &Polygons,
    ways: Ways<'_>,
) -> Result<(), OutOfMemory>
    requires segments { HaveSegments (way_segments store.now) ways.ids.now ways.counts.now
        ways.segs.now }
    requires ways { ways.ids.now ≡ member_ways store.now candidate }
    ensures { OnOk result (notes.new
        ≡ notes.old ++ role_notes_of store.now candidate ways.entry.ids.now polygons.now) }
{
    match candidate.kind {
        ObjectKind::Node => Ok(()),
        ObjectKind::Way => Ok(()),
        ObjectKind::Relation => match store.relation(candidate.id) {
            Some(relation) => add_notes_among(notes, alloc, relation.members, polygons, ways),
            None => Ok(()),
        },
    }
}
