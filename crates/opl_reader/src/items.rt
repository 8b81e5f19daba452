//! Values that are lists of items.

ghost use Rattle.std.specs.Prelude.{◌≡◌, ℕ, List, ◌+◌, ◌^◌, ◌<◌, ◌≤◌, ◌∷◌, ◌++◌, [], length, drop, take, IfSome, OnOk, option_map};
ghost use Rattle.std.specs.List.{slice_split, list_any};
ghost use Rattle.std.specs.Option.{option_copied};
ghost use Rattle.std.specs.Str.{IsUtf8, bytes_eq};
ghost use Rattle.opl_reader.specs.Reading.{Gives, Leaves};
ghost use Rattle.opl_reader.specs.Items.{kind_by_letter};
ghost use Rattle.opl_reader.specs.ItemReading.{is_comma, tags_at, own_place_of, ref_behind, ref_spelled, ref_at, refs_at, target_of, members_at};
ghost use Rattle.opl_reader.specs.Steps.{BeginsWithRef, IsFirstRef, all_left, left_parts, left_len, tag, kept_with, kept_at, with_member_at, HasKeysOf};

use crate::cut::{cut, cut_bytes};
use crate::escape::{is_plain, read_string};
use crate::fault::{FaultKind, LineError, fault};
use crate::number::{leading_digits, read_id};
use crate::place::{location_from, x_spelled, y_spelled};
use memchr::memchr_iter;
use osm_elements::{Members, ObjectKind, ObjectRef, Ref, Refs, Tags};
use osm_lattice::Loc;
use std::alloc::{AllocError as OutOfMemory, Global};
use std::collections::BTreeSet;

/// The most items that a list gets room for before they are read. So a line of commas alone takes little memory.
const MOST_ROOM: usize = 2_000;

/// How many tags are searched one by one for a key.
///
/// The keys of later tags are in a set, so that a line with very many tags is read fast.
const FEW_TAGS: usize = 16;

/// The first item, and what is left after its comma.
pub(crate) fn next_item(rest: &str) -> (&str, Option<&str>)
    ensures parts { slice_split is_comma rest.now
        ≡ result.0.now ∷ left_parts (option_copied result.1) }
    ensures utf8 { IfSome result.1 (λ left. IsUtf8 left.now) }
    ensures len { length result.0.now + left_len (option_copied result.1) ≡ length rest.now }
{
    match cut(rest, ',') {
        None => (rest, None),
        Some((item, left)) => (item, Some(left)),
    }
}

/// The text, if it isn't empty.
fn all_items(text: &str) -> Option<&str>
    ensures value { option_copied result ≡ all_left text.now }
    ensures utf8 { IfSome result (λ left. IsUtf8 left.now) }
{
    if text.is_empty() { None } else { Some(text) }
}

/// How many items a list gets room for: all items of the text, up to a limit.
fn item_room(text: &str) -> usize {
    if text.is_empty() {
        return 0;
    }
    let commas = memchr_iter(b',', text.as_bytes()).count();
    commas.min(MOST_ROOM - 1) + 1
}

/// Whether one of the first few tags has this key.
fn is_key_among_few(tags: &Tags, key: &str) -> bool
    ensures { result ≡ list_any (λ t. bytes_eq t.key key.now) (take 16 tags.now) }
{
    let mut rest = tags.iter();
    for _ in 0..FEW_TAGS {
        let Some(tag) = rest.next() else {
            return false;
        };
        if tag.key == key {
            return true;
        }
    }
    false
}

/// Whether a tag has this key: one of the first few, or one of the later ones, whose keys are given.
///
/// Ways: the first 16 tags one by one; all others by a set of their keys.
fn has_key(tags: &Tags, later_keys: &BTreeSet<String>, key: &str) -> bool
    requires { HasKeysOf later_keys.now (drop 16 tags.now) }
    ensures { result ≡ list_any (λ t. bytes_eq t.key key.now) tags.now }
{
    is_key_among_few(tags, key) || later_keys.contains(key)
}

/// Adds the key of the tag that is to follow these, if it is a later one.
fn add_later_key(
    alloc: Global,
    tags: &Tags,
    later_keys: &mut BTreeSet<String>,
    key: &str,
) -> Result<(), OutOfMemory>
    requires { HasKeysOf later_keys.old (drop 16 tags.now) }
    ensures { OnOk result ((value : List ℕ)
        → HasKeysOf later_keys.new (drop 16 (tags.now ++ tag key.now value ∷ []))) }
{
    if tags.len() < FEW_TAGS {
        return Ok(());
    }
    let key = String::from_str(alloc, key)?;
    later_keys.insert(key)?;
    Ok(())
}

/// Adds a tag, unless one with its key is there.
fn keep(
    alloc: Global,
    tags: &mut Tags,
    later_keys: &mut BTreeSet<String>,
    key: &str,
    value: &str,
) -> Result<(), OutOfMemory>
    requires { HasKeysOf later_keys.old (drop 16 tags.old) }
    ensures kept { OnOk result (tags.new ≡ kept_with tags.old (tag key.now value.now)) }
    ensures keys { OnOk result (HasKeysOf later_keys.new (drop 16 tags.new)) }
{
    if has_key(tags, later_keys, key) {
        return Ok(());
    }
    add_later_key(alloc, tags, later_keys, key)?;
    tags.push(key, value)
}

/// Adds the tag that an item spells, key=value, unless one with its key is there.
///
/// Ways: keys and values without escapes as they are; all others by texts that are read from them.
#[tactic(auto, unfolding(crate::specs::ItemReading::tag_at))]
fn add_tag(
    alloc: Global,
    tags: &mut Tags,
    later_keys: &mut BTreeSet<String>,
    item: &str,
    place: u64,
) -> Result<(), LineError>
    requires { HasKeysOf later_keys.old (drop 16 tags.old) }
    ensures tags { Leaves result tags.new (kept_at tags.old place item.now) }
    ensures keys { OnOk result (HasKeysOf later_keys.new (drop 16 tags.new)) }
{
    let Some((key, value)) = cut(item, '=') else {
        return Err(fault(FaultKind::BadTag, place));
    };
    // Most spell themselves, and are kept without a copy in between.
    if is_plain(key) && is_plain(value) {
        keep(alloc, tags, later_keys, key, value)?;
        return Ok(());
    }
    let key = read_string(alloc, key, place)?;
    let value = read_string(alloc, value, place)?;
    keep(alloc, tags, later_keys, key.as_str(), value.as_str())?;
    Ok(())
}

/// Tags; of equal keys only the first.
#[tactic(auto, unfolding(crate::specs::ItemReading::tags_at))]
pub fn read_tags(alloc: Global, text: &str, place: u64) -> Result<Tags, LineError>
    requires { place + length text.now < 2 ^ 63 }
    ensures { Gives result (tags_at place text.now) }
{
    let mut tags = Tags::new(alloc);
    let mut later_keys = BTreeSet::new(alloc);
    let mut at = place;
    let mut left = all_items(text);
    while let Some(rest) = left {
        let (item, more) = next_item(rest);
        add_tag(alloc, &mut tags, &mut later_keys, item, at)?;
        at += item.len() as u64 + 1;
        left = more;
    }
    // A block that is made smaller may keep its size, so a copy of it is stored.
    Ok(tags.without_spare_room(alloc)?)
}

/// The own location after its x: a longitude or nothing, y, a latitude or nothing.
#[tactic(auto, unfolding(crate::specs::ItemReading::own_place_of))]
fn own_place_of(bytes: &[u8]) -> Option<Option<Loc>>
    ensures { result ≡ own_place_of bytes.now }
{
    let (x, y) = cut_bytes(bytes, b'y')?;
    let x = x_spelled(x)?;
    let y = y_spelled(y)?;
    Some(location_from(x, y))
}

/// An id, and after it an own location if an x follows.
#[tactic(auto, unfolding(crate::specs::ItemReading::ref_behind))]
fn ref_behind(bytes: &[u8]) -> Option<Ref>
    ensures { result ≡ ref_behind bytes.now }
{
    match cut_bytes(bytes, b'x') {
        None => {
            let node = read_id(bytes)?;
            Some(Ref { node, at: None })
        }
        Some((id, place)) => {
            let node = read_id(id)?;
            let at = own_place_of(place)?;
            Some(Ref { node, at })
        }
    }
}

/// A reference: n, an id, and maybe an own location.
#[tactic(auto, unfolding(crate::specs::ItemReading::ref_spelled))]
fn read_ref(item: &[u8]) -> Option<Ref>
    ensures { result ≡ ref_spelled item.now }
{
    match item {
        [b'n', bytes @ ..] => ref_behind(bytes),
        _ => None,
    }
}

/// A first item in the usual form, n and a few digits, and how many bytes it has. None decides nothing.
fn usual_ref(rest: &[u8]) -> Option<(Ref, usize)>
    ensures { IfSome result (λ r. BeginsWithRef rest.now r.0 r.1) }
{
    if rest.is_empty() || rest[0] != b'n' {
        return None;
    }
    let (_, digits) = rest.split_at(1);
    let (node, len) = leading_digits(digits);
    if len == 0 {
        return None;
    }
    if len < digits.len() && digits[len] != b',' {
        return None;
    }
    let node = node as i64;
    Some((Ref { node, at: None }, len + 1))
}

/// The reference that the first item is, how many bytes the item has, and what is left after its comma.
///
/// Ways: references of an n and up to 18 digits; all others by the whole grammar.
fn next_ref(rest: &str) -> (Option<Ref>, usize, Option<&str>)
    ensures first { IsFirstRef rest.now result.0 result.1 (option_copied result.2) }
    ensures utf8 { IfSome result.2 (λ left. IsUtf8 left.now) }
{
    if let Some((reference, len)) = usual_ref(rest.as_bytes()) {
        if len == rest.len() {
            return (Some(reference), len, None);
        }
        return (Some(reference), len, Some(&rest[len + 1..]));
    }
    let (item, left) = next_item(rest);
    (read_ref(item.as_bytes()), item.len(), left)
}

/// References.
#[tactic(auto, unfolding(crate::specs::ItemReading::ref_at))]
pub fn read_refs(alloc: Global, text: &str, place: u64) -> Result<Refs, LineError>
    requires { place + length text.now < 2 ^ 63 }
    ensures { Gives result (refs_at place text.now) }
{
    let mut refs = Refs::new(alloc);
    let mut first = None;
    let mut at = place;
    let mut left = all_items(text);
    while let Some(rest) = left {
        let (reference, len, more) = next_ref(rest);
        let Some(reference) = reference else {
            return Err(fault(FaultKind::BadReference, at));
        };
        refs.push_behind(first, reference)?;
        first = Some(first.unwrap_or(reference));
        at += len as u64 + 1;
        left = more;
    }
    // As for tags, a copy is stored.
    Ok(refs.without_spare_room(alloc)?)
}

/// The kind of object that a letter names.
pub fn kind_by_letter(letter: u8) -> Option<ObjectKind>
    ensures { result ≡ kind_by_letter letter }
{
    match letter {
        b'n' => Some(ObjectKind::Node),
        b'w' => Some(ObjectKind::Way),
        b'r' => Some(ObjectKind::Relation),
        _ => None,
    }
}

/// A letter and an id.
#[tactic(auto, unfolding(crate::specs::ItemReading::target_of))]
fn read_target(text: &str) -> Option<ObjectRef>
    ensures { option_map (λ target. (target.kind, target.id)) result ≡ target_of text.now }
{
    match text.as_bytes() {
        [] => None,
        [letter, id @ ..] => {
            let kind = kind_by_letter(*letter)?;
            let id = read_id(id)?;
            Some(ObjectRef { kind, id })
        }
    }
}

/// Adds the member that an item spells: a target, @ and a role.
#[tactic(auto, unfolding(crate::specs::ItemReading::member_at))]
fn add_member(alloc: Global, members: &mut Members, item: &str, place: u64) -> Result<(), LineError>
    ensures { Leaves result members.new (with_member_at members.old place item.now) }
{
    let Some((target, role)) = cut(item, '@') else {
        return Err(fault(FaultKind::BadMember, place));
    };
    let Some(target) = read_target(target) else {
        return Err(fault(FaultKind::BadMember, place));
    };
    // Most roles spell themselves, and are kept without a copy in between.
    if is_plain(role) {
        members.push(target, role)?;
        return Ok(());
    }
    let role = read_string(alloc, role, place)?;
    members.push(target, role.as_str())?;
    Ok(())
}

/// Members.
pub fn read_members(alloc: Global, text: &str, place: u64) -> Result<Members, LineError>
    requires { place + length text.now < 2 ^ 63 }
    ensures { Gives result (members_at place text.now) }
{
    // Roles are usual ones, and few as bytes, so they get no room of their own.
    let mut members = Members::with_capacity(alloc, item_room(text), 0)?;
    let mut at = place;
    let mut left = all_items(text);
    while let Some(rest) = left {
        let (item, more) = next_item(rest);
        add_member(alloc, &mut members, item, at)?;
        at += item.len() as u64 + 1;
        left = more;
    }
    // As for tags, a copy is stored.
    Ok(members.copy(alloc)?)
}
