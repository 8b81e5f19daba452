//! Lines.

ghost use Rattle.std.specs.Prelude.{◌≡◌, ◌+◌, ◌^◌, ◌<◌, ◌≤◌, ◌∷◌, [], List, ℕ, length, slice_index, IfSome, MatchOption, Some, None, Ok, IfOk, OnOk, IfErr, IfNone, Err};
ghost use Rattle.osm_elements.specs.declared.object.ObjectKind.{ObjectKind};
ghost use Rattle.opl_reader.specs.declared.fault.LineFault.{LineFault};
ghost use Rattle.opl_reader.specs.Reading.{Gives, Leaves};
ghost use Rattle.opl_reader.specs.Parts.{without_cr};
ghost use Rattle.opl_reader.specs.Fields.{nothing};
ghost use Rattle.opl_reader.specs.FieldReading.{with_field, with_fields};
ghost use Rattle.opl_reader.specs.LineReading.{fields_from, head_at, reading};
ghost use Rattle.opl_reader.specs.Spells.{Spells, IsPassedOver, tags_of};
ghost use Rattle.opl_reader.specs.Items.{HaveDifferentKeys};
ghost use Rattle.opl_reader.specs.Faults.{HasFault, Explains};
ghost use Rattle.opl_reader.specs.OneAnswer.{IsAnswer, HasAnswer, HasNoOther};
ghost use Rattle.opl_reader.specs.Steps.{with_part, begins_passed, Marks};
ghost use Rattle.osm_elements.specs.declared.object.Object.{Object};
ghost use Rattle.std.specs.Str.{IsUtf8};

use crate::content::{Content, object_of};
use crate::fault::{FaultKind, LineError, fault};
use crate::field::{add_value, letter_of};
use crate::items::kind_by_letter;
use crate::number::read_id;
use crate::search::first_separator;
use osm_elements::{Object, ObjectKind};
use std::alloc::Global;
use std::str;

/// The text before the first separator, and the text after it.
#[inline(always)]
fn next_part(text: &str) -> (&str, &str)
    ensures fields { (place : ℕ) → fields_from place text.now
        ≡ with_part place result.0.now
        (fields_from (place + length result.0.now + 1) result.1.now) }
    ensures part_utf8 { IsUtf8 result.0.now }
    ensures left_utf8 { IsUtf8 result.1.now }
    ensures len { length result.0.now + length result.1.now ≤ length text.now }
    ensures behind { 0 < length result.1.now
        → length result.0.now + 1 + length result.1.now ≤ length text.now }
    ensures shorter { 0 < length text.now → length result.1.now < length text.now }
{
    let len = first_separator(text.as_bytes());
    if len == text.len() {
        return (text, "");
    }
    (&text[..len], &text[len + 1..])
}

/// The next field with its place, and what is left after it.
#[inline(always)]
fn next_field(text: &str, place: u64) -> Option<(u64, &str, &str)>
    requires { place + length text.now < 2 ^ 64 }
    ensures fields { MatchOption result (fields_from place text.now ≡ [])
        (λ f. fields_from place text.now ≡ record { at = f.0; bytes = f.1.now }
        ∷ fields_from (f.0 + length f.1.now + 1) f.2.now) }
    ensures field_utf8 { IfSome result (λ f. IsUtf8 f.1.now) }
    ensures left_utf8 { IfSome result (λ f. IsUtf8 f.2.now) }
    ensures some { IfSome result (λ f. 0 < length f.1.now) }
    ensures shorter { IfSome result (λ f. length f.2.now < length text.now) }
    ensures room { IfSome result (λ f.
        f.0 + length f.1.now + length f.2.now ≤ place + length text.now) }
    ensures behind { IfSome result (λ f. 0 < length f.2.now
        → f.0 + length f.1.now + 1 + length f.2.now ≤ place + length text.now) }
{
    let mut at = place;
    let mut left = text;
    while !left.is_empty() {
        let (part, more) = next_part(left);
        if !part.is_empty() {
            return Some((at, part, more));
        }
        at += 1;
        left = more;
    }
    None
}

/// Whether the first field begins a comment or a changeset, or there is none.
fn is_passed_over(text: &[u8]) -> bool
    ensures { result ≡ begins_passed (fields_from 0 text.now) }
{
    for byte in text {
        if *byte != b' ' && *byte != b'\t' {
            return *byte == b'#' || *byte == b'c';
        }
    }
    true
}

/// Adds a field to the content, and marks its letter as seen.
#[tactic(auto, unfolding(crate::specs::FieldReading::with_field))]
fn add_field(
    alloc: Global,
    kind: ObjectKind,
    seen: &mut [bool; 256],
    place: u64,
    field: &str,
    content: &mut Content,
) -> Result<(), LineError>
    requires some { 0 < length field.now }
    requires small { place + length field.now < 2 ^ 63 }
    ensures content { (letters : List ℕ) → Marks seen.old letters
        → Leaves result content.new (with_field kind letters place field.now content.old) }
    ensures seen { OnOk result ((letters : List ℕ) → Marks seen.old letters
        → Marks seen.new (slice_index field.now 0 ∷ letters)) }
{
    let letter = field.as_bytes()[0];
    // This test comes first, so that the meaning of a letter leads to its value at once.
    if seen[letter as usize] {
        if letter_of(kind, letter).is_none() {
            return Err(fault(FaultKind::UnknownField, place));
        }
        return Err(fault(FaultKind::RepeatedField, place));
    }
    seen[letter as usize] = true;
    let Some(meaning) = letter_of(kind, letter) else {
        return Err(fault(FaultKind::UnknownField, place));
    };
    add_value(alloc, meaning, place, &field[1..], content)
}

/// The content of the fields from a place on.
fn with_fields(
    alloc: Global,
    kind: ObjectKind,
    text: &str,
    place: u64,
) -> Result<Content, LineError>
    requires small { place ≤ 2 ^ 63 }
    requires room { 0 < length text.now → place + length text.now < 2 ^ 63 }
    ensures { Gives result (with_fields kind [] (fields_from place text.now) nothing) }
{
    let mut seen = [false; 256];
    let mut content = Content::new(alloc);
    let mut at = place;
    let mut left = text;
    while let Some((start, field, more)) = next_field(left, at) {
        add_field(alloc, kind, &mut seen, start, field, &mut content)?;
        at = start + field.len() as u64 + 1;
        left = more;
    }
    Ok(content)
}

/// The first field: a letter and an id.
#[tactic(auto, unfolding(crate::specs::LineReading::head_at))]
fn read_head(field: &str, place: u64) -> Result<(ObjectKind, i64), LineError>
    ensures { Gives result (head_at place field.now) }
{
    match field.as_bytes() {
        [] => Err(fault(FaultKind::UnknownObject, place)),
        [letter, id @ ..] => {
            let Some(kind) = kind_by_letter(*letter) else {
                return Err(fault(FaultKind::UnknownObject, place));
            };
            let Some(id) = read_id(id) else {
                return Err(fault(FaultKind::BadNumber, place));
            };
            Ok((kind, id))
        }
    }
}

/// A line without the CR at its end.
fn without_cr(line: &[u8]) -> &[u8]
    ensures { result.now ≡ without_cr line.now }
{
    match line {
        [text @ .., b'\r'] => text,
        _ => line,
    }
}

/// Reads a line. The public call has more clauses, which follow from this one.
#[tactic(auto, unfolding(crate::specs::LineReading::reading, crate::specs::LineReading::object_in_parts))]
fn read(alloc: Global, line: &[u8]) -> Result<Option<Object>, LineError>
    ensures { Gives result (reading line.now) }
{
    let text = without_cr(line);
    if is_passed_over(text) {
        return Ok(None);
    }
    let text = match str::from_utf8(text) {
        Ok(text) => text,
        Err(e) => return Err(fault(FaultKind::NotUtf8, e.valid_up_to() as u64)),
    };
    let Some((place, head, left)) = next_field(text, 0) else {
        return Ok(None);
    };
    let (kind, id) = read_head(head, place)?;
    let content = with_fields(alloc, kind, left, place + head.len() as u64 + 1)?;
    Ok(Some(object_of(kind, id, content)))
}

/// Reads a line of OPL, given without its LF: an object, or None for a line that is passed over.
///
/// A line without fields, a comment and a changeset are passed over. A line that has no reading gives its first fault. Bytes
/// that aren't UTF-8 come before all other faults.
pub fn read_line(alloc: Global, line: &[u8]) -> Result<Option<Object>, LineError>
    // An answer is right.
    ensures object { IfOk result (λ o. IfSome o (λ x. Spells line.now x)) }
    ensures passed { IfOk result (λ o. IfNone o (IsPassedOver line.now)) }
    ensures fault { IfErr result (Explains line.now) }
    // Of tags with equal keys only the first is kept.
    ensures keys { IfOk result (λ o. IfSome o (λ x. HaveDifferentKeys (tags_of x))) }
    // What is right is answered, unless memory runs out.
    ensures spelled { (o : Object) → Spells line.now o → Gives result (Ok (Some o)) }
    ensures skipped { IsPassedOver line.now → Gives result (Ok None) }
    ensures refused { (x : LineFault) → HasFault line.now x → Gives result (Err x) }
    // The same, as a function of the line.
    ensures exact { Gives result (reading line.now) }
{
    read(alloc, line)
}

/// Every line is passed over, spells one object, or has one fault; that is what it is read as.
pub fn lines_have_one_answer()
    ensures reading { (line : List ℕ) → IsAnswer line }
    ensures some { (line : List ℕ) → HasAnswer line }
    ensures one { (line : List ℕ) → HasNoOther line }
{}
