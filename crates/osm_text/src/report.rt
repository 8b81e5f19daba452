//! Lines of an export's report: what keeps a candidate from having an area, and what is noted of it.

ghost use Rattle.std.specs.Prelude.{◌≡◌, ◌++◌, ℕ, List, [], unwrap_or, IfOk, OnOk, codes, decimal};
ghost use Rattle.std.specs.Fmt.{signed_decimal};
ghost use Rattle.osm_tables.specs.Words.{word_of};
ghost use Rattle.osm_objects.specs.Problem.{IsOfItsKind};
ghost use Rattle.osm_text.specs.Report.{subject_text, segment_text, IsProblemText, IsProblemLine, note_text, note_line};

use crate::phrases::{put_crossing, put_overlap, put_repeated, put_with_id};
use osm_elements::{ObjectKind, ObjectRef};
use osm_geom::{Kind, Seg};
use osm_notation::{put_number, put_point};
use osm_objects::{Note, Problem};
use osm_tables::{
    CROSSING, INNER_IN_OUTER, MISSING_NODE, MISSING_WAY, NAMED_TWICE, NOTHING_SURVIVES, ODD_NODE,
    OUTER_IN_INNER, OVERLAP, REPEATED, problem_word,
};
use std::alloc::{AllocError as OutOfMemory, Global};

/// The words of a kind of line.
fn word(kind: u8) -> &'static str
    ensures { result.now ≡ unwrap_or (word_of kind) [] }
{
    problem_word(kind).unwrap_or("")
}

/// Adds what a line is about.
fn put_subject(line: &mut Vec<u8>, of: ObjectRef) -> Result<(), OutOfMemory>
    ensures { OnOk result (line.new.items ≡ line.old.items ++ subject_text of) }
{
    let kind = match of.kind {
        ObjectKind::Node => "node ",
        ObjectKind::Way => "way ",
        ObjectKind::Relation => "relation ",
    };
    line.extend_from_slice(kind.as_bytes())?;
    put_number(line, of.id)?;
    line.extend_from_slice(b": ")?;
    Ok(())
}

/// Adds what a line says of a problem.
fn put_problem(line: &mut Vec<u8>, problem: &Problem) -> Result<(), OutOfMemory>
    requires { IsOfItsKind problem.now }
    ensures { OnOk result ((text : List ℕ) × IsProblemText problem.now text
        × (line.new.items ≡ line.old.items ++ text)) }
{
    match *problem {
        Problem::MissingWay { id } => put_with_id(line, word(MISSING_WAY), id),
        Problem::MissingNode { id } => put_with_id(line, word(MISSING_NODE), id),
        Problem::Nothing => {
            line.extend_from_slice(word(NOTHING_SURVIVES).as_bytes())?;
            Ok(())
        }
        Problem::Conflict {
            kind,
            first,
            second,
        } => match kind {
            Kind::Crossing => put_crossing(line, word(CROSSING), first, second),
            Kind::Overlap => put_overlap(line, word(OVERLAP), first, second),
        },
        Problem::Odd { at } => {
            line.extend_from_slice(word(ODD_NODE).as_bytes())?;
            line.push(b' ')?;
            put_point(line, at)
        }
    }
}

/// Adds a note on a way.
fn put_way_note(line: &mut Vec<u8>, way: i64, kind: u8) -> Result<(), OutOfMemory>
    ensures { OnOk result (line.new.items ≡ line.old.items
        ++ (codes "note way " ++ signed_decimal way
        ++ (codes " " ++ unwrap_or (word_of kind) []))) }
{
    line.extend_from_slice(b"note way ")?;
    put_number(line, way)?;
    line.push(b' ')?;
    line.extend_from_slice(word(kind).as_bytes())?;
    Ok(())
}

/// Adds the note on a segment that stands more than once.
fn put_repeated_note(line: &mut Vec<u8>, seg: Seg, times: u64) -> Result<(), OutOfMemory>
    ensures { OnOk result (line.new.items ≡ line.old.items ++ codes "note segment "
        ++ segment_text seg ++ codes " stands " ++ decimal times ++ codes " times") }
{
    line.extend_from_slice(b"note ")?;
    put_repeated(line, word(REPEATED), seg, times)
}

/// Adds what a line says of a note.
fn put_note(line: &mut Vec<u8>, note: &Note) -> Result<(), OutOfMemory>
    ensures { OnOk result (line.new.items ≡ line.old.items ++ note_text note.now) }
{
    match *note {
        Note::NamedTwice { way } => put_way_note(line, way, NAMED_TWICE),
        Note::Repeated { seg, times } => put_repeated_note(line, seg, times),
        Note::InnerInOuter { way } => put_way_note(line, way, INNER_IN_OUTER),
        Note::OuterInInner { way } => put_way_note(line, way, OUTER_IN_INNER),
    }
}

/// The line of a problem: the candidate that has it, `: `, what it is, and LF.
///
/// Points are in degrees. The point of a crossing is rounded to whole units of 1e-7 degree.
pub fn problem_line(alloc: Global, of: ObjectRef, problem: &Problem) -> Result<Vec<u8>, OutOfMemory>
    requires { IsOfItsKind problem.now }
    ensures { IfOk result (λ line. IsProblemLine of problem.now line.items) }
{
    let mut line = Vec::new(alloc);
    put_subject(&mut line, of)?;
    put_problem(&mut line, problem)?;
    line.push(b'\n')?;
    Ok(line)
}

/// The line of a note: the candidate that it is on, `: note `, what it is, and LF. Points are in degrees.
pub fn note_line(alloc: Global, of: ObjectRef, note: &Note) -> Result<Vec<u8>, OutOfMemory>
    ensures { IfOk result (λ line. line.items ≡ note_line of note.now) }
{
    let mut line = Vec::new(alloc);
    put_subject(&mut line, of)?;
    put_note(&mut line, note)?;
    line.push(b'\n')?;
    Ok(line)
}
