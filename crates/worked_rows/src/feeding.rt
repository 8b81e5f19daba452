//! Lines of an input that comes in pieces.

ghost use Rattle.std.specs.Prelude.{◌≡◌, ◌<◌, ◌≤◌, ◌+◌, ◌^◌, length};

use crate::answers::Answer;
use crate::calls::Call;
use crate::form::number;
use crate::objects::put_object;
use opl_reader::{FeedError, Lines};
use osm_elements::Object;
use std::alloc::Global;

/// The id of an object, whose kind doesn't matter.
fn id_of(object: Option<Object>) -> Option<i64> {
    match object? {
        Object::Node { id, .. } | Object::Way { id, .. } | Object::Relation { id, .. } => Some(id),
    }
}

/// Adds an object in words, where there is one, as a line.
fn put_told(object: &Option<Object>, told: &mut Answer) {
    if let Some(object) = object {
        put_object(object, told);
        told.put("\n");
    }
}

/// The objects that are handed out where each piece has this many bytes, and lines have at most so many; an error in place of them.
fn told_by(alloc: Global, longest: u64, input: &[u8], size: usize) -> Answer {
    let mut told = Answer::new(alloc);
    let mut lines = Lines::new(alloc, longest);
    feed_all(&mut lines, input, size, &mut told);
    told
}

/// Adds the objects that are handed out where each piece has this many bytes, or tells an error alone.
fn feed_all(lines: &mut Lines, input: &[u8], size: usize, told: &mut Answer)
    requires { lines.old.fed ≡ 0 }
{
    let mut rest = input;
    while !rest.is_empty() {
        let used = feed_piece(lines, &rest[..size.min(rest.len()).max(1)], told);
        if used == 0 {
            return;
        }
        rest = &rest[used..];
    }
    match lines.finish() {
        Ok(last) => put_told(&last, told),
        Err(error) => tell_alone(error, told),
    }
}

/// Adds the object that a piece ended, and gives how many of its bytes were used; or tells an error alone, and gives 0.
fn feed_piece(lines: &mut Lines, piece: &[u8], told: &mut Answer) -> usize
    requires some { 0 < length piece.now }
    requires room { lines.old.fed + length piece.now < 2 ^ 63 }
    ensures within { result ≤ length piece.now }
    ensures fed { 0 < result → lines.new.fed ≡ lines.old.fed + result }
{
    match lines.feed(piece) {
        Ok(fed) => {
            put_told(&fed.object, told);
            fed.used
        }
        Err(error) => {
            tell_alone(error, told);
            0
        }
    }
}

/// Tells an error in place of what was told.
fn tell_alone(error: FeedError, told: &mut Answer) {
    told.text.clear();
    told.put_debug(&error);
}

/// Whether the same is told where each piece has this many bytes.
fn is_told(alloc: Global, longest: u64, input: &[u8], size: usize, wanted: &str) -> bool {
    told_by(alloc, longest, input, size).text.as_str() == wanted
}

/// Adds the objects that are handed out where each piece has one byte. They have to be the same for pieces of every size.
pub(crate) fn put_pieces(alloc: Global, call: Call<'_>, told: &mut Answer) {
    let longest = number(call.by, told);
    let first = told_by(alloc, longest, call.text, 1);
    told.put(&first.text);
    for size in 2..call.text.len().saturating_add(1) {
        if !is_told(alloc, longest, call.text, size, &first.text) {
            told.put("not the same by pieces of another size");
        }
    }
}

/// Adds what comes of pieces, parted by slashes, where lines have at most so many bytes; an empty piece ends the reading.
pub(crate) fn put_fed(alloc: Global, call: Call<'_>, told: &mut Answer) {
    let mut lines = Lines::new(alloc, number(call.by, told));
    let mut rest = call.text;
    while !rest.is_empty() {
        let end = end_of(rest);
        put_answer(&mut lines, &rest[..end], told);
        rest = &rest[end.saturating_add(1).min(rest.len())..];
    }
}

/// Where the first piece ends.
fn end_of(rest: &[u8]) -> usize
    ensures { result ≤ length rest.now }
{
    for (index, byte) in rest.iter().enumerate() {
        if *byte == b'/' {
            return index;
        }
    }
    rest.len()
}

/// The id of the object that a piece ended, and how many of its bytes were used; an empty piece ends the reading.
fn fed(lines: &mut Lines, piece: &[u8]) -> Result<(Option<i64>, usize), FeedError>
    requires { lines.old.fed + length piece.now < 2 ^ 63 }
    ensures { lines.new.fed ≤ lines.old.fed + length piece.now }
{
    if piece.is_empty() {
        return Ok((id_of(lines.finish()?), 0));
    }
    let fed = lines.feed(piece)?;
    Ok((id_of(fed.object), fed.used))
}

/// Adds the answer to a piece, and how many lines were read.
fn put_answer(lines: &mut Lines, piece: &[u8], told: &mut Answer)
    requires { lines.old.fed + length piece.now < 2 ^ 63 }
    ensures { lines.new.fed ≤ lines.old.fed + length piece.now }
{
    match fed(lines, piece) {
        Ok((id, used)) => put_used(id, used, lines.line(), told),
        Err(error) => put_error(error, told),
    }
}

/// Adds the id that a piece ended, how many of its bytes were used, and how many lines were read.
fn put_used(id: Option<i64>, used: usize, line: u64, told: &mut Answer) {
    told.put_debug(&id);
    told.put(" ");
    told.put_shown(&used);
    told.put(", line ");
    told.put_shown(&line);
    told.put("\n");
}

/// Adds an error; of a line with no reading its number and what is wrong with it.
fn put_error(error: FeedError, told: &mut Answer) {
    match error {
        FeedError::Line { line, fault } => {
            told.put_debug(&fault.kind);
            told.put(" in line ");
            told.put_shown(&line);
        }
        error => told.put_debug(&error),
    }
    told.put("\n");
}
