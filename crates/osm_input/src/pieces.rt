//! The pieces of an input, read into a store line by line.

ghost use Rattle.std.specs.Prelude.{◌≡◌, ◌≢◌, ◌<◌, ◌≤◌, ◌+◌, ◌^◌, ◌++◌, ℕ, List, length, false, None, Ok, IfOk, IfErr, OnOk};
ghost use Rattle.opl_reader.specs.declared.feed.FeedError.TheVariants.{Ended};
ghost use Rattle.osm_input.specs.Input.{fault_in};
ghost use Rattle.osm_input.specs.LineSteps.{IsLineError, IsErrorOfRefusal, with_live, HasReadLines, ReadsSome, ReadsPiece, ReadsAll};

use crate::fault::InputFault;
use crate::reading::ReadError;
use opl_reader::{FeedError, Lines};
use osm_elements::Object;
use osm_objects::{AddError, Store};

/// Why an input isn't read if its lines were refused. A reader of lines that goes on has not ended.
fn refusal(error: FeedError) -> ReadError
    requires { error ≢ Ended }
    ensures { IsErrorOfRefusal error result }
{
    match error {
        FeedError::Line { line, fault } => {
            let fault = InputFault::Line(fault);
            ReadError::BadInput { line, fault }
        }
        FeedError::TooLong { line } => {
            let fault = InputFault::TooLong;
            ReadError::BadInput { line, fault }
        }
        FeedError::Ended => unreachable!(),
        FeedError::OutOfMemory => ReadError::OutOfMemory,
    }
}

/// Adds the object that the line of this number tells, if it tells one.
fn add_told(store: &mut Store, object: Option<Object>, number: u64) -> Result<(), ReadError>
    ensures added { OnOk result (store.new ≡ with_live store.old object) }
    ensures good { OnOk result (fault_in store.old (Ok object) ≡ None) }
    ensures bad { IfErr result (IsLineError number (fault_in store.old (Ok object))) }
{
    let Some(object) = object else {
        return Ok(());
    };
    match store.add(object) {
        Ok(()) => Ok(()),
        Err(AddError::Duplicate { kind, id }) => {
            let fault = InputFault::Duplicate { kind, id };
            Err(ReadError::BadInput {
                line: number,
                fault,
            })
        }
        Err(AddError::OutOfMemory) => Err(ReadError::OutOfMemory),
    }
}

/// Reads the bytes up to and including the first newline, or all, and says how many there are.
///
/// The object of the line that ends there goes into the store.
fn add_object(lines: &mut Lines, store: &mut Store, piece: &[u8]) -> Result<usize, ReadError>
    requires goes_on { lines.old.has_ended ≡ false }
    requires some { 0 < length piece.now }
    requires room { lines.old.fed + length piece.now < 2 ^ 63 }
    ensures holds { (longest : ℕ) (bytes : List ℕ) → HasReadLines longest bytes lines.old store.old
        → ReadsSome longest bytes piece.now lines.new store.new result }
    ensures used { IfOk result (λ used. (1 ≤ used) × (used ≤ length piece.now)
        × (lines.new.fed ≡ lines.old.fed + used)) }
    ensures still { OnOk result (lines.new.has_ended ≡ false) }
{
    let fed = match lines.feed(piece) {
        Ok(fed) => fed,
        Err(error) => return Err(refusal(error)),
    };
    match add_told(store, fed.object, lines.line()) {
        Ok(()) => Ok(fed.used),
        Err(error) => Err(error),
    }
}

/// Reads a piece of an input: the objects of the lines that end in it go into the store.
///
/// The bytes after these lines are kept.
pub(crate) fn read_piece(
    lines: &mut Lines,
    store: &mut Store,
    piece: &[u8],
) -> Result<(), ReadError>
    requires goes_on { lines.old.has_ended ≡ false }
    requires room { lines.old.fed + length piece.now < 2 ^ 63 }
    ensures holds { (longest : ℕ) (bytes : List ℕ) → HasReadLines longest bytes lines.old store.old
        → ReadsPiece longest bytes piece.now lines.new store.new result }
{
    let mut rest = piece;
    while !rest.is_empty() {
        let used = match add_object(lines, store, rest) {
            Ok(used) => used,
            Err(error) => return Err(error),
        };
        rest = &rest[used..];
    }
    Ok(())
}

/// Reads the bytes after the last newline as the last line, and hands over the store.
pub(crate) fn finish(mut lines: Lines, mut store: Store) -> Result<Store, ReadError>
    requires { lines.has_ended ≡ false }
    ensures { (longest : ℕ) (bytes : List ℕ) → HasReadLines longest bytes lines store
        → ReadsAll longest bytes result }
{
    let object = match lines.finish() {
        Ok(object) => object,
        Err(error) => return Err(refusal(error)),
    };
    match add_told(&mut store, object, lines.line()) {
        Ok(()) => Ok(store),
        Err(error) => Err(error),
    }
}
