//! The lines of an input that comes in pieces, read one by one.

ghost use Rattle.std.specs.Prelude.{nat_lt, ◌≡◌, ◌≤◌, ◌<◌, ◌+◌, ◌^◌, ◌++◌, [], length, true, false, IfOk, OnOk, OnErr};
ghost use Rattle.std.specs.List.{position_or_len, before_first};
ghost use Rattle.opl_reader.specs.Reading.{Gives};
ghost use Rattle.opl_reader.specs.LineReading.{reading};
ghost use Rattle.opl_reader.specs.Lines.{is_newline};
ghost use Rattle.opl_reader.specs.Reader.{new_reader};
ghost use Rattle.opl_reader.specs.Feeding.{has_newline, feeding, finishing, Answers, HasEnded};

use crate::fault::LineError;
use crate::feed::{Fed, FeedError};
use crate::line::read_line;
use memchr::memchr;
use osm_elements::Object;
use std::alloc::Global;
use std::marker::Model;

/// A reader of lines. It holds the unfinished line, and no more of the input.
#[derive(Drop)]
pub struct Lines {
    alloc: Global,
    unfinished: Vec<u8>,
    line: u64,
    fed: u64,
    longest: u64,
    has_ended: bool,
}

impl Model for Lines {
    ghost use Rattle.std.specs.Prelude.{◌≤◌, ◌<◌, ◌+◌, ◌^◌, length};
    ghost use Rattle.opl_reader.specs.Reader.{Reader};

    ghost Value = { Reader };

    ghost view = { λ r. record { unfinished = r.unfinished.items; line = r.line; fed = r.fed; longest = r.longest; has_ended = r.has_ended } };

    ghost invariant = { λ r. (r.line + length r.unfinished.items ≤ r.fed) × (r.fed < 2 ^ 63) × (length r.unfinished.items ≤ r.longest) };
}

/// The bytes before the first newline, and whether there is one.
fn first_line(piece: &[u8]) -> (&[u8], bool)
    ensures front { result.0.now ≡ before_first is_newline piece.now }
    ensures is_ended { result.1 ≡ has_newline piece.now }
    ensures place { length result.0.now ≡ position_or_len is_newline piece.now }
{
    match memchr(b'\n', piece) {
        Some(end) => (&piece[..end], true),
        None => (piece, false),
    }
}

/// Whether a line with these bytes added is longer than it may be.
fn is_too_long(unfinished: &[u8], more: &[u8], longest: u64) -> bool
    requires { length unfinished.now ≤ longest }
    ensures { result ≡ nat_lt longest (length (unfinished.now ++ more.now)) }
{
    more.len() as u64 > longest - unfinished.len() as u64
}

/// Reads the line that is the unfinished one and these bytes. If they are all of it, it is read in place.
fn read_complete_line(
    alloc: Global,
    unfinished: &mut Vec<u8>,
    end: &[u8],
) -> Result<Option<Object>, LineError>
    ensures reading { Gives result (reading (unfinished.old.items ++ end.now)) }
    ensures empty { OnOk result (unfinished.new.items ≡ []) }
{
    if unfinished.is_empty() {
        return read_line(alloc, end);
    }
    unfinished.extend_from_slice(end)?;
    let object = read_line(alloc, unfinished)?;
    unfinished.clear();
    Ok(object)
}

impl Lines {
    /// A reader of lines of at most `longest` bytes. Making it takes no memory.
    pub fn new(alloc: Global, longest: u64) -> Lines
        ensures { result ≡ new_reader longest }
    {
        Lines {
            alloc,
            unfinished: Vec::new(alloc),
            line: 0,
            fed: 0,
            longest,
            has_ended: false,
        }
    }

    /// The number of the line last read, from 1; 0 before the first.
    pub fn line(&self) -> u64
        ensures { result ≡ self.now.line }
    {
        self.line
    }

    /// Takes bytes up to and including the first newline, or all, and reads the line that ends there.
    ///
    /// A line that ends without a reading is refused. So is one of more than `longest` bytes, as soon as the bytes of this
    /// piece exceed them. After any refusal the reader has ended, and every later call answers `Ended`.
    #[tactic(auto, unfolding(crate::specs::Feeding::feeding))]
    pub fn feed(&mut self, piece: &[u8]) -> Result<Fed, FeedError>
        requires some { 0 < length piece.now }
        requires room { self.old.fed + length piece.now < 2 ^ 63 }
        ensures answer { Answers result self.new (feeding self.old piece.now) }
        ensures used { IfOk result (λ fed. (1 ≤ fed.used) × (fed.used ≤ length piece.now)
            × (self.new.fed ≡ self.old.fed + fed.used)) }
        ensures goes_on { OnOk result (self.new.has_ended ≡ false) }
        ensures refused { OnErr result (HasEnded self.old self.new) }
    {
        if self.has_ended {
            return Err(FeedError::Ended);
        }
        let (front, is_ended) = first_line(piece);
        if is_too_long(self.unfinished.as_slice(), front, self.longest) {
            self.has_ended = true;
            return Err(FeedError::TooLong {
                line: self.line + 1,
            });
        }
        if !is_ended {
            if self.unfinished.extend_from_slice(front).is_err() {
                self.has_ended = true;
                return Err(FeedError::OutOfMemory);
            }
            self.fed += front.len() as u64;
            return Ok(Fed {
                used: front.len(),
                object: None,
            });
        }
        match read_complete_line(self.alloc, &mut self.unfinished, front) {
            Ok(object) => {
                self.line += 1;
                self.fed += front.len() as u64 + 1;
                Ok(Fed {
                    used: front.len() + 1,
                    object,
                })
            }
            Err(error) => {
                self.has_ended = true;
                self.unfinished.clear();
                Err(FeedError::of_line(self.line + 1, error))
            }
        }
    }

    /// Reads the bytes after the last newline as the last line; None if there are none, or the line is passed over.
    ///
    /// Afterwards the reader has ended.
    #[tactic(auto, unfolding(crate::specs::Feeding::finishing))]
    pub fn finish(&mut self) -> Result<Option<Object>, FeedError>
        ensures answer { Answers result self.new (finishing self.old) }
        ensures ended { self.new.has_ended ≡ true }
        ensures fed { self.new.fed ≡ self.old.fed }
        ensures refused { OnErr result (HasEnded self.old self.new) }
    {
        if self.has_ended {
            return Err(FeedError::Ended);
        }
        self.has_ended = true;
        if self.unfinished.is_empty() {
            return Ok(None);
        }
        match read_complete_line(self.alloc, &mut self.unfinished, &[]) {
            Ok(object) => {
                self.line += 1;
                Ok(object)
            }
            Err(error) => {
                self.unfinished.clear();
                Err(FeedError::of_line(self.line + 1, error))
            }
        }
    }
}
