//! What a piece of an input gives.

ghost use Rattle.std.specs.Prelude.{◌≡◌};
ghost use Rattle.opl_reader.specs.Steps.{of_line};

use crate::fault::{LineError, LineFault};
use osm_elements::Object;

/// What a piece gave.
#[derive(Debug, Drop)]
pub struct Fed {
    /// How many bytes of the piece were used: up to and including its first newline, or all.
    pub used: usize,
    /// The object of the line that ended; None if no line ended, or it is passed over.
    pub object: Option<Object>,
}

/// Why a call gave no answer. Lines are counted from 1.
#[derive(Clone, Copy, Debug, PartialEq, Eq)]
pub enum FeedError {
    /// A line has no reading.
    Line { line: u64, fault: LineFault },
    /// A line has too many bytes.
    TooLong { line: u64 },
    /// An earlier call was refused, or the reading was finished.
    Ended,
    /// Memory ran out.
    OutOfMemory,
}

impl FeedError {
    /// What is wrong with the line of this number.
    pub(crate) fn of_line(line: u64, error: LineError) -> FeedError
        ensures { result ≡ of_line line error }
    {
        match error {
            LineError::Fault(fault) => FeedError::Line { line, fault },
            LineError::OutOfMemory => FeedError::OutOfMemory,
        }
    }
}
