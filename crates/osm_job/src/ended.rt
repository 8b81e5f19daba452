//! How a run ends.

use osm_elements::ObjectRef;
use osm_input::InputFault;
use osm_words::WordsFault;

/// How a run ends.
#[derive(Clone, Copy, Debug, PartialEq, Eq)]
pub enum Ended {
    /// The whole output and the whole report are written.
    Done,
    /// As Done, and the report has warnings, but no errors.
    Warnings,
    /// As Done, and the report has errors.
    Errors,
    /// This candidate is the first with problems, and the run had to stop there.
    Stopped { candidate: ObjectRef },
    /// The words aren't taken.
    BadWords { cause: WordsFault },
    /// A line of the input, counted from 1, is its bad place.
    BadInput { line: u64, fault: InputFault },
    /// The input has more bytes than this limit.
    TooMuchInput { limit: u64 },
    /// The output would have more pieces than this: leaves are counted before the output is opened.
    TooManyPieces { most: u64 },
    /// This line of the text, counted from 1, is the first that isn't right.
    Refuted { line: u64 },
    /// This line of the text, counted from 1, is the first that isn't a point.
    BadPoint { line: u64 },
    /// An open failed.
    OpenFault,
    /// A read failed.
    ReadFault,
    /// A write failed.
    WriteFault,
    /// Memory ran out.
    OutOfMemory,
}
