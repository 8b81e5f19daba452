//! What is wrong with a line of an input.

use opl_reader::LineFault;
use osm_elements::ObjectKind;

/// What is wrong with the bad place of an input, a line.
#[derive(Clone, Copy, Debug, PartialEq, Eq)]
pub enum InputFault {
    /// The line has no reading.
    Line(LineFault),
    /// The line is longer than lines may be.
    TooLong,
    /// The line tells a live object whose kind and id an earlier live object has.
    Duplicate { kind: ObjectKind, id: i64 },
}
