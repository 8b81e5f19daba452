//! Why a line has no reading.

ghost use Rattle.std.specs.Prelude.{◌≡◌};
ghost use Rattle.opl_reader.specs.declared.fault.LineError.TheVariants.{OutOfMemory};
ghost use Rattle.opl_reader.specs.Fault.{fault_text};

use std::alloc::{AllocError as OutOfMemory, AllocFailed};

/// What is wrong with a line.
#[derive(Clone, Copy, Debug, PartialEq, Eq)]
pub enum FaultKind {
    /// The line holds bytes that aren't UTF-8.
    NotUtf8,
    /// The line begins with no letter of an object: n, w or r.
    UnknownObject,
    /// A field begins with a letter that means nothing for its object.
    UnknownField,
    /// A letter occurs twice.
    RepeatedField,
    /// An id, or a number that isn't kept, can't be read.
    BadNumber,
    /// The flag is neither V nor D.
    BadFlag,
    /// A coordinate is not a decimal, or out of range.
    BadCoordinate,
    /// A percent sign begins no escape.
    BadEscape,
    /// A tag has no `=`.
    BadTag,
    /// A reference isn't n, an id, and maybe a location: x, a decimal or nothing, y, a decimal or nothing.
    BadReference,
    /// A member isn't a letter, an id, `@` and a role.
    BadMember,
}

/// What a report calls a fault of this kind.
pub fn fault_text(kind: FaultKind) -> &'static str
    ensures { result.now ≡ fault_text kind }
{
    match kind {
        FaultKind::NotUtf8 => "not utf-8",
        FaultKind::UnknownObject => "unknown object",
        FaultKind::UnknownField => "unknown field",
        FaultKind::RepeatedField => "repeated field",
        FaultKind::BadNumber => "bad number",
        FaultKind::BadFlag => "bad flag",
        FaultKind::BadCoordinate => "bad coordinate",
        FaultKind::BadEscape => "bad escape",
        FaultKind::BadTag => "bad tag",
        FaultKind::BadReference => "bad reference",
        FaultKind::BadMember => "bad member",
    }
}

/// The first fault of a line, and the byte of the line at which it is, from 0.
#[derive(Clone, Copy, Debug, PartialEq, Eq)]
pub struct LineFault {
    pub kind: FaultKind,
    /// A count of bytes from the line's first.
    pub place: u64,
}

/// Why a line gave no answer: it has no reading, or memory ran out.
#[derive(Debug, Drop)]
pub enum LineError {
    /// The line has no reading.
    Fault(LineFault),
    /// Memory ran out.
    OutOfMemory,
}

impl From<OutOfMemory> for LineError {
    ghost from_gives = { λ _ e. e ≡ OutOfMemory };

    fn from(_e: OutOfMemory) -> LineError {
        LineError::OutOfMemory
    }
}

impl<T: Drop> From<AllocFailed<T>> for LineError {
    ghost from_gives = { λ _ e. e ≡ OutOfMemory };

    fn from(_e: AllocFailed<T>) -> LineError {
        LineError::OutOfMemory
    }
}

/// The fault of this kind at this place.
pub fn fault(kind: FaultKind, place: u64) -> LineError
    ensures { result ≡ LineError.Fault (record { kind = kind; place = place }) }
{
    LineError::Fault(LineFault { kind, place })
}
