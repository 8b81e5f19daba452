//! Kinds of lines of a coastline report, and their words.

ghost use Rattle.std.specs.Prelude.{◌≡◌, ◌↔◌, IsSome};
ghost use Rattle.std.specs.Option.{option_copied};
ghost use Rattle.osm_tables.specs.Tables.{code_of};
ghost use Rattle.osm_tables.specs.Words.{coast_word_of};

use crate::{Row, look, tables_rise};

/// The code of a warning: the run ends with Warnings at least.
pub const WARNING: u16 = 1;

/// The code of an error: the run ends with Errors.
pub const ERROR: u16 = 2;

/// A way names a node that has no location.
pub const MISSING_NODE: u8 = 1;

/// A way has fewer than two different locations next to each other.
pub const SHORT: u8 = 2;

/// A chain is closed round Antarctica.
pub const ANTARCTICA: u8 = 3;

/// A gap between two chains is closed.
pub const GAP: u8 = 4;

/// A chain isn't closed.
pub const UNCLOSED: u8 = 5;

/// A ring is left out.
pub const LEFT_OUT: u8 = 6;

/// Two segments cross.
pub const CROSSING: u8 = 7;

/// Two segments overlap.
pub const OVERLAP: u8 = 8;

/// A segment occurs more than once.
pub const REPEATED: u8 = 9;

/// A ring runs the wrong way.
pub const WRONG_WAY: u8 = 10;

/// A piece has more points than it should have.
pub const LARGE: u8 = 11;

/// A ring of a piece is gone once its points are rounded.
pub const VANISHED: u8 = 12;

/// Locations are cut out of a ring.
pub const CUT: u8 = 13;

/// The kinds of lines of a coastline report, each a warning or an error.
pub const COAST_KINDS: [Row; 13] = [
    Row {
        key: MISSING_NODE,
        code: ERROR,
    },
    Row {
        key: SHORT,
        code: WARNING,
    },
    Row {
        key: ANTARCTICA,
        code: WARNING,
    },
    Row {
        key: GAP,
        code: WARNING,
    },
    Row {
        key: UNCLOSED,
        code: ERROR,
    },
    Row {
        key: LEFT_OUT,
        code: ERROR,
    },
    Row {
        key: CROSSING,
        code: ERROR,
    },
    Row {
        key: OVERLAP,
        code: ERROR,
    },
    Row {
        key: REPEATED,
        code: WARNING,
    },
    Row {
        key: WRONG_WAY,
        code: WARNING,
    },
    Row {
        key: LARGE,
        code: WARNING,
    },
    Row {
        key: VANISHED,
        code: WARNING,
    },
    Row {
        key: CUT,
        code: WARNING,
    },
];

/// Whether a kind of line is a warning or an error, as its code; None if there is no such kind.
pub fn coast_code(kind: u8) -> Option<u16>
    ensures { result ≡ code_of COAST_KINDS kind }
{
    tables_rise();
    look(&COAST_KINDS, kind)
}

/// The words of a kind of line; None if there is no such kind.
pub fn coast_word(kind: u8) -> Option<&'static str>
    ensures listed { IsSome result ↔ IsSome (code_of COAST_KINDS kind) }
    ensures word { option_copied result ≡ coast_word_of kind }
{
    match kind {
        MISSING_NODE => Some("missing node"),
        SHORT => Some("short"),
        ANTARCTICA => Some("antarctica closed on way"),
        GAP => Some("gap closed from"),
        UNCLOSED => Some("is not closed, from"),
        LEFT_OUT => Some("is left out"),
        CROSSING => Some("crossing"),
        OVERLAP => Some("overlap"),
        REPEATED => Some("stands"),
        WRONG_WAY => Some("runs the wrong way"),
        LARGE => Some("piece of"),
        VANISHED => Some("vanished"),
        CUT => Some("was cut from"),
        _ => None,
    }
}
