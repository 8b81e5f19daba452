//! The fixed tables of osmpoly: field letters of OPL lines, and kinds of report lines.
#![tactic(auto)]

ghost use Rattle.std.specs.Prelude.{◌≡◌, ◌≢◌, ◌↔◌, All, MatchOption, IsSome};
ghost use Rattle.std.specs.Option.{option_copied};
ghost use Rattle.osm_tables.specs.Tables.{HasRisingKeys, HasRow, code_of, coast_kinds, node_fields, way_fields, relation_fields, problem_kinds};
ghost use Rattle.osm_tables.specs.Words.{word_of};

pub mod coast;

use crate::coast::COAST_KINDS;

/// A key and its code.
#[derive(Clone, Copy, Debug, PartialEq, Eq)]
pub struct Row {
    pub key: u8,
    pub code: u16,
}

/// The code of the row with this key; None if no row has it. The tables are short, so the rows are searched one by one.
pub fn look<const N: usize>(rows: &[Row; N], key: u8) -> Option<u16>
    requires { HasRisingKeys rows.now }
    ensures row { MatchOption result (All (λ r. r.key ≢ key) rows.now)
        (λ code. HasRow rows.now key code) }
    ensures value { result ≡ code_of rows.now key }
{
    for row in rows {
        if row.key == key {
            return Some(row.code);
        }
    }
    None
}

/// The letters of a node's fields. Code 0 is no field: an upper case `D`, a common slip, is refused like any other letter.
pub const NODE_FIELDS: [Row; 10] = [
    Row { key: b'D', code: 0 },
    Row { key: b'T', code: 1 },
    Row { key: b'c', code: 2 },
    Row { key: b'd', code: 3 },
    Row { key: b'i', code: 4 },
    Row { key: b't', code: 5 },
    Row { key: b'u', code: 6 },
    Row { key: b'v', code: 7 },
    Row { key: b'x', code: 8 },
    Row { key: b'y', code: 9 },
];

/// The letters of a way's fields.
pub const WAY_FIELDS: [Row; 8] = [
    Row {
        key: b'N',
        code: 10,
    },
    Row { key: b'T', code: 1 },
    Row { key: b'c', code: 2 },
    Row { key: b'd', code: 3 },
    Row { key: b'i', code: 4 },
    Row { key: b't', code: 5 },
    Row { key: b'u', code: 6 },
    Row { key: b'v', code: 7 },
];

/// The letters of a relation's fields.
pub const RELATION_FIELDS: [Row; 8] = [
    Row {
        key: b'M',
        code: 11,
    },
    Row { key: b'T', code: 1 },
    Row { key: b'c', code: 2 },
    Row { key: b'd', code: 3 },
    Row { key: b'i', code: 4 },
    Row { key: b't', code: 5 },
    Row { key: b'u', code: 6 },
    Row { key: b'v', code: 7 },
];

/// The code of a problem: it keeps a candidate from becoming an area.
pub const PROBLEM: u16 = 1;

/// The code of a note: it is reported, but the area is made.
pub const NOTE: u16 = 2;

// ---- kinds of report lines

/// A way that the candidate names is missing.
pub const MISSING_WAY: u8 = 1;

/// A node that one of its ways names is missing.
pub const MISSING_NODE: u8 = 2;

/// No segment survives.
pub const NOTHING_SURVIVES: u8 = 3;

/// Two segments cross.
pub const CROSSING: u8 = 4;

/// Two segments overlap.
pub const OVERLAP: u8 = 5;

/// An odd number of segments end at a node.
pub const ODD_NODE: u8 = 6;

/// A way is named twice.
pub const NAMED_TWICE: u8 = 7;

/// A segment occurs more than once.
pub const REPEATED: u8 = 8;

/// A way with role inner lies in an outer ring.
pub const INNER_IN_OUTER: u8 = 9;

/// A way with role outer lies in an inner ring.
pub const OUTER_IN_INNER: u8 = 10;

/// The kinds of report lines of an export, each a problem or a note.
pub const PROBLEM_KINDS: [Row; 10] = [
    Row {
        key: MISSING_WAY,
        code: PROBLEM,
    },
    Row {
        key: MISSING_NODE,
        code: PROBLEM,
    },
    Row {
        key: NOTHING_SURVIVES,
        code: PROBLEM,
    },
    Row {
        key: CROSSING,
        code: PROBLEM,
    },
    Row {
        key: OVERLAP,
        code: PROBLEM,
    },
    Row {
        key: ODD_NODE,
        code: PROBLEM,
    },
    Row {
        key: NAMED_TWICE,
        code: NOTE,
    },
    Row {
        key: REPEATED,
        code: NOTE,
    },
    Row {
        key: INNER_IN_OUTER,
        code: NOTE,
    },
    Row {
        key: OUTER_IN_INNER,
        code: NOTE,
    },
];

/// The code of a field's letter in a node; None if no row has it.
pub fn node_field(letter: u8) -> Option<u16>
    ensures { result ≡ code_of NODE_FIELDS letter }
{
    look(&NODE_FIELDS, letter)
}

/// The code of a field's letter in a way; None if no row has it.
pub fn way_field(letter: u8) -> Option<u16>
    ensures { result ≡ code_of WAY_FIELDS letter }
{
    look(&WAY_FIELDS, letter)
}

/// The code of a field's letter in a relation; None if no row has it.
pub fn relation_field(letter: u8) -> Option<u16>
    ensures { result ≡ code_of RELATION_FIELDS letter }
{
    look(&RELATION_FIELDS, letter)
}

/// Whether a kind of report line is a problem or a note, as its code; None if there is no such kind.
pub fn problem_code(kind: u8) -> Option<u16>
    ensures { result ≡ code_of PROBLEM_KINDS kind }
{
    look(&PROBLEM_KINDS, kind)
}

/// The words of a kind of report line, which follow the object's name; None if there is no such kind.
pub fn problem_word(kind: u8) -> Option<&'static str>
    ensures listed { IsSome result ↔ IsSome (code_of PROBLEM_KINDS kind) }
    ensures word { option_copied result ≡ word_of kind }
{
    match kind {
        MISSING_WAY => Some("missing way"),
        MISSING_NODE => Some("missing node"),
        NOTHING_SURVIVES => Some("nothing survives"),
        CROSSING => Some("crossing"),
        OVERLAP => Some("overlap"),
        ODD_NODE => Some("odd node"),
        NAMED_TWICE => Some("named twice"),
        REPEATED => Some("stands"),
        INNER_IN_OUTER => Some("has role inner in an outer ring"),
        OUTER_IN_INNER => Some("has role outer in an inner ring"),
        _ => None,
    }
}

/// The contents of the tables.
pub fn tables_are()
    ensures node { NODE_FIELDS ≡ node_fields }
    ensures way { WAY_FIELDS ≡ way_fields }
    ensures relation { RELATION_FIELDS ≡ relation_fields }
    ensures problem { PROBLEM_KINDS ≡ problem_kinds }
    ensures coast { COAST_KINDS ≡ coast_kinds }
{}

/// The keys of each table rise strictly, as `look` requires.
pub fn tables_rise()
    ensures node { HasRisingKeys NODE_FIELDS }
    ensures way { HasRisingKeys WAY_FIELDS }
    ensures relation { HasRisingKeys RELATION_FIELDS }
    ensures problem { HasRisingKeys PROBLEM_KINDS }
    ensures coast { HasRisingKeys COAST_KINDS }
{}
