//! The problems that keep a candidate from having an area, and notes.

use osm_lattice::{Kind, Loc, Seg};

/// A problem that keeps a candidate from having an area.
///
/// The segments that are left are those that occur an odd number of times in the candidate's ways together.
#[derive(Clone, Copy, Debug, PartialEq, Eq)]
pub enum Problem {
    /// A member way that isn't held.
    MissingWay { id: i64 },
    /// A node of a member way's reference without a location.
    ///
    /// The reference has no location of its own, and no node with one is held.
    MissingNode { id: i64 },
    /// No segment is left.
    Nothing,
    /// Two segments that are left share a point that isn't an end of both; `first` is the lesser.
    Conflict { kind: Kind, first: Seg, second: Seg },
    /// A location that is the end of an odd number of the segments that are left.
    Odd { at: Loc },
}

/// Something about a candidate that is worth a look, whether or not it has an area.
#[derive(Clone, Copy, Debug, PartialEq, Eq)]
pub enum Note {
    /// A relation names this way more than once.
    NamedTwice { way: i64 },
    /// The candidate's ways together have this segment `times` times, at least twice.
    Repeated { seg: Seg, times: u64 },
    /// A way with the role `inner` has a segment in an outer ring.
    InnerInOuter { way: i64 },
    /// A way with the role `outer` has a segment in an inner ring.
    OuterInInner { way: i64 },
}
