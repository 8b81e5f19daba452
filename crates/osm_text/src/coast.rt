//! What a coastline report tells.

use osm_geom::{Kind, Loc, Seg};

/// One line of a coastline report.
///
/// A chain is named by its first way, a ring by the least id of its ways.
#[derive(Clone, Copy, Debug, PartialEq, Eq)]
pub enum CoastLine {
    /// A coast way names a node that has no location, so it takes no part: an error.
    Missing {
        way: i64,
        node: i64,
    },
    /// A coast way has fewer than two locations once equal neighbours are taken once, so it takes no part: a warning.
    Short {
        way: i64,
    },
    /// A chain is closed round Antarctica: a warning.
    Antarctica {
        chain: i64,
    },
    /// A gap is closed, from the end of one chain to the start of another or its own: a warning.
    Gap {
        end_at: Loc,
        start_at: Loc,
    },
    /// A chain is no ring, and its ends are these: an error.
    Unclosed {
        chain: i64,
        start_at: Loc,
        end_at: Loc,
    },
    /// A run of locations was cut out of a ring, those between these two: a warning.
    Cut {
        ring: i64,
        from: Loc,
        to: Loc,
    },
    /// A ring is left out, since one of its segments conflicts with one of some ring: an error.
    LeftOut {
        ring: i64,
    },
    /// Two segments of rings share a point that isn't an end of both; `first` is the lesser: an error.
    Conflict {
        kind: Kind,
        first: Seg,
        second: Seg,
    },
    /// The rings that are kept together have this segment `times` times, at least twice: a warning.
    Repeated {
        seg: Seg,
        times: u64,
    },
    /// A ring that is kept passes an edge of the land against that edge's direction: a warning.
    WrongWay {
        ring: i64,
    },
    /// A piece is left with so many points, more than asked for, since it is too small to be cut again: a warning.
    Large {
        points: u64,
    },
    /// A ring of a piece isn't printed, since fewer than three points are left of it once they are rounded; its least
    /// node, rounded, is here: a warning.
    Vanished {
        at: Loc,
    },
}
