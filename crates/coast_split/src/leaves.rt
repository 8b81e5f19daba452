//! How areas are split into pieces, and where a list is cut.
ghost use Rattle.std.specs.Prelude.{◌≡◌, ◌≤◌, ◌-ℤ◌, List, length, pos, unsigned_abs};
ghost use Rattle.plane.specs.Sign.{is_plus, sign};
ghost use Rattle.osm_geom.specs.declared.edge.Edge.{Edge};
ghost use Rattle.coast_split.specs.declared.leaves.SplitError.TheVariants.{OutOfMemory};
ghost use Rattle.coast_split.specs.SplitTree.{high_cut, is_large, low_cut};

use osm_geom::{Cut, Edges};
use std::alloc::{AllocError, AllocFailed};

/// How areas are split.
#[derive(Clone, Copy, Debug, PartialEq, Eq)]
pub struct Settings {
    /// No list with more edges is left whole, if it can be cut; 0 for no such limit.
    pub most_points: u32,
    /// How far the halves reach beyond the middle, in units of 1e-7 degree.
    pub overlap: u32,
    /// More leaves are refused.
    pub most_leaves: u64,
    pub ghost overlap_in: { overlap ≤ 100_000_000 },
}

/// A list of edges that isn't cut further.
#[derive(Debug, Drop)]
pub struct Leaf {
    pub edges: Edges,
    /// Whether it has more edges than are wanted, and is too short to be cut.
    pub large: bool,
}

/// Why an area was not split.
#[derive(Clone, Copy, Debug, PartialEq, Eq)]
pub enum SplitError {
    /// It has more leaves than allowed.
    TooManyPieces {
        /// The most leaves that are allowed.
        most: u64,
    },
    /// Memory ran out.
    OutOfMemory,
}

impl From<AllocError> for SplitError {
    ghost from_gives = { λ _ e. e ≡ OutOfMemory };

    /// Running out of memory is an answer of its own.
    fn from(_error: AllocError) -> Self {
        SplitError::OutOfMemory
    }
}

impl<T: Drop> From<AllocFailed<T>> for SplitError {
    ghost from_gives = { λ _ e. e ≡ OutOfMemory };

    /// Running out of memory is an answer of its own; what was to be stored is dropped.
    fn from(_failed: AllocFailed<T>) -> Self {
        SplitError::OutOfMemory
    }
}

/// Whether one number of things is more than another.
fn is_more(a: u64, b: u64) -> bool
    ensures { result ≡ is_plus (sign (pos a -ℤ pos b)) }
{
    a > b
}

/// Whether a list of so many edges has more than are wanted.
pub(crate) fn has_many(edge_count: usize, settings: &Settings) -> bool
    ensures { (edges : List Edge) → edge_count ≡ length edges
        → result ≡ is_large settings.now.most_points edges }
{
    let most = u64::from(settings.most_points);
    !is_more(1, most) && is_more(edge_count as u64, most)
}

/// Where the low half ends.
pub(crate) fn low_cut(middle: Cut, overlap: u32) -> Cut
    requires middle { unsigned_abs middle.at ≤ 1_800_000_000 }
    requires overlap { overlap ≤ 100_000_000 }
    ensures { result ≡ low_cut middle overlap }
{
    Cut {
        axis: middle.axis,
        at: middle.at + overlap as i32,
    }
}

/// Where the high half begins.
pub(crate) fn high_cut(middle: Cut, overlap: u32) -> Cut
    requires middle { unsigned_abs middle.at ≤ 1_800_000_000 }
    requires overlap { overlap ≤ 100_000_000 }
    ensures { result ≡ high_cut middle overlap }
{
    Cut {
        axis: middle.axis,
        at: middle.at - overlap as i32,
    }
}
