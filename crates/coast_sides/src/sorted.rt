//! What has become of rings that were sorted out.

use crate::cut::Cuts;
use coast_rings::CoastRings;
use lists::List;
use osm_segments::Pair;

/// Conflicting pairs of segments, in order.
pub type Pairs = List<Pair>;

/// Rings sorted out: those that are kept and those that are left out, both in order; the conflicts of the distinct
/// segments of all of them, before any cut; and what was cut out of them.
#[derive(Debug, Drop)]
pub struct Sorted {
    pub kept: CoastRings,
    pub left_out: CoastRings,
    pub pairs: Pairs,
    pub cuts: Cuts,
}
