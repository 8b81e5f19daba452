//! The segments of kept rings.

use osm_geom::Segs;

/// The segments of kept rings, each as often as it occurs, and an order by upper ends in which they stand, where one is known.
#[derive(Debug, Drop)]
pub struct KeptSegments {
    pub segs: Segs,
    pub by_ends: Option<EndOrder>,
}

/// The segments of kept rings and others, each once, in the order of their upper ends; and these others, each as often as it
/// occurs.
#[derive(Debug, Drop)]
pub struct EndOrder {
    pub segs: Segs,
    pub others: Segs,
}
