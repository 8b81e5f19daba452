//! What is told of land.

use lists::List;
use osm_geom::{Edges, Ids};
use osm_segments::Repeat;

/// Segments that stand at least twice, in order.
pub type Repeats = List<Repeat>;

/// Land: its edges, with land on their left, and what is noted of the rings.
///
/// The repeats are the segments that occur at least twice among those of the rings, of which pairs cancel. The wrong ways
/// are the names of the rings that run against an edge, in order.
#[derive(Debug, Drop)]
pub struct Land {
    pub edges: Edges,
    pub repeats: Repeats,
    pub wrong_way: Ids,
}
