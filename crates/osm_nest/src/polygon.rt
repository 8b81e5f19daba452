//! Polygons, and lists of them.

use lists::List;
use osm_rings::{Ring, Rings};

/// An outer ring, and the inner rings that it directly encloses.
///
/// Of all outer rings that have an inner one inside, the one with no other between directly encloses it. As `nest` makes
/// them, the outer ring runs counterclockwise and the inner ones clockwise, as in polygons of RFC 7946, and each begins at
/// its least node.
///
/// The rings may touch each other at nodes; they don't cross, and have no edge in common. A ring inside an inner one is the
/// outer ring of another polygon. The polygon covers the points from which a ray to the east crosses an odd number of its
/// edges.
#[derive(Drop)]
pub struct Polygon {
    pub outer: Ring,
    pub inners: Rings,
}

/// A list of polygons: the MultiPolygon of RFC 7946.
///
/// As `nest` makes it, each given ring is in exactly one polygon, once, and no two polygons cover the same point. The
/// polygons are in order of the least nodes of their outer rings, and then of the next nodes; so are the inner rings of
/// each.
pub type Polygons = List<Polygon>;
