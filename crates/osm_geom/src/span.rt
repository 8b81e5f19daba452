//! The heights that an edge spans.
ghost use Rattle.std.specs.Prelude.{◌≡◌, not};
ghost use Rattle.plane.specs.Sign.{is_minus};
ghost use Rattle.osm_geom.specs.Span.{height_order, spans};

use crate::edge::Edge;
use crate::point::Point;
use crate::point_order::compare_heights;
use std::cmp::Ordering;

/// Whether q is at least as high as p.
fn is_at_most_as_high(p: &Point, q: &Point) -> bool
    ensures { result ≡ not (is_minus (height_order p.now q.now)) }
{
    match compare_heights(p, q) {
        Ordering::Greater => false,
        _ => true,
    }
}

/// Whether an edge spans the height of a point: its lower end is at most as high, and its upper end is higher.
///
/// A horizontal edge spans no height.
pub fn spans_height(e: &Edge, at: &Point) -> bool
    ensures { result ≡ spans e.now at.now }
{
    // One end is at most as high and the other isn't, whichever is the lower one.
    is_at_most_as_high(&e.from, at) != is_at_most_as_high(&e.to, at)
}
