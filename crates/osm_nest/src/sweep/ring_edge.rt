//! An edge of a ring, with what a sweep mostly needs of it.
ghost use Rattle.std.specs.Prelude.{◌≡◌};
ghost use Rattle.osm_geom.specs.Span.{spans};
ghost use Rattle.osm_nest.specs.Heights.{AreHeights};
ghost use Rattle.osm_nest.specs.Reach.{IsReach};

use crate::sweep::heights::{Heights, heights_of};
use crate::sweep::reach::{Reach, reach_of};
use osm_geom::{Edge, Point, spans_height};

/// An edge of a ring, the place of the ring, the range of x in which the edge lies, and which whole heights it spans.
// These are kept beside the reference, so that a sweep mostly doesn't read the edge.
#[derive(Clone, Copy)]
pub(crate) struct RingEdge<'a> {
    pub edge: &'a Edge,
    pub ring: usize,
    pub reach: Reach,
    pub heights: Heights,
    pub ghost reaches: { IsReach reach.west reach.east edge.now },
    pub ghost spanned: { AreHeights heights.bottom heights.top edge.now },
}

impl<'a> RingEdge<'a> {
    /// The edge of the ring at a place.
    pub fn of(edge: &'a Edge, ring: usize) -> RingEdge<'a>
        ensures edge { result.edge.now ≡ edge.now }
        ensures ring { result.ring ≡ ring }
    {
        RingEdge {
            edge,
            ring,
            reach: reach_of(edge),
            heights: heights_of(edge),
        }
    }

    /// Whether it spans the height of a point.
    pub fn spans(&self, at: &Point) -> bool
        ensures { result ≡ spans self.now.edge.now at.now }
    {
        match at {
            Point::Lattice(p) => self.heights.begin_by(*p) && self.heights.end_above(*p),
            _ => spans_height(self.edge, at),
        }
    }
}
