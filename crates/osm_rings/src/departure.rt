//! An edge as it leaves its point.
ghost use Rattle.std.specs.Prelude.{◌≡◌};
ghost use Rattle.std.specs.Ordering.{is_lt};
ghost use Rattle.osm_geom.specs.Point.{IsInWorld, point_cmp};
ghost use Rattle.osm_rings.specs.Ranks.{point_rank};

use crate::ranks::{is_before, rank};
use osm_geom::{Edge, Point};

/// An edge, its place in the list, and the rank of the point that it leaves.
#[derive(Clone, Copy, Debug)]
pub struct Departure<'a> {
    pub edge: &'a Edge,
    pub place: usize,
    pub key: i64,
    pub ghost ranked: { key ≡ point_rank edge.now.from },
}

impl<'a> Departure<'a> {
    /// The departure of the edge at a place.
    pub fn of(edge: &'a Edge, place: usize) -> Departure<'a>
        ensures edge { result.edge.now ≡ edge.now }
        ensures place { result.place ≡ place }
    {
        Departure {
            edge,
            place,
            key: rank(&edge.from),
        }
    }

    /// Whether it leaves an earlier point than another departure.
    pub(crate) fn leaves_before(&self, other: &Departure) -> bool
        ensures { result
            ≡ is_lt (point_cmp self.now.edge.now.from other.now.edge.now.from) }
    {
        is_before(&self.edge.from, self.key, &other.edge.from, other.key)
    }

    /// Whether it leaves a point that comes before one of a rank.
    pub(crate) fn begins_before(&self, p: &Point, rank: i64) -> bool
        requires { (rank ≡ point_rank p.now) × IsInWorld p.now }
        ensures { result ≡ is_lt (point_cmp self.now.edge.now.from p.now) }
    {
        is_before(&self.edge.from, self.key, p, rank)
    }

    /// Whether it leaves a point that comes after one of a rank.
    pub(crate) fn begins_after(&self, p: &Point, rank: i64) -> bool
        requires { (rank ≡ point_rank p.now) × IsInWorld p.now }
        ensures { result ≡ is_lt (point_cmp p.now self.now.edge.now.from) }
    {
        is_before(p, rank, &self.edge.from, self.key)
    }
}
