//! Which whole heights an edge spans.
ghost use Rattle.std.specs.Prelude.{◌≡◌, ◌<ℤ◌, ◌≤ℤ◌, false, true};
ghost use Rattle.osm_geom.specs.Coordinate.{ceiling_of};
ghost use Rattle.osm_geom.specs.Point.{IsInWorld, y_of};
ghost use Rattle.osm_nest.specs.Heights.{AreHeights};

use crate::outer::{lower_end, upper_end};
use osm_geom::{Axis, Edge, Loc, Point, ceiling_at};

/// The whole numbers from `bottom` on that are less than `top`.
#[derive(Clone, Copy, PartialEq, Eq)]
pub(crate) struct Heights {
    pub bottom: i32,
    pub top: i32,
}

impl Heights {
    /// Whether they begin no higher than a location.
    pub fn begin_by(self, at: Loc) -> bool
        ensures yes { result ≡ true → self.bottom ≤ℤ at.y }
        ensures no { result ≡ false → at.y <ℤ self.bottom }
    {
        self.bottom <= at.y
    }

    /// Whether they end above a location.
    pub fn end_above(self, at: Loc) -> bool
        ensures yes { result ≡ true → at.y <ℤ self.top }
        ensures no { result ≡ false → self.top ≤ℤ at.y }
    {
        at.y < self.top
    }

    /// Whether they begin below others.
    pub fn begin_below(self, other: Heights) -> bool
        ensures { result ≡ true → self.bottom <ℤ other.bottom }
    {
        self.bottom < other.bottom
    }
}

/// The least whole number that is at least the y of a point.
#[tactic(auto, using(crate::proofs::WholeHeights::ceiling_whole))]
fn first_height(p: &Point) -> i32
    requires { IsInWorld p.now }
    ensures { result ≡ ceiling_of (y_of p.now) }
{
    match p {
        Point::Lattice(at) => at.y,
        _ => ceiling_at(p, Axis::Y) as i32,
    }
}

/// The whole heights that an edge spans.
pub(crate) fn heights_of(edge: &Edge) -> Heights
    ensures { AreHeights result.bottom result.top edge.now }
{
    Heights {
        bottom: first_height(lower_end(edge)),
        top: first_height(upper_end(edge)),
    }
}
