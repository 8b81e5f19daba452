//! The range of x in which an edge lies.
ghost use Rattle.std.specs.Prelude.{◌≡◌, ◌<ℤ◌, ◌≤ℤ◌, true};
ghost use Rattle.osm_geom.specs.Coordinate.{AtLeast, AtMost};
ghost use Rattle.osm_geom.specs.Point.{x_of};
ghost use Rattle.osm_nest.specs.Reach.{IsReach};

use osm_geom::{Edge, Point};

/// A least and a greatest x.
#[derive(Clone, Copy, PartialEq, Eq)]
pub(crate) struct Reach {
    pub west: i32,
    pub east: i32,
}

impl Reach {
    /// Whether all of it lies west of another one.
    pub fn is_west_of(self, other: Reach) -> bool
        ensures { result ≡ true → self.east <ℤ other.west }
    {
        self.east < other.west
    }
}

/// A whole number that is at most the x of a point.
fn west_of(p: &Point) -> i32
    ensures { AtLeast result (x_of p.now) }
{
    match *p {
        Point::Lattice(at) => at.x,
        Point::OnVertical { c, .. } => c,
        Point::OnHorizontal { x, .. } => x.floor,
    }
}

/// A whole number that is at least the x of a point.
fn east_of(p: &Point) -> i32
    ensures { AtMost (x_of p.now) result }
{
    match *p {
        Point::Lattice(at) => at.x,
        Point::OnVertical { c, .. } => c,
        Point::OnHorizontal { x, .. } => x.floor.saturating_add(1),
    }
}

/// The lesser of two numbers.
fn lesser(a: i32, b: i32) -> i32
    ensures first { result ≤ℤ a }
    ensures second { result ≤ℤ b }
{
    a.min(b)
}

/// The greater of two numbers.
fn greater(a: i32, b: i32) -> i32
    ensures first { a ≤ℤ result }
    ensures second { b ≤ℤ result }
{
    a.max(b)
}

/// The range of x in which an edge lies: the x of its ends, or whole numbers next to them.
pub(crate) fn reach_of(edge: &Edge) -> Reach
    ensures { IsReach result.west result.east edge.now }
{
    Reach {
        west: lesser(west_of(&edge.from), west_of(&edge.to)),
        east: greater(east_of(&edge.from), east_of(&edge.to)),
    }
}
