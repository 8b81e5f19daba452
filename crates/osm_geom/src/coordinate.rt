//! Coordinates of exact points, and the whole numbers next to them.
ghost use Rattle.std.specs.Prelude.{◌≡◌};
ghost use Rattle.osm_geom.specs.Coordinate.{ceiling_of, floor_of, value_of};
ghost use Rattle.osm_geom.specs.Cut.{coordinate_of};
ghost use Rattle.osm_geom.specs.Point.{fraction_in};

use crate::cut::Axis;
use crate::point::{Part, Point};

/// A coordinate of a point.
#[derive(Clone, Copy, Debug, PartialEq, Eq)]
pub enum Coordinate {
    Whole(i32),
    OfPart(Part),
}

/// The coordinate of a point on an axis.
pub(crate) fn coordinate_at(p: &Point, axis: Axis) -> Coordinate
    ensures { value_of result ≡ coordinate_of axis p.now }
{
    match (axis, p) {
        (Axis::X, Point::Lattice(at)) => Coordinate::Whole(at.x),
        (Axis::X, Point::OnVertical { c, .. }) => Coordinate::Whole(*c),
        (Axis::X, Point::OnHorizontal { x, .. }) => Coordinate::OfPart(*x),
        (Axis::Y, Point::Lattice(at)) => Coordinate::Whole(at.y),
        (Axis::Y, Point::OnVertical { y, .. }) => Coordinate::OfPart(*y),
        (Axis::Y, Point::OnHorizontal { d, .. }) => Coordinate::Whole(*d),
    }
}

/// The greatest whole number below a coordinate that isn't whole.
fn floor_of_part(p: Part) -> i64
    ensures { result ≡ floor_of (fraction_in p) }
{
    i64::from(p.floor)
}

/// The least whole number above it.
fn ceiling_of_part(p: Part) -> i64
    ensures { result ≡ ceiling_of (fraction_in p) }
{
    i64::from(p.floor) + 1
}

/// The greatest whole number that is at most a point's coordinate.
pub fn floor_at(p: &Point, axis: Axis) -> i64
    ensures { result ≡ floor_of (coordinate_of axis p.now) }
{
    match coordinate_at(p, axis) {
        Coordinate::Whole(n) => i64::from(n),
        Coordinate::OfPart(x) => floor_of_part(x),
    }
}

/// The least whole number that is at least a point's coordinate.
pub fn ceiling_at(p: &Point, axis: Axis) -> i64
    ensures { result ≡ ceiling_of (coordinate_of axis p.now) }
{
    match coordinate_at(p, axis) {
        Coordinate::Whole(n) => i64::from(n),
        Coordinate::OfPart(x) => ceiling_of_part(x),
    }
}
