//! The orders of points.
ghost use Rattle.std.specs.Prelude.{◌≡◌};
ghost use Rattle.osm_geom.specs.Point.{x_of, y_of, point_cmp};
ghost use Rattle.osm_lattice.specs.OrderLaws.{ordering_of};
ghost use Rattle.osm_geom.specs.Span.{height_order};
ghost use Rattle.osm_geom.specs.RatioOrder.{fraction_of, by_fractions};

use crate::point::Point;
use crate::ratio::Ratio;
use std::cmp::Ordering;

pub(crate) fn x_ratio(p: Point) -> Ratio
    ensures { fraction_of result ≡ x_of p }
{
    match p {
        Point::Lattice(q) => Ratio::of_whole(q.x),
        Point::OnVertical { c, .. } => Ratio::of_whole(c),
        Point::OnHorizontal { x, .. } => Ratio::of_part(x),
    }
}

pub(crate) fn y_ratio(p: Point) -> Ratio
    ensures { fraction_of result ≡ y_of p }
{
    match p {
        Point::Lattice(q) => Ratio::of_whole(q.y),
        Point::OnVertical { y, .. } => Ratio::of_part(y),
        Point::OnHorizontal { d, .. } => Ratio::of_whole(d),
    }
}

// Nearly all points are whole: the comparison of the others is kept out of the callers.
#[cold]
#[inline(never)]
fn compare_by_fractions(p: Point, q: Point) -> Ordering
    ensures { result ≡ by_fractions p q }
{
    y_ratio(p)
        .compare(y_ratio(q))
        .then(x_ratio(p).compare(x_ratio(q)))
}

/// The order of two points by y, if one of them may not be whole.
#[cold]
#[inline(never)]
fn compare_heights_by_fractions(p: &Point, q: &Point) -> Ordering
    ensures { result ≡ ordering_of (height_order p.now q.now) }
{
    y_ratio(*p).compare(y_ratio(*q))
}

/// The order of two points by y alone.
#[inline]
pub fn compare_heights(p: &Point, q: &Point) -> Ordering
    ensures { result ≡ ordering_of (height_order p.now q.now) }
{
    match (p, q) {
        (Point::Lattice(p), Point::Lattice(q)) => p.y.cmp(&q.y),
        _ => compare_heights_by_fractions(p, q),
    }
}

/// The order of two points: by y, then by x.
///
/// `point_order_is_total` says that it is total, and `Equal` only for equal points.
#[inline]
pub fn compare_points(p: Point, q: Point) -> Ordering
    ensures { result ≡ point_cmp p q }
{
    match (p, q) {
        (Point::Lattice(p), Point::Lattice(q)) => p.cmp(&q),
        _ => compare_by_fractions(p, q),
    }
}

/// As `compare_points`, for points that aren't copied: of whole ones it reads only the coordinates.
#[inline]
pub fn order_points(p: &Point, q: &Point) -> Ordering
    ensures { result ≡ point_cmp p.now q.now }
{
    match (p, q) {
        (Point::Lattice(p), Point::Lattice(q)) => p.cmp(q),
        _ => compare_points(*p, *q),
    }
}
