//! Cut lines: lines of whole coordinate, along which areas are cut into halves.

ghost use Rattle.std.specs.Prelude.{◌≡◌, ◌≢◌, ◌≤◌, ◌-◌, ◌*◌, true, pos, unsigned_abs, ◌-ℤ◌, ◌+ℤ◌, ◌*ℤ◌};
ghost use Rattle.plane.specs.Sign.{Null, sign};
ghost use Rattle.osm_lattice.specs.Bounds.{IsLatitude, IsLongitude};
ghost use Rattle.osm_geom.specs.Carrier.{is_on};
ghost use Rattle.osm_geom.specs.Cut.{IsOnlyMeeting, cut_order, fraction};
ghost use Rattle.osm_lattice.specs.OrderLaws.{ordering_of};
ghost use Rattle.osm_geom.specs.Point.{x_of, y_of, whole};
ghost use Rattle.osm_geom.specs.declared.edge.Carrier.TheVariants.{OfSeg};
ghost use Rattle.osm_geom.specs.declared.point.Point.TheVariants.{Lattice};

use crate::coordinate::{Coordinate, coordinate_at};
use crate::point::{Part, Point};
use crate::ratio::Ratio;
use osm_lattice::{Frac, Loc, Seg, Share, between};
use std::cmp::Ordering;

/// The axis whose coordinate is whole on a cut line.
#[derive(Clone, Copy, Debug, PartialEq, Eq)]
pub enum Axis {
    X,
    Y,
}

/// A side of a cut line.
#[derive(Clone, Copy, Debug, PartialEq, Eq)]
pub enum Side {
    /// The points whose coordinate is less than the line's.
    Low,
    /// The points whose coordinate is greater.
    High,
}

/// A cut line: the points whose coordinate on the axis is `at`.
#[derive(Clone, Copy, Debug, PartialEq, Eq)]
pub struct Cut {
    pub axis: Axis,
    pub at: i32,
}

/// Where a point lies relative to a cut line: `Less` if its coordinate is less than the line's.
pub fn compare_to_cut(p: &Point, cut: Cut) -> Ordering
    ensures { result ≡ ordering_of (cut_order cut p.now) }
{
    match coordinate_at(p, cut.axis) {
        Coordinate::Whole(n) => n.cmp(&cut.at),
        Coordinate::OfPart(x) => Ratio::of_part(x).compare(Ratio::of_whole(cut.at)),
    }
}

/// How far apart two coordinates are.
fn distance(a: i32, b: i32) -> u64
    ensures { result ≡ unsigned_abs (b -ℤ a) }
{
    (i64::from(b) - i64::from(a)).unsigned_abs()
}

/// How far along the way from `start` to `end` the number `at` is. It isn't beyond them.
fn share_between(start: i32, end: i32, at: i32) -> Share
    requires { sign (at -ℤ start) ≢ sign (at -ℤ end) }
    ensures above { result.above ≡ unsigned_abs (at -ℤ start) }
    ensures den { result.den ≡ unsigned_abs (end -ℤ start) }
{
    Share {
        above: distance(start, at),
        den: distance(start, end),
    }
}

/// The number at this share of the way from `start` to `end`.
fn number_at(start: i32, end: i32, at: Share) -> Frac
    requires start_in { unsigned_abs start ≤ 1_800_000_000 }
    requires end_in { unsigned_abs end ≤ 1_800_000_000 }
    ensures value { result.num *ℤ pos at.den ≡ (start *ℤ pos (at.den - at.above)
        +ℤ end *ℤ pos at.above) *ℤ pos result.den }
    ensures den_at_most { result.den ≤ at.den }
{
    Frac::new(between(start, end, at), at.den)
}

/// The point with these coordinates, the first of which is whole.
fn point_beside(c: i32, y: Frac) -> Point
    requires c_in { IsLongitude c }
    requires num_in { unsigned_abs y.num ≤ 900_000_000 * y.den }
    requires den_in { y.den ≤ 3_600_000_000 }
    ensures x { x_of result ≡ whole c }
    ensures y { y_of result ≡ fraction y }
{
    if y.den == 1 {
        return Point::Lattice(Loc {
            x: c,
            y: y.num as i32,
        });
    }
    Point::OnVertical { c, y: Part::of(y) }
}

/// The point with these coordinates, the second of which is whole.
fn point_above(x: Frac, d: i32) -> Point
    requires num_in { unsigned_abs x.num ≤ 1_800_000_000 * x.den }
    requires den_in { x.den ≤ 3_600_000_000 }
    requires d_in { IsLatitude d }
    ensures x { x_of result ≡ fraction x }
    ensures y { y_of result ≡ whole d }
{
    if x.den == 1 {
        return Point::Lattice(Loc {
            x: x.num as i32,
            y: d,
        });
    }
    Point::OnHorizontal { x: Part::of(x), d }
}

/// The point of a segment with the x `c`.
fn point_with_x(s: Seg, c: i32) -> Point
    requires { sign (c -ℤ s.a.x) ≢ sign (c -ℤ s.b.x) }
    ensures on { is_on (OfSeg s) result ≡ true }
    ensures x { x_of result ≡ whole c }
{
    point_beside(c, number_at(s.a.y, s.b.y, share_between(s.a.x, s.b.x, c)))
}

/// The point of a segment with the y `d`.
fn point_with_y(s: Seg, d: i32) -> Point
    requires { sign (d -ℤ s.a.y) ≢ sign (d -ℤ s.b.y) }
    ensures on { is_on (OfSeg s) result ≡ true }
    ensures y { y_of result ≡ whole d }
{
    point_above(number_at(s.a.x, s.b.x, share_between(s.a.y, s.b.y, d)), d)
}

/// The one point at which a segment meets a cut line that it isn't parallel to.
///
/// It is in lowest terms, and whole if it is a location.
pub fn cut_point(s: Seg, cut: Cut) -> Point
    requires { cut_order cut (Lattice s.a) ≢ cut_order cut (Lattice s.b) }
    ensures on_segment { is_on (OfSeg s) result ≡ true }
    ensures on_line { cut_order cut result ≡ Null }
    ensures alone { IsOnlyMeeting s cut result }
{
    match cut.axis {
        Axis::X => point_with_x(s, cut.at),
        Axis::Y => point_with_y(s, cut.at),
    }
}
