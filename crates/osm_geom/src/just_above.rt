//! The order of edges just above a height.
ghost use Rattle.std.specs.Prelude.{◌≡◌, true, ◌-ℤ◌};
ghost use Rattle.plane.specs.Vector.{from_to};
ghost use Rattle.osm_lattice.specs.Bounds.{IsLongitude, IsLatitude};
ghost use Rattle.osm_geom.specs.Span.{spans};
ghost use Rattle.osm_geom.specs.JustAbove.{piece_of, just_above_cmp};
ghost use Rattle.osm_geom.specs.LineOrder.{start_of, step_of};
ghost use Rattle.osm_geom.specs.Point.{y_of};
ghost use Rattle.osm_geom.specs.declared.edge.Carrier.TheVariants.{OfSeg, Vertical, Horizontal};

use crate::edge::{Carrier, Edge};
use crate::level::{Level, Line};
use crate::point::Point;
use osm_lattice::{Seg, step_x, step_y};
use std::cmp::Ordering;

/// The line of a segment.
fn segment_line(s: Seg) -> Line
    ensures start { start_of result ≡ (piece_of (OfSeg s)).from }
    ensures step { step_of result ≡ from_to (piece_of (OfSeg s)).from (piece_of (OfSeg s)).to }
{
    Line {
        x: i128::from(s.a.x),
        y: i128::from(s.a.y),
        run: i128::from(step_x(s.a, s.b)),
        rise: i128::from(step_y(s.a, s.b)),
    }
}

fn vertical_line(c: i32) -> Line
    requires { IsLongitude c }
    ensures start { start_of result ≡ (piece_of (Vertical c)).from }
    ensures step { step_of result ≡ from_to (piece_of (Vertical c)).from
        (piece_of (Vertical c)).to }
{
    Line {
        x: i128::from(c),
        y: 0,
        run: 0,
        rise: 1,
    }
}

fn horizontal_line(d: i32) -> Line
    requires { IsLatitude d }
    ensures start { start_of result ≡ (piece_of (Horizontal d)).from }
    ensures step { step_of result ≡ from_to (piece_of (Horizontal d)).from
        (piece_of (Horizontal d)).to }
{
    Line {
        x: 0,
        y: i128::from(d),
        run: 1,
        rise: 0,
    }
}

/// The line of an edge's carrier.
#[tactic(auto, using(crate::proofs::EdgeBounds::carrier_bounds))]
fn line_of(e: &Edge) -> Line
    ensures start { start_of result ≡ (piece_of e.now.carrier).from }
    ensures step { step_of result ≡ from_to (piece_of e.now.carrier).from
        (piece_of e.now.carrier).to }
{
    match e.carrier {
        Carrier::OfSeg(s) => segment_line(s),
        Carrier::Vertical(c) => vertical_line(c),
        Carrier::Horizontal(d) => horizontal_line(d),
    }
}

/// The height of a point that an edge spans.
#[tactic(auto, using(crate::proofs::EdgeBounds::spanned_level))]
fn level_of(at: &Point, e: &Edge) -> Level
    requires { spans e.now at.now ≡ true }
    ensures num { result.num ≡ (y_of at.now).num }
    ensures den { result.den ≡ (y_of at.now).den }
{
    match *at {
        Point::Lattice(p) => Level {
            num: i128::from(p.y),
            den: 1,
        },
        Point::OnVertical { y, .. } => {
            let frac = y.frac();
            Level {
                num: frac.num,
                den: frac.den,
            }
        }
        Point::OnHorizontal { d, .. } => Level {
            num: i128::from(d),
            den: 1,
        },
    }
}

/// The order of two edges from left to right just above the height of a point that both span.
///
/// They are ordered by where they are at that height, then by their slopes. `order_above_is_total` says that the order is
/// total, and `Equal` only for edges on one line.
pub fn compare_just_above(e: &Edge, f: &Edge, at: &Point) -> Ordering
    requires first { spans e.now at.now ≡ true }
    requires second { spans f.now at.now ≡ true }
    ensures { result ≡ just_above_cmp e.now f.now at.now }
{
    level_of(at, e).compare(line_of(e), line_of(f))
}
