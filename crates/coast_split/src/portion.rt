//! The portion of an edge on one side of a cut line.
ghost use Rattle.std.specs.Prelude.{◌≡◌, true, false, MatchOption};
ghost use Rattle.plane.specs.Sign.{Minus, Null, Plus, are_opposite};
ghost use Rattle.osm_lattice.specs.Bounds.{IsLatitude, IsLongitude};
ghost use Rattle.osm_geom.specs.Carrier.{is_on};
ghost use Rattle.osm_geom.specs.Cut.{cut_order, side_of};
ghost use Rattle.osm_geom.specs.Point.{IsInWorld};
ghost use Rattle.coast_split.specs.Half.{IsPortion, has_portion};
ghost use Rattle.coast_split.specs.Place.{place_by_sign};

use osm_geom::{Carrier, Cut, Edge, Loc, Point, Side, compare_to_cut, cut_point};
use std::cmp::Ordering;

/// Where a point lies relative to the kept side of a cut line.
#[derive(Clone, Copy, Debug, PartialEq, Eq)]
pub enum Place {
    /// Strictly on the side.
    Kept,
    OnLine,
    /// Strictly on the other side.
    Beyond,
}

/// Where a point lies.
pub fn place_of(p: &Point, cut: Cut, side: Side) -> Place
    ensures { result ≡ place_by_sign (side_of cut side p.now) }
{
    match compare_to_cut(p, cut) {
        Ordering::Equal => Place::OnLine,
        Ordering::Less => match side {
            Side::Low => Place::Kept,
            Side::High => Place::Beyond,
        },
        Ordering::Greater => match side {
            Side::Low => Place::Beyond,
            Side::High => Place::Kept,
        },
    }
}

/// The location with these coordinates.
fn lattice_point(x: i32, y: i32) -> Loc
    requires x_in { IsLongitude x }
    requires y_in { IsLatitude y }
    ensures x { result.x ≡ x }
    ensures y { result.y ≡ y }
{
    Loc { x, y }
}

/// The point at which an edge from one side of the line to the other meets it.
fn crossing(e: &Edge, cut: Cut) -> Point
    requires { are_opposite (cut_order cut e.now.from) (cut_order cut e.now.to) ≡ true }
    ensures on_line { cut_order cut result ≡ Null }
    ensures on_carrier { is_on e.now.carrier result ≡ true }
    ensures in_world { IsInWorld result }
{
    match e.carrier {
        Carrier::OfSeg(s) => cut_point(s, cut),
        Carrier::Vertical(x) => Point::Lattice(lattice_point(x, cut.at)),
        Carrier::Horizontal(y) => Point::Lattice(lattice_point(cut.at, y)),
    }
}

/// The portion of an edge that runs off the side.
fn first_portion(e: &Edge, cut: Cut, side: Side) -> Edge
    requires kept { side_of cut side e.now.from ≡ Plus }
    requires beyond { side_of cut side e.now.to ≡ Minus }
    ensures { IsPortion cut side e.now result }
{
    Edge {
        from: e.from,
        to: crossing(e, cut),
        carrier: e.carrier,
    }
}

/// The portion of an edge that runs onto the side.
fn last_portion(e: &Edge, cut: Cut, side: Side) -> Edge
    requires beyond { side_of cut side e.now.from ≡ Minus }
    requires kept { side_of cut side e.now.to ≡ Plus }
    ensures { IsPortion cut side e.now result }
{
    Edge {
        from: crossing(e, cut),
        to: e.to,
        carrier: e.carrier,
    }
}

/// The portion of an edge on the closed side, if it has a point strictly on the side.
pub fn portion(e: &Edge, cut: Cut, side: Side) -> Option<Edge>
    ensures { MatchOption result (has_portion cut side e.now ≡ false)
        (λ t. (has_portion cut side e.now ≡ true) × IsPortion cut side e.now t) }
{
    match (place_of(&e.from, cut, side), place_of(&e.to, cut, side)) {
        (Place::Kept, Place::Beyond) => Some(first_portion(e, cut, side)),
        (Place::Beyond, Place::Kept) => Some(last_portion(e, cut, side)),
        (Place::Kept, Place::Kept | Place::OnLine) | (Place::OnLine, Place::Kept) => Some(*e),
        (Place::OnLine, Place::OnLine) => None,
        (Place::OnLine | Place::Beyond, Place::Beyond) | (Place::Beyond, Place::OnLine) => None,
    }
}
