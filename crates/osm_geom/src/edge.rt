//! Directed edges, and what carries them.
ghost use Rattle.std.specs.Prelude.{◌≡◌, ◌≢◌, true, if◌then◌else◌};
ghost use Rattle.osm_geom.specs.Carrier.{is_on};
ghost use Rattle.osm_geom.specs.Point.{IsInWorld};
ghost use Rattle.osm_geom.specs.declared.point.Point.TheVariants.{Lattice};
ghost use Rattle.osm_geom.specs.declared.edge.Carrier.TheVariants.{OfSeg};

use crate::point::Point;
use osm_lattice::Seg;

/// What an edge is a part of.
#[derive(Clone, Copy, Debug, PartialEq, Eq)]
pub enum Carrier {
    /// The segment, its ends included.
    OfSeg(Seg),
    /// The line of all points with this x.
    Vertical(i32),
    /// The line of all points with this y.
    Horizontal(i32),
}

/// A directed part of a carrier, between two different points of the world.
///
/// It is valid if both ends lie on the carrier, differ, and are in the world. Ghost fields hold these facts, so every value
/// of the type is valid. No end is rounded: it is a location, or the exact point where a segment meets a line of whole
/// coordinate.
///
/// An edge may be the whole of a segment or a part of it. Its direction is the carrier's or the opposite, whatever its ends
/// are. In a sided list the area is on the left of each edge, like the right-hand rule of RFC 7946, section 3.1.6, for
/// rings.
#[derive(Clone, Copy, Debug, PartialEq, Eq)]
pub struct Edge {
    pub from: Point,
    pub to: Point,
    pub carrier: Carrier,
    pub ghost from_on: { is_on carrier from ≡ true },
    pub ghost to_on: { is_on carrier to ≡ true },
    pub ghost apart: { from ≢ to },
    pub ghost from_in: { IsInWorld from },
    pub ghost to_in: { IsInWorld to },
}

impl Edge {
    /// The whole segment, from its lesser end if `forward`, and otherwise from its greater one.
    #[tactic(auto, using(crate::proofs::SegmentEnds::end_facts))]
    pub fn of(s: Seg, forward: bool) -> Edge
        ensures carrier { result.carrier ≡ OfSeg s }
        ensures from { result.from ≡ (if forward then Lattice s.a else Lattice s.b) }
        ensures to { result.to ≡ (if forward then Lattice s.b else Lattice s.a) }
    {
        if forward {
            return Edge {
                from: Point::Lattice(s.a),
                to: Point::Lattice(s.b),
                carrier: Carrier::OfSeg(s),
            };
        }
        Edge {
            from: Point::Lattice(s.b),
            to: Point::Lattice(s.a),
            carrier: Carrier::OfSeg(s),
        }
    }
}
