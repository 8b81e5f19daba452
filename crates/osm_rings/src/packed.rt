//! Edges along whole segments, packed: one takes 20 bytes, where an edge takes 60.
ghost use Rattle.std.specs.Prelude.{◌≡◌, ◌<◌, All, IfOk, IfSome, List, length, true};
ghost use Rattle.osm_geom.specs.declared.edge.Edge.{Edge};
ghost use Rattle.osm_geom.specs.declared.point.Point.TheVariants.{Lattice};
ghost use Rattle.osm_rings.specs.Packed.{ArePacked, IsPackedAs};
ghost use Rattle.osm_rings.specs.Pieces.{AreRingsAlong, edges_at};
ghost use Rattle.osm_rings.specs.RingList.{AreRingsOf};

use crate::ring::{Ring, Rings};
use osm_geom::{Carrier, Edge, Loc, Point, Seg, order_points};
use std::alloc::{AllocError as OutOfMemory, Global};
use std::cmp::Ordering;

/// A whole segment, and whether an edge runs along it from its lesser end.
#[derive(Clone, Copy)]
pub struct Packed {
    pub seg: Seg,
    pub forward: bool,
}

/// Whether a point is a location.
fn is_at(point: &Point, at: Loc) -> bool
    ensures { result ≡ true → point.now ≡ Lattice at }
{
    match order_points(point, &Point::Lattice(at)) {
        Ordering::Equal => true,
        _ => false,
    }
}

/// An edge packed; None if it doesn't run along a whole segment.
fn pack(edge: &Edge) -> Option<Packed>
    ensures { IfSome result (IsPackedAs edge.now) }
{
    let Carrier::OfSeg(seg) = edge.carrier else {
        return None;
    };
    if is_at(&edge.from, seg.a) && is_at(&edge.to, seg.b) {
        return Some(Packed { seg, forward: true });
    }
    if is_at(&edge.from, seg.b) && is_at(&edge.to, seg.a) {
        return Some(Packed {
            seg,
            forward: false,
        });
    }
    None
}

/// The edge that was packed.
fn unpack(packed: Packed) -> Edge
    ensures { (e : Edge) → IsPackedAs e packed → result ≡ e }
{
    Edge::of(packed.seg, packed.forward)
}

/// Edges packed; None if one of them doesn't run along a whole segment.
pub fn all_packed(alloc: Global, edges: &[Edge]) -> Result<Option<Vec<Packed>>, OutOfMemory>
    ensures { IfOk result (λ found. IfSome found (λ all. ArePacked edges.now all.items)) }
{
    let mut all = Vec::with_capacity(alloc, edges.len())?;
    for place in 0..edges.len() {
        let Some(one) = pack(&edges[place]) else {
            return Ok(None);
        };
        all.push(one)?;
    }
    Ok(Some(all))
}

/// The edges at these places.
fn unpacked_at(alloc: Global, all: &[Packed], places: &[usize]) -> Result<Vec<Edge>, OutOfMemory>
    requires { All (λ k. k < length all.now) places.now }
    ensures { IfOk result (λ v. (es : List Edge) → ArePacked es all.now
        → v.items ≡ edges_at es places.now) }
{
    let mut found = Vec::with_capacity(alloc, places.len())?;
    for &place in places {
        found.push(unpack(all[place]))?;
    }
    Ok(found)
}

/// The rings along walks of edges that are packed. `places` has the walks one after the other, and `sizes` how many places each
/// has.
pub fn packed_rings(
    alloc: Global,
    all: &[Packed],
    places: &[usize],
    sizes: &[usize],
) -> Result<Rings, OutOfMemory>
    requires { (es : List Edge) × ArePacked es all.now × AreRingsAlong es places.now sizes.now }
    ensures { IfOk result (λ v. (es : List Edge) → ArePacked es all.now
        → AreRingsAlong es places.now sizes.now → AreRingsOf es v) }
{
    let mut rings = Rings::with_capacity(alloc, sizes.len())?;
    let mut left = places;
    for &size in sizes {
        let (walk, rest) = left.split_at(size);
        rings.push(Ring::of_edges(unpacked_at(alloc, all, walk)?))?;
        left = rest;
    }
    Ok(rings)
}
