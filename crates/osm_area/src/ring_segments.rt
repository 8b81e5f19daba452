//! The segments along which rings run, in order, for binary search.

ghost use Rattle.std.specs.Prelude.{◌≡◌, ◌||◌, IfOk, OnOk};
ghost use Rattle.std.specs.List.{list_any};
ghost use Rattle.std.specs.List.Sorted.{IsSorted};
ghost use Rattle.osm_lattice.specs.declared.seg.Seg.{Seg};
ghost use Rattle.osm_geom.specs.declared.edge.Edge.{Edge};
ghost use Rattle.osm_lattice.specs.Seg.{seg_cmp};
ghost use Rattle.osm_area.specs.RingSegments.{AreSegmentsOf};
ghost use Rattle.osm_area.specs.RoleKinds.{has_segment};
ghost use Rattle.osm_area.specs.Roles.{carries, is_in_rings, outers, inners};

use lists::is_among;
use osm_geom::{Carrier, Edge, Seg};
use osm_nest::Polygon;
use osm_rings::Ring;
use std::alloc::{AllocError as OutOfMemory, Global};

/// The segments along which outer and inner rings run, in order.
#[derive(Drop)]
pub struct RingSegments {
    pub outer: Vec<Seg>,
    pub inner: Vec<Seg>,
}

/// Adds the segment of an edge.
fn add_edge(segs: &mut Vec<Seg>, edge: &Edge) -> Result<(), OutOfMemory>
    ensures { OnOk result ((s : Seg)
        → has_segment segs.new.items s
        ≡ (has_segment segs.old.items s || carries s edge.now.carrier)) }
{
    if let Carrier::OfSeg(seg) = edge.carrier {
        segs.push(seg)?;
    }
    Ok(())
}

/// Adds the segments of a ring.
fn add_ring(segs: &mut Vec<Seg>, ring: &Ring) -> Result<(), OutOfMemory>
    ensures { OnOk result ((s : Seg)
        → has_segment segs.new.items s
        ≡ (has_segment segs.old.items s
        || list_any (λ (e : Edge). carries s e.carrier) ring.now)) }
{
    for edge in ring.as_slice() {
        add_edge(segs, edge)?;
    }
    Ok(())
}

/// Adds the segments of rings.
fn add_rings(segs: &mut Vec<Seg>, rings: &[Ring]) -> Result<(), OutOfMemory>
    ensures { OnOk result ((s : Seg)
        → has_segment segs.new.items s
        ≡ (has_segment segs.old.items s || is_in_rings rings.now s)) }
{
    for ring in rings {
        add_ring(segs, ring)?;
    }
    Ok(())
}

/// Segments in order.
fn in_order(segs: Vec<Seg>) -> Vec<Seg>
    ensures held { (s : Seg) → has_segment result.items s ≡ has_segment segs.items s }
    ensures sorted { IsSorted seg_cmp result.items }
{
    let mut segs = segs;
    segs.sort_unstable();
    segs
}

/// The segments along which the outer rings of polygons run, in order.
fn outer_segments(alloc: Global, polygons: &[Polygon]) -> Result<Vec<Seg>, OutOfMemory>
    ensures held { IfOk result (λ segs. (s : Seg)
        → has_segment segs.items s ≡ is_in_rings (outers polygons.now) s) }
    ensures sorted { IfOk result (λ segs. IsSorted seg_cmp segs.items) }
{
    let mut segs = Vec::new(alloc);
    for polygon in polygons {
        add_ring(&mut segs, &polygon.outer)?;
    }
    Ok(in_order(segs))
}

/// The segments along which the inner rings of polygons run, in order.
fn inner_segments(alloc: Global, polygons: &[Polygon]) -> Result<Vec<Seg>, OutOfMemory>
    ensures held { IfOk result (λ segs. (s : Seg)
        → has_segment segs.items s ≡ is_in_rings (inners polygons.now) s) }
    ensures sorted { IfOk result (λ segs. IsSorted seg_cmp segs.items) }
{
    let mut segs = Vec::new(alloc);
    for polygon in polygons {
        add_rings(&mut segs, polygon.inners.as_slice())?;
    }
    Ok(in_order(segs))
}

/// The segments along which the rings of polygons run.
pub fn ring_segments(alloc: Global, polygons: &[Polygon]) -> Result<RingSegments, OutOfMemory>
    ensures { IfOk result (AreSegmentsOf polygons.now) }
{
    let outer = outer_segments(alloc, polygons)?;
    let inner = inner_segments(alloc, polygons)?;
    Ok(RingSegments { outer, inner })
}

/// Whether a segment is among these, which are in order.
pub fn holds(segs: &[Seg], seg: &Seg) -> bool
    requires { IsSorted seg_cmp segs.now }
    ensures { result ≡ has_segment segs.now seg.now }
{
    is_among(segs, seg)
}
