//! Whether the rings of polygons run along a segment.

ghost use Rattle.std.specs.Prelude.{◌≡◌, IfOk, IfSome};
ghost use Rattle.std.specs.List.{list_any};
ghost use Rattle.osm_geom.specs.declared.edge.Edge.{Edge};
ghost use Rattle.osm_nest.specs.declared.polygon.Polygon.{Polygon};
ghost use Rattle.osm_area.specs.RingSegments.{AreSegmentsOf};
ghost use Rattle.osm_area.specs.Roles.{carries, is_in_rings, outers, inners};

use crate::ring_segments::{RingSegments, holds, ring_segments};
use osm_geom::{Carrier, Edge, Seg};
use osm_nest::Polygon;
use osm_rings::Ring;
use std::alloc::{AllocError as OutOfMemory, Global};

/// The rings of areas with at most this many segments are searched for each query. The segments of larger ones are sorted.
const FEW: usize = 16;

/// The rings of polygons, and, if there are many, the segments along which they run.
#[derive(Drop)]
pub struct RingLines<'a> {
    pub polygons: &'a [Polygon],
    pub segments: Option<RingSegments>,
}

/// Whether an edge runs along a segment.
fn carries(edge: &Edge, seg: &Seg) -> bool
    ensures { result ≡ carries seg.now edge.now.carrier }
{
    match edge.carrier {
        Carrier::OfSeg(own) => own.cmp(seg).is_eq(),
        Carrier::Vertical(_) | Carrier::Horizontal(_) => false,
    }
}

/// Whether a ring runs along a segment.
fn runs_along(ring: &Ring, seg: &Seg) -> bool
    ensures { result ≡ list_any (λ (e : Edge). carries seg.now e.carrier) ring.now }
{
    ring.as_slice().iter().any(|edge| carries(edge, seg))
}

/// Whether one of the rings runs along a segment.
fn some_runs_along(rings: &[Ring], seg: &Seg) -> bool
    ensures { result ≡ is_in_rings rings.now seg.now }
{
    rings.iter().any(|ring| runs_along(ring, seg))
}

/// Whether an outer ring of the polygons runs along a segment.
fn some_outer_along(polygons: &[Polygon], seg: &Seg) -> bool
    ensures { result ≡ list_any
        (λ (p : Polygon). list_any (λ (e : Edge). carries seg.now e.carrier) p.outer) polygons.now }
{
    polygons
        .iter()
        .any(|polygon| runs_along(&polygon.outer, seg))
}

/// Whether an inner ring of the polygons runs along a segment.
fn some_inner_along(polygons: &[Polygon], seg: &Seg) -> bool
    ensures { result ≡ list_any (λ (p : Polygon). is_in_rings p.inners seg.now) polygons.now }
{
    polygons
        .iter()
        .any(|polygon| some_runs_along(polygon.inners.as_slice(), seg))
}

/// The rings of polygons with at most `count` segments.
///
/// Ways: up to 16 segments by searching them; all others by sorted lists.
pub fn ring_lines<'a>(
    alloc: Global,
    polygons: &'a [Polygon],
    count: usize,
) -> Result<RingLines<'a>, OutOfMemory>
    ensures polygons { IfOk result (λ lines. lines.polygons.now ≡ polygons.now) }
    ensures segments { IfOk result (λ lines. IfSome lines.segments (AreSegmentsOf polygons.now)) }
{
    let segments = if count <= FEW {
        None
    } else {
        Some(ring_segments(alloc, polygons)?)
    };
    Ok(RingLines { polygons, segments })
}

/// Whether an outer ring runs along a segment.
fn is_in_outer(lines: &RingLines<'_>, seg: &Seg) -> bool
    requires { IfSome lines.now.segments (AreSegmentsOf lines.now.polygons.now) }
    ensures { result ≡ is_in_rings (outers lines.now.polygons.now) seg.now }
{
    match &lines.segments {
        Some(segments) => holds(&segments.outer, seg),
        None => some_outer_along(lines.polygons, seg),
    }
}

/// Whether an inner ring runs along a segment.
fn is_in_inner(lines: &RingLines<'_>, seg: &Seg) -> bool
    requires { IfSome lines.now.segments (AreSegmentsOf lines.now.polygons.now) }
    ensures { result ≡ is_in_rings (inners lines.now.polygons.now) seg.now }
{
    match &lines.segments {
        Some(segments) => holds(&segments.inner, seg),
        None => some_inner_along(lines.polygons, seg),
    }
}

/// Whether outer rings run along some of these segments.
pub fn some_in_outer(lines: &RingLines<'_>, along: &[Seg]) -> bool
    requires { IfSome lines.now.segments (AreSegmentsOf lines.now.polygons.now) }
    ensures { result ≡ list_any (is_in_rings (outers lines.now.polygons.now)) along.now }
{
    along.iter().any(|seg| is_in_outer(lines, seg))
}

/// Whether inner rings run along some of these segments.
pub fn some_in_inner(lines: &RingLines<'_>, along: &[Seg]) -> bool
    requires { IfSome lines.now.segments (AreSegmentsOf lines.now.polygons.now) }
    ensures { result ≡ list_any (is_in_rings (inners lines.now.polygons.now)) along.now }
{
    along.iter().any(|seg| is_in_inner(lines, seg))
}
