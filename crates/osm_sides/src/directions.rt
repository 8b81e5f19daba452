//! The directions of the segments of an outline, by their places in the status of one sweep upwards.

ghost use Rattle.std.specs.Prelude.{◌≡◌, ◌≤◌, [], All, IfOk, IfSome, length};
ghost use Rattle.osm_geom.specs.WholeSegment.{IsWholeSegment};
ghost use Rattle.osm_segments.specs.Outlines.{IsOutline};
ghost use Rattle.osm_segments.specs.Sweep.{AreByEnds};
ghost use Rattle.osm_geom.specs.InPlane.Sided.{IsSided};
ghost use Rattle.osm_geom.specs.declared.edge.Carrier.TheVariants.{OfSeg};
ghost use Rattle.osm_sides.specs.Directions.{AreDirected, CountsParity};
ghost use Rattle.osm_sides.specs.Sweep.{AreDirectedTo};

use crate::few::following::direction;
use crate::sweep::leaving::{leave, leaving};
use crate::sweep::rows::{direct_row, enter_row};
use chunked_list::ChunkedList;
use osm_geom::{Edge, Seg};
use osm_segments::{Outline, in_order_of_ends};
use std::alloc::{AllocError as OutOfMemory, Global};

/// Each segment of an outline directed, in order, by its place in the status.
///
/// The sweep goes upwards, row by row of those that begin at one height. The segments are also given in the order of their
/// upper ends.
fn direct_each(alloc: Global, segs: &[Seg], by_ends: Vec<Seg>) -> Result<Vec<Edge>, OutOfMemory>
    requires outline { IsOutline segs.now }
    requires ends { AreByEnds segs.now by_ends.items }
    ensures { IfOk result (λ v. AreDirectedTo segs.now (length segs.now) v.items) }
{
    let ends = leaving(by_ends);
    let mut edges = Vec::with_capacity(alloc, segs.len())?;
    let mut status = ChunkedList::new(alloc);
    let mut next = 0;
    let mut done = 0;
    while done < segs.len() {
        let at = segs[done].a;
        next = leave(&mut status, &ends, next, at);
        let to = enter_row(&mut status, segs, done, at)?;
        direct_row(&mut edges, &status, segs, done, to)?;
        done = to;
    }
    Ok(edges)
}

/// Each segment of an outline directed, in order: the first of a ring by counting all segments, the others along the ring.
fn direct_few(alloc: Global, segs: &[Seg]) -> Result<Vec<Edge>, OutOfMemory>
    requires outline { IsOutline segs.now }
    requires few { length segs.now ≤ 32 }
    ensures { IfOk result (λ v. AreDirectedTo segs.now (length segs.now) v.items) }
{
    let mut known = [None; FEW];
    let mut edges = Vec::with_capacity(alloc, segs.len())?;
    for (place, &s) in segs.iter().enumerate() {
        edges.push(Edge::of(s, direction(segs, place, &mut known)))?;
    }
    Ok(edges)
}

/// For at most this many segments, going along their rings is faster than a sweep.
const FEW: usize = 32;

/// Each segment of an outline directed, in order.
///
/// Ways: segments also given by upper ends, by a sweep (sweep); up to 32 along their rings (few); all others by sorting and
/// a sweep (sweep).
fn direct_all(alloc: Global, segs: &[Seg], ends: Option<Vec<Seg>>) -> Result<Vec<Edge>, OutOfMemory>
    requires outline { IsOutline segs.now }
    requires ends { IfSome ends (λ ends. AreByEnds segs.now ends.items) }
    ensures { IfOk result (λ v. AreDirectedTo segs.now (length segs.now) v.items) }
{
    if let Some(ends) = ends {
        return direct_each(alloc, segs, ends);
    }
    if segs.len() <= FEW {
        return direct_few(alloc, segs);
    }
    let ends = in_order_of_ends(Vec::from_slice(alloc, segs)?);
    direct_each(alloc, segs, ends)
}

/// The segments of an outline as edges, one for each and in their order, with the odd side on the left.
///
/// This is the right-hand rule of RFC 7946. An edge runs up if the number of others right of it is even. A horizontal one
/// runs right if the number of those right of its left end is odd.
pub fn direct(alloc: Global, outline: Outline) -> Result<Vec<Edge>, OutOfMemory>
    ensures odd_side { IfOk result (λ v. AreDirected outline v.items) }
    ensures whole { IfOk result (λ v. All IsWholeSegment v.items) }
    ensures sided { IfOk result (λ v. IsSided v.items) }
    ensures parity { IfOk result (λ v. CountsParity outline v.items) }
{
    let (segs, ends) = outline.into_parts();
    direct_all(alloc, &segs, ends)
}
