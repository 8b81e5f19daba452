//! Direct enclosers, found by one sweep upwards over all edges of the rings.
//!
//! The nearest edge left of an inner ring's anchor shows which ring directly encloses that ring.
ghost use Rattle.std.specs.Prelude.{◌≡◌, ◌<◌, ◌≤◌, [], All, IfOk, IfSome, List, None, OnOk, Option, Some, filter, length, slice_index_or, true};
ghost use Rattle.osm_geom.specs.Span.{lower_end};
ghost use Rattle.osm_nest.specs.declared.sweep.ring_edge.RingEdge.{RingEdge};
ghost use Rattle.osm_nest.specs.Anchors.{AreAnchors};
ghost use Rattle.osm_nest.specs.Enclosers.{IsDirectEncloser};
ghost use Rattle.osm_nest.specs.RingLists.{AreRings};
ghost use Rattle.osm_nest.specs.SweptEdges.{AreSlopingEdges, IsInnerAnchor, IsTeller, KnownEnclosersAreRight, StartsRise, TellsEncloser, begin_level, is_within};

use crate::outer::lower_end;
use crate::ring_anchors::Anchors;
use crate::sweep::ring_edge::RingEdge;
use crate::sweep::ring_edges::{Top, by_upper_ends, rising_edges, sort_by_lower_ends};
use crate::sweep::status::{enter_row, leave, left_neighbour};
use chunked_list::ChunkedList;
use osm_geom::{Edge, spans_height};
use osm_rings::Ring;
use std::alloc::{AllocError as OutOfMemory, Global};

/// The place of the direct encloser of each ring, if the sweep finds it.
pub(crate) fn swept_enclosers(
    alloc: Global,
    rings: &[Ring],
    anchors: &Anchors,
) -> Result<Vec<Option<usize>>, OutOfMemory>
    requires rings { AreRings rings.now }
    requires anchors { AreAnchors rings.now anchors.now }
    ensures { IfOk result (λ known. KnownEnclosersAreRight rings.now known.items) }
{
    let inner = inner_anchors(alloc, rings, anchors)?;
    let mut known = none_known(alloc, rings)?;
    if inner.is_empty() {
        return Ok(known);
    }
    sweep_rings(alloc, rings, anchors, &inner, &mut known)?;
    Ok(known)
}

/// Settles the direct enclosers of the inner rings with these anchors by a sweep over the edges of all rings.
fn sweep_rings(
    alloc: Global,
    rings: &[Ring],
    anchors: &Anchors,
    inner: &[RingEdge],
    known: &mut Vec<Option<usize>>,
) -> Result<(), OutOfMemory>
    requires rings { AreRings rings.now }
    requires anchors { AreAnchors rings.now anchors.now }
    requires inner { All (IsInnerAnchor rings.now) inner.now }
    requires known { KnownEnclosersAreRight rings.now known.old.items }
    ensures { OnOk result (KnownEnclosersAreRight rings.now known.new.items) }
{
    let edges = rising_edges(alloc, rings)?;
    let tops = by_upper_ends(alloc, &edges)?;
    let mut status = ChunkedList::new(alloc);
    sweep(rings, anchors, inner, &edges, &tops, &mut status, known)
}

/// Settles the direct enclosers of the inner rings, row by row upwards, until one edge doesn't fit or all are settled.
fn sweep<'a>(
    rings: &[Ring],
    anchors: &Anchors,
    inner: &[RingEdge],
    edges: &[RingEdge<'a>],
    tops: &[Top],
    status: &mut ChunkedList<RingEdge<'a>>,
    known: &mut Vec<Option<usize>>,
) -> Result<(), OutOfMemory>
    requires rings { AreRings rings.now }
    requires anchors { AreAnchors rings.now anchors.now }
    requires inner { All (IsInnerAnchor rings.now) inner.now }
    requires edges { AreSlopingEdges rings.now edges.now }
    requires rise { StartsRise edges.now }
    requires status { status.old ≡ [] }
    requires known { KnownEnclosersAreRight rings.now known.old.items }
    ensures { OnOk result (KnownEnclosersAreRight rings.now known.new.items) }
{
    let mut gone = 0;
    let mut settled = 0;
    let mut next = 0;
    while next < edges.len() {
        let first = edges[next];
        let at = lower_end(first.edge);
        let below = lower_end(edges[next.saturating_sub(1)].edge);
        gone = leave(status, edges, tops, gone, below, at);
        let Some(to) = enter_row(status, edges, next, at)? else {
            return Ok(());
        };
        settled = settle_row(rings, anchors, status, inner, settled, first.edge, known);
        if settled >= inner.len() {
            return Ok(());
        }
        next = to;
    }
    Ok(())
}

/// The anchors of the inner rings, in order of their lower ends.
fn inner_anchors<'a>(
    alloc: Global,
    rings: &[Ring],
    anchors: &Anchors<'a>,
) -> Result<Vec<RingEdge<'a>>, OutOfMemory>
    requires { AreAnchors rings.now anchors.now }
    ensures { IfOk result (λ v. All (IsInnerAnchor rings.now) v.items) }
{
    let mut inner = Vec::new(alloc);
    for place in 0..rings.len() {
        if !anchors.outer[place] {
            inner.push(anchors.edges[place])?;
        }
    }
    sort_by_lower_ends(&mut inner);
    Ok(inner)
}

/// None for each ring.
pub(crate) fn none_known(alloc: Global, rings: &[Ring]) -> Result<Vec<Option<usize>>, OutOfMemory>
    ensures { IfOk result (λ known. KnownEnclosersAreRight rings.now known.items) }
{
    let mut known = Vec::with_capacity(alloc, rings.len())?;
    for _ in 0..rings.len() {
        known.push(None)?;
    }
    Ok(known)
}

/// Whether the next anchor begins at the height at which `first` begins.
fn begins_there(inner: &[RingEdge], next: usize, first: &Edge) -> bool
    ensures inside { result ≡ true → next < length inner.now }
    ensures level { result ≡ true → (d : RingEdge)
        → begin_level first.now (slice_index_or inner.now next d).edge.now ≡ true }
{
    if next >= inner.len() {
        return false;
    }
    let anchor = &inner[next];
    anchor.spans(lower_end(first)) && spans_height(first, lower_end(anchor.edge))
}

/// Settles the direct enclosers of the inner rings whose anchors begin at the height at which `first` begins.
///
/// It gives the place of the next anchor.
fn settle_row(
    rings: &[Ring],
    anchors: &Anchors,
    status: &ChunkedList<RingEdge>,
    inner: &[RingEdge],
    from: usize,
    first: &Edge,
    known: &mut Vec<Option<usize>>,
) -> usize
    requires anchors { AreAnchors rings.now anchors.now }
    requires inner { All (IsInnerAnchor rings.now) inner.now }
    requires tells { (a : RingEdge) → IsInnerAnchor rings.now a
        → begin_level first.now a.edge.now ≡ true
        → TellsEncloser rings.now (filter (is_within (lower_end a.edge.now)) status.now) a }
    requires from { from ≤ length inner.now }
    requires known { KnownEnclosersAreRight rings.now known.old.items }
    ensures within { result ≤ length inner.now }
    ensures known { KnownEnclosersAreRight rings.now known.new.items }
{
    let mut next = from;
    while begins_there(inner, next, first) {
        settle(rings, anchors, status, &inner[next], known);
        next += 1;
    }
    next
}

/// Settles the direct encloser of an anchor's ring, if the anchor's neighbour in the status shows it.
fn settle(
    rings: &[Ring],
    anchors: &Anchors,
    status: &ChunkedList<RingEdge>,
    anchor: &RingEdge,
    known: &mut Vec<Option<usize>>,
)
    requires anchors { AreAnchors rings.now anchors.now }
    requires inside { anchor.now.ring < length rings.now }
    requires tells { TellsEncloser rings.now (filter (is_within (lower_end anchor.now.edge.now))
        status.now) anchor.now }
    requires known { KnownEnclosersAreRight rings.now known.old.items }
    ensures { KnownEnclosersAreRight rings.now known.new.items }
{
    match left_neighbour(status, anchor) {
        Some(left) => {
            let encloser = encloser_by(rings, anchors, known, &left, anchor);
            known[anchor.ring] = encloser;
        }
        None => {}
    }
}

/// The place of the neighbour's ring, if that is outer; otherwise the direct encloser of that ring, if it is known.
fn encloser_by(
    rings: &[Ring],
    anchors: &Anchors,
    known: &[Option<usize>],
    left: &RingEdge,
    anchor: &RingEdge,
) -> Option<usize>
    requires anchors { AreAnchors rings.now anchors.now }
    requires tells { IsTeller rings.now anchor.now left.now }
    requires known { KnownEnclosersAreRight rings.now known.now }
    ensures { IfSome result (λ encloser. IsDirectEncloser rings.now anchor.now.ring
        (Some encloser)) }
{
    if anchors.outer[left.ring] {
        return Some(left.ring);
    }
    known[left.ring]
}
