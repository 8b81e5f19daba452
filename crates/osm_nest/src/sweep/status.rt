//! The status of a sweep upwards over edges: those that span its height, from left to right just above it.
//!
//! The place of an edge is searched as if the status were in order, and then its neighbours there are tested. An edge that
//! ended may remain in the status: only the others count.
ghost use Rattle.std.specs.Prelude.{◌≡◌, ◌<◌, ◌≤◌, ◌⊎◌, ◌&&◌, ◌-◌, IfOk, IfSome, filter, length, slice_index_or, take, true, false};
ghost use Rattle.std.specs.Ordering.{is_lt};
ghost use Rattle.osm_geom.specs.JustAbove.{just_above_cmp};
ghost use Rattle.osm_geom.specs.Span.{lower_end};
ghost use Rattle.osm_nest.specs.declared.sweep.ring_edge.RingEdge.{RingEdge};
ghost use Rattle.osm_nest.specs.declared.sweep.ring_edges.Top.{Top};
ghost use Rattle.osm_nest.specs.SweptEdges.{HasNeighbour, IsPut, IsRowPut, is_within, left_at};
ghost use Rattle.lists.specs.Member.{In};

use crate::outer::lower_end;
use crate::sweep::ring_edge::RingEdge;
use crate::sweep::ring_edges::Top;
use chunked_list::ChunkedList;
use osm_geom::{Point, compare_just_above};
use std::alloc::AllocError as OutOfMemory;

/// Whether `f` is left of `g` just above a height that both span: by their x, if these separate them.
fn is_left(f: &RingEdge, g: &RingEdge, at: &Point) -> bool
    requires first { is_within at.now f.now ≡ true }
    requires second { is_within at.now g.now ≡ true }
    ensures { result ≡ is_lt (just_above_cmp f.now.edge.now g.now.edge.now at.now) }
{
    if f.reach.is_west_of(g.reach) {
        return true;
    }
    if g.reach.is_west_of(f.reach) {
        return false;
    }
    compare_just_above(f.edge, g.edge, at).is_lt()
}

/// Whether `f` spans the height of a point, and just above it is left of `g`, which is known to span it.
fn is_left_of(f: &RingEdge, g: &RingEdge, at: &Point) -> bool
    requires { is_within at.now g.now ≡ true }
    ensures { result ≡ left_at at.now f.now.edge.now g.now.edge.now }
{
    f.spans(at) && is_left(f, g, at)
}

/// Whether `g` spans the height of a point, and just above it is right of `f`, which is known to span it.
fn stands_right_of(g: &RingEdge, f: &RingEdge, at: &Point) -> bool
    requires { is_within at.now f.now ≡ true }
    ensures { result ≡ left_at at.now f.now.edge.now g.now.edge.now }
{
    g.spans(at) && is_left(f, g, at)
}

/// Whether `f` lies left of `g` just above a height that `g` spans, if no x separates them. Only speed depends on it.
fn seems_left(f: &RingEdge, g: &RingEdge, at: &Point) -> bool
    requires { is_within at.now g.now ≡ true }
{
    if f.reach.is_west_of(g.reach) {
        return true;
    }
    if g.reach.is_west_of(f.reach) {
        return false;
    }
    is_left_of(f, g, at)
}

/// The place that the search finds for an edge that spans the height, among those of the status.
fn search(status: &ChunkedList<RingEdge>, edge: &RingEdge, at: &Point) -> usize
    requires { is_within at.now edge.now ≡ true }
    ensures { result ≤ length status.now }
{
    status.partition_point_near(status.last_changed(), |other| seems_left(other, edge, at))
}

/// Whether the edge at a place doesn't span the height.
fn is_past(status: &ChunkedList<RingEdge>, place: usize, at: &Point) -> bool
    ensures inside { result ≡ true → place < length status.now }
    ensures past { result ≡ true → (d : RingEdge)
        → is_within at.now (slice_index_or status.now place d) ≡ false }
{
    if place >= status.len() {
        return false;
    }
    !status.get(place).spans(at)
}

/// Whether an edge of a ring seems to be at a place, by what is known without reading the edges. Only speed depends on it.
fn is_at(status: &ChunkedList<RingEdge>, place: usize, edge: &RingEdge) -> bool {
    if place >= status.len() {
        return false;
    }
    let other = status.get(place);
    other.ring == edge.ring && other.reach == edge.reach && other.heights == edge.heights
}

/// The place of an edge, if it is where the status changed last or next to that; otherwise the place that the search finds.
///
/// Only speed depends on it.
///
/// Ways: the four places next to where the status changed last; all others by a search.
fn place_of(status: &ChunkedList<RingEdge>, edge: &RingEdge, at: &Point) -> usize
    requires { is_within at.now edge.now ≡ true }
{
    for place in status.places_near_change() {
        if is_at(status, place, edge) {
            return place;
        }
    }
    search(status, edge, at)
}

/// Takes out an edge that ended, if its place is found; otherwise all edges that don't span the height of `at`.
fn take_out(status: &mut ChunkedList<RingEdge>, edge: &RingEdge, below: &Point, at: &Point)
    requires { is_within below.now edge.now ≡ true }
    ensures within { filter (is_within at.now) status.new ≡ filter (is_within at.now) status.old }
    ensures members { (e : RingEdge) → In e status.new → In e status.old }
{
    let place = place_of(status, edge, below);
    if is_past(status, place, at) {
        status.remove(place);
        return;
    }
    status.retain(|other| other.spans(at));
}

/// Whether the next of the edges spans the height of `below` and ends no higher than `at`.
fn ends_between(edges: &[RingEdge], tops: &[Top], next: usize, below: &Point, at: &Point) -> bool
    ensures inside { result ≡ true → next < length tops.now }
    ensures edge { result ≡ true → (d : Top)
        → (slice_index_or tops.now next d).place < length edges.now }
    ensures below { result ≡ true → (d : Top) (e : RingEdge)
        → is_within below.now (slice_index_or edges.now (slice_index_or tops.now next d).place e)
        ≡ true }
{
    if next >= tops.len() {
        return false;
    }
    let place = tops[next].place as usize;
    if place >= edges.len() {
        return false;
    }
    let edge = &edges[place];
    edge.spans(below) && !edge.spans(at)
}

/// Takes out the edges that span the height of `below` and end no higher than `at`.
///
/// It takes them by the places of all edges in order of their upper ends, from one on, and gives the one to continue from.
/// No clause says that each is found, and none is needed.
pub(crate) fn leave(
    status: &mut ChunkedList<RingEdge>,
    edges: &[RingEdge],
    tops: &[Top],
    from: usize,
    below: &Point,
    at: &Point,
) -> usize
    ensures within { filter (is_within at.now) status.new ≡ filter (is_within at.now) status.old }
    ensures members { (e : RingEdge) → In e status.new → In e status.old }
{
    let mut next = from;
    while ends_between(edges, tops, next, below, at) {
        take_out(status, &edges[tops[next].place as usize], below, at);
        next += 1;
    }
    next
}

/// Whether the two edges next to a place span the height, and are left and right of the edge.
fn fits_at(status: &ChunkedList<RingEdge>, place: usize, edge: &RingEdge, at: &Point) -> bool
    requires within { is_within at.now edge.now ≡ true }
    requires inside { place ≤ length status.now }
    ensures before { result ≡ true → (d : RingEdge) → 0 < place
        → left_at at.now (slice_index_or status.now (place - 1) d).edge.now edge.now.edge.now ≡ true }
    ensures after { result ≡ true → (d : RingEdge) → place < length status.now
        → left_at at.now edge.now.edge.now (slice_index_or status.now place d).edge.now ≡ true }
{
    if place > 0 && !is_left_of(&status.get(place - 1), edge, at) {
        return false;
    }
    if place < status.len() && !stands_right_of(&status.get(place), edge, at) {
        return false;
    }
    true
}

/// Puts an edge where it seems to belong, if it fits there.
fn enter<'a>(
    status: &mut ChunkedList<RingEdge<'a>>,
    item: &RingEdge<'a>,
    at: &Point,
) -> Result<bool, OutOfMemory>
    requires { is_within at.now item.now ≡ true }
    ensures put { IfOk result (λ fits. fits ≡ true
        → IsPut at.now item.now (filter (is_within at.now) status.old)
        (filter (is_within at.now) status.new)) }
    ensures members { IfOk result (λ fits. (e : RingEdge) → In e status.new
        → (In e status.old) ⊎ (e ≡ item.now)) }
{
    let place = search(status, item, at);
    if !fits_at(status, place, item, at) {
        return Ok(false);
    }
    status.insert(place, *item)?;
    Ok(true)
}

/// Whether the next edge spans the height.
fn goes_on(edges: &[RingEdge], next: usize, at: &Point) -> bool
    ensures inside { result ≡ true → next < length edges.now }
    ensures within { result ≡ true → (d : RingEdge)
        → is_within at.now (slice_index_or edges.now next d) ≡ true }
    ensures ended { result ≡ false → (d : RingEdge) → next < length edges.now
        → is_within at.now (slice_index_or edges.now next d) ≡ false }
{
    if next >= edges.len() {
        return false;
    }
    edges[next].spans(at)
}

/// Puts in the edges from a place on that span the height of `at`.
///
/// It gives the place after the last of them, or None if one doesn't fit.
pub(crate) fn enter_row<'a>(
    status: &mut ChunkedList<RingEdge<'a>>,
    edges: &[RingEdge<'a>],
    from: usize,
    at: &Point,
) -> Result<Option<usize>, OutOfMemory>
    requires { from ≤ length edges.now }
    ensures put { IfOk result (λ row. IfSome row
        (λ to. IsRowPut at.now edges.now from to (filter (is_within at.now) status.old)
        (filter (is_within at.now) status.new))) }
    ensures members { IfOk result (λ row. IfSome row
        (λ to. (e : RingEdge) → In e status.new → (In e status.old) ⊎ In e (take to edges.now))) }
{
    let mut next = from;
    while goes_on(edges, next, at) {
        if !enter(status, &edges[next], at)? {
            return Ok(None);
        }
        next += 1;
    }
    Ok(Some(next))
}

/// Whether an anchor that spans the height is between two edges.
///
/// The first edge is left of it. The second, which spans the height too, isn't.
fn is_between(left: &RingEdge, next: &RingEdge, anchor: &RingEdge, at: &Point) -> bool
    requires { is_within at.now anchor.now ≡ true }
    ensures left { result ≡ true → left_at at.now left.now.edge.now anchor.now.edge.now ≡ true }
    ensures within { result ≡ true → is_within at.now next.now ≡ true }
    ensures next { result ≡ true → left_at at.now next.now.edge.now anchor.now.edge.now ≡ false }
{
    is_left_of(left, anchor, at) && next.spans(at) && !is_left(next, anchor, at)
}

/// The edge just before an anchor in the status, if the anchor seems to belong there.
pub(crate) fn left_neighbour<'a>(
    status: &ChunkedList<RingEdge<'a>>,
    anchor: &RingEdge,
) -> Option<RingEdge<'a>>
    ensures { IfSome result (λ e. HasNeighbour anchor.now.edge.now
        (filter (is_within (lower_end anchor.now.edge.now)) status.now) e) }
{
    let at = lower_end(anchor.edge);
    if !anchor.spans(at) {
        return None;
    }
    let place = search(status, anchor, at);
    if place == 0 || place >= status.len() {
        return None;
    }
    let left = status.get(place - 1);
    let next = status.get(place);
    if is_between(&left, &next, anchor, at) {
        return Some(left);
    }
    None
}
