//! The edges of rings as a sweep upwards lists them.
ghost use Rattle.std.specs.Prelude.{◌≡◌, ◌++◌, IfOk, IsPermutation, OnOk, length, not, true};
ghost use Rattle.std.specs.Ordering.{is_lt};
ghost use Rattle.osm_geom.specs.Point.{point_cmp};
ghost use Rattle.osm_geom.specs.Span.{lower_end, spans};
ghost use Rattle.osm_nest.specs.SweptEdges.{AreRingEdges, AreSlopingEdges, IsOneMore, StartsRise};

use crate::outer::{is_rising, lower_end, upper_end};
use crate::sweep::ring_edge::RingEdge;
use osm_geom::{Edge, Point, order_points, spans_height};
use osm_rings::Ring;
use std::alloc::{AllocError as OutOfMemory, Global};
use std::cmp::Ordering;

/// Whether an edge isn't horizontal.
fn is_sloping(edge: &Edge) -> bool
    ensures { result ≡ spans edge.now (lower_end edge.now) }
{
    spans_height(edge, lower_end(edge))
}

/// Adds an edge to those that run up, or to those that run down.
fn push_edge<'a>(
    up: &mut Vec<RingEdge<'a>>,
    down: &mut Vec<RingEdge<'a>>,
    item: &RingEdge<'a>,
) -> Result<(), OutOfMemory>
    ensures { OnOk result (IsOneMore item.now (up.old.items ++ down.old.items)
        (up.new.items ++ down.new.items)) }
{
    if is_rising(item.edge) {
        up.push(*item)?;
    } else {
        down.push(*item)?;
    }
    Ok(())
}

/// Adds the edges of one ring that aren't horizontal, to two lists: those that run up, and those that run down.
fn push_ring<'a>(
    up: &mut Vec<RingEdge<'a>>,
    down: &mut Vec<RingEdge<'a>>,
    ring: &'a [Edge],
    place: usize,
) -> Result<(), OutOfMemory>
    ensures { OnOk result (AreRingEdges place (length ring.now) ring.now
        (up.old.items ++ down.old.items) (up.new.items ++ down.new.items)) }
{
    for edge in ring {
        if is_sloping(edge) {
            push_edge(up, down, &RingEdge::of(edge, place))?;
        }
    }
    Ok(())
}

/// How many edges the rings have.
fn edge_count(rings: &[Ring]) -> usize {
    let mut count: usize = 0;
    for ring in rings {
        count = count.saturating_add(ring.as_slice().len());
    }
    count
}

/// Whether an edge doesn't begin before another.
fn is_in_order(edge: &RingEdge, next: &RingEdge) -> bool
    ensures { result
        ≡ not (is_lt (point_cmp (lower_end next.now.edge.now) (lower_end edge.now.edge.now))) }
{
    if edge.heights.begin_below(next.heights) {
        return true;
    }
    !order_points(lower_end(next.edge), lower_end(edge.edge)).is_lt()
}

/// Whether no edge begins before an earlier one.
fn starts_rise(edges: &[RingEdge]) -> bool
    ensures { result ≡ true → StartsRise edges.now }
{
    edges.is_sorted_by(|edge, next| is_in_order(edge, next))
}

/// The order of two edges: by their lower ends. Mostly the heights tell it, and the edges aren't read.
fn compare_lower_ends(edge: &RingEdge, other: &RingEdge) -> Ordering
    ensures { is_lt result
        ≡ is_lt (point_cmp (lower_end edge.now.edge.now) (lower_end other.now.edge.now)) }
{
    if edge.heights.begin_below(other.heights) {
        return Ordering::Less;
    }
    if other.heights.begin_below(edge.heights) {
        return Ordering::Greater;
    }
    order_points(lower_end(edge.edge), lower_end(other.edge))
}

/// Puts edges in order of their lower ends, where they stand.
///
/// Ways: edges that are in order; all others by a sort.
pub(crate) fn sort_by_lower_ends(edges: &mut Vec<RingEdge>)
    ensures moved { IsPermutation edges.old.items edges.new.items }
    ensures rise { StartsRise edges.new.items }
{
    if starts_rise(edges) {
        return;
    }
    edges.sort_unstable_by(|e, f| compare_lower_ends(e, f));
}

/// Puts a second list of edges into a first, which is in order then if both were.
///
/// This begins at their ends, in the room that the first has behind its edges: so it takes no more memory than an append.
fn merge<'a>(edges: &mut Vec<RingEdge<'a>>, others: &[RingEdge<'a>]) -> Result<(), OutOfMemory>
    ensures { OnOk result (IsPermutation (edges.old.items ++ others.now) edges.new.items) }
{
    let mut left = edges.len();
    let mut rest = others.len();
    edges.extend_from_slice(others)?;
    while rest > 0 {
        if left > 0 && !is_in_order(&edges[left - 1], &others[rest - 1]) {
            left -= 1;
            edges[left + rest] = edges[left];
        } else {
            rest -= 1;
            edges[left + rest] = others[rest];
        }
    }
    Ok(())
}

/// The edges of all rings that aren't horizontal, in order of their lower ends, though no clause says so.
fn sloping_edges<'a>(alloc: Global, rings: &'a [Ring]) -> Result<Vec<RingEdge<'a>>, OutOfMemory>
    ensures { IfOk result (λ v. AreSlopingEdges rings.now v.items) }
{
    // Rings are mostly in order of their least nodes. So if they are small, both lists are nearly in order.
    let count = edge_count(rings);
    let mut up = Vec::with_capacity(alloc, count)?;
    // Of most rings about half run down. With a little more room the list doesn't double.
    let room = (count / 2).saturating_add(count / 16);
    let mut down = Vec::with_capacity(alloc, room)?;
    for (place, ring) in rings.iter().enumerate() {
        push_ring(&mut up, &mut down, ring.as_slice(), place)?;
    }
    sort_by_lower_ends(&mut up);
    sort_by_lower_ends(&mut down);
    merge(&mut up, &down)?;
    Ok(up)
}

/// The edges of all rings that aren't horizontal, in order of their lower ends.
pub(crate) fn rising_edges<'a>(
    alloc: Global,
    rings: &'a [Ring],
) -> Result<Vec<RingEdge<'a>>, OutOfMemory>
    ensures edges { IfOk result (λ v. AreSlopingEdges rings.now v.items) }
    ensures rise { IfOk result (λ v. StartsRise v.items) }
{
    let mut edges = sloping_edges(alloc, rings)?;
    sort_by_lower_ends(&mut edges);
    Ok(edges)
}

/// Where an edge ends, as far as whole numbers tell it, and its place in a list. It takes 12 bytes.
#[derive(Clone, Copy, PartialEq, Eq, PartialOrd, Ord)]
pub(crate) struct Top {
    pub height: i32,
    pub column: i32,
    pub place: u32,
}

/// The top of the edge at a place.
fn top_of(edge: &Edge, place: u32) -> Top {
    match *upper_end(edge) {
        Point::Lattice(at) => Top {
            height: at.y,
            column: at.x,
            place,
        },
        Point::OnVertical { y, .. } => Top {
            height: y.floor,
            column: i32::MAX,
            place,
        },
        Point::OnHorizontal { x, d } => Top {
            height: d,
            column: x.floor,
            place,
        },
    }
}

/// The edges in order of their upper ends. Only speed depends on this order, and on whether each edge is listed: those beyond
/// the greatest place aren't.
pub(crate) fn by_upper_ends(alloc: Global, edges: &[RingEdge]) -> Result<Vec<Top>, OutOfMemory> {
    let mut tops = Vec::with_capacity(alloc, edges.len())?;
    for (place, edge) in edges.iter().enumerate() {
        let Ok(place) = u32::try_from(place) else {
            break;
        };
        tops.push(top_of(edge.edge, place))?;
    }
    tops.sort_unstable();
    Ok(tops)
}
