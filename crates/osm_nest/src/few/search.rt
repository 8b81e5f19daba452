//! The ring that directly encloses another, searched among all edges.
ghost use Rattle.std.specs.Prelude.{◌≡◌, ◌<◌, IfSome, cond, length};
ghost use Rattle.std.specs.Ordering.{is_lt};
ghost use Rattle.osm_geom.specs.Span.{lower_end};
ghost use Rattle.osm_nest.specs.Beside.{IsBestUpTo, IsEncloserAt, IsNearestRight, IsRightOf, IsSloping, nearer_encloser, is_around, is_nearer, is_right_of_lower_end, nearer_edge};
ghost use Rattle.osm_nest.specs.Anchors.{AreAnchors};
ghost use Rattle.osm_nest.specs.Enclosers.{IsDirectEncloser, TellOuter};
ghost use Rattle.osm_nest.specs.RingLists.{AreRings};

use crate::outer::lower_end;
use crate::ring_anchors::Anchors;
use osm_geom::{Edge, compare_just_above, spans_height};
use osm_rings::Ring;

/// A ring that lies round an anchor, by its place, and the nearest of its edges right of the anchor.
#[derive(Clone, Copy)]
pub(crate) struct Encloser {
    pub place: usize,
    pub edge: Edge,
}

/// The place of the ring that directly encloses the one at a place, searched among all edges; None for an outer ring.
pub(crate) fn searched_encloser(rings: &[Ring], anchors: &Anchors, place: usize) -> Option<usize>
    requires rings { AreRings rings.now }
    requires anchors { AreAnchors rings.now anchors.now }
    requires inside { place < length rings.now }
    ensures { IsDirectEncloser rings.now place result }
{
    if anchors.outer[place] {
        return None;
    }
    match nearest_encloser(rings, &anchors.outer, anchors.edges[place].edge) {
        Some(found) => Some(found.place),
        None => None,
    }
}

/// The encloser with the nearest edge right of the anchor.
///
/// It is taken among the outer rings that have an odd number of edges right of the anchor.
fn nearest_encloser(rings: &[Ring], outer: &[bool], anchor: &Edge) -> Option<Encloser>
    requires rings { AreRings rings.now }
    requires sized { length outer.now ≡ length rings.now }
    requires outer { TellOuter rings.now outer.now }
    requires anchor { IsSloping anchor.now }
    ensures { IsBestUpTo rings.now anchor.now (length rings.now) result }
{
    let mut best = None;
    for place in 0..rings.len() {
        best = nearer_encloser(best, encloser_at(rings, outer, place, anchor), anchor);
    }
    best
}

/// The nearest edge right of the anchor that belongs to the ring at a place.
///
/// There is one only if the ring is outer and has an odd number of such edges.
fn encloser_at(rings: &[Ring], outer: &[bool], place: usize, anchor: &Edge) -> Option<Encloser>
    requires sized { length outer.now ≡ length rings.now }
    requires outer { TellOuter rings.now outer.now }
    requires inside { place < length rings.now }
    requires anchor { IsSloping anchor.now }
    ensures { IsEncloserAt rings.now anchor.now place result }
{
    let ring = rings[place].as_slice();
    if !outer[place] || !is_around(ring, anchor) {
        return None;
    }
    match nearest_right(ring, anchor) {
        Some(edge) => Some(Encloser { place, edge }),
        None => None,
    }
}

/// The one of two enclosers whose edge is nearer to the anchor.
fn nearer_encloser(
    best: Option<Encloser>,
    next: Option<Encloser>,
    anchor: &Edge,
) -> Option<Encloser>
    requires anchor { IsSloping anchor.now }
    requires first { IfSome best (λ c. IsRightOf anchor.now c.edge) }
    requires second { IfSome next (λ c. IsRightOf anchor.now c.edge) }
    ensures { result ≡ nearer_encloser anchor.now best next }
{
    match (best, next) {
        (Some(found), Some(other)) => {
            if is_nearer(&other.edge, &found.edge, anchor) {
                next
            } else {
                best
            }
        }
        (Some(_), None) => best,
        (None, _) => next,
    }
}

/// Whether an odd number of edges are right of the anchor.
pub(crate) fn is_around(edges: &[Edge], anchor: &Edge) -> bool
    requires anchor { IsSloping anchor.now }
    ensures { result ≡ is_around anchor.now edges.now }
{
    let mut odd = false;
    for edge in edges {
        odd = odd != is_right_of_lower_end(edge, anchor);
    }
    odd
}

/// The nearest of the edges right of the anchor.
pub(crate) fn nearest_right(edges: &[Edge], anchor: &Edge) -> Option<Edge>
    requires anchor { IsSloping anchor.now }
    ensures { IsNearestRight anchor.now edges.now result }
{
    let mut nearest = None;
    for edge in edges {
        nearest = nearer_edge(nearest, *edge, anchor);
    }
    nearest
}

/// The next edge if it is right of the anchor and nearer than the one found; otherwise the one found.
fn nearer_edge(found: Option<Edge>, next: Edge, anchor: &Edge) -> Option<Edge>
    requires anchor { IsSloping anchor.now }
    requires found { IfSome found (λ e. IsRightOf anchor.now e) }
    ensures { result ≡ nearer_edge anchor.now found next }
{
    if !is_right_of_lower_end(&next, anchor) {
        return found;
    }
    match found {
        Some(edge) => Some(closer_edge(edge, next, anchor)),
        None => Some(next),
    }
}

/// The nearer of two edges right of the anchor.
fn closer_edge(edge: Edge, next: Edge, anchor: &Edge) -> Edge
    requires anchor { IsSloping anchor.now }
    requires first { IsRightOf anchor.now edge }
    requires second { IsRightOf anchor.now next }
    ensures { result ≡ cond (is_nearer anchor.now next edge) next edge }
{
    if is_nearer(&next, &edge, anchor) {
        next
    } else {
        edge
    }
}

/// Whether an edge spans the lower end of the anchor, and is right of the anchor just above it.
#[tactic(auto, unfolding(crate::specs::Beside::is_right_of_lower_end))]
fn is_right_of_lower_end(edge: &Edge, anchor: &Edge) -> bool
    requires anchor { IsSloping anchor.now }
    ensures { result ≡ is_right_of_lower_end anchor.now edge.now }
{
    let at = lower_end(anchor);
    spans_height(edge, at) && compare_just_above(anchor, edge, at).is_lt()
}

/// Whether the first of two edges right of the anchor is left of the second.
#[tactic(auto, using(crate::proofs::Beside::right_spans), unfolding(crate::specs::Beside::is_nearer))]
fn is_nearer(edge: &Edge, other: &Edge, anchor: &Edge) -> bool
    requires anchor { IsSloping anchor.now }
    requires first { IsRightOf anchor.now edge.now }
    requires second { IsRightOf anchor.now other.now }
    ensures { result ≡ is_nearer anchor.now edge.now other.now }
{
    compare_just_above(edge, other, lower_end(anchor)).is_lt()
}
