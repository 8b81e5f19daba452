//! Outer and inner rings, by their anchors.
ghost use Rattle.std.specs.Prelude.{◌≡◌, ◌<◌, ◌&&◌, ◌||◌, ◌↔◌, cond, false, not, true};
ghost use Rattle.std.specs.Ordering.{is_lt};
ghost use Rattle.std.specs.declared.cmp.Ordering.TheVariants.{Equal};
ghost use Rattle.osm_geom.specs.Edge.{runs_up};
ghost use Rattle.osm_geom.specs.Point.{point_cmp};
ghost use Rattle.osm_geom.specs.Span.{lower_end, upper_end};
ghost use Rattle.osm_nest.specs.Leftmost.{IsPlaceBefore, comes_first, forks_left};
ghost use Rattle.osm_nest.specs.Outer.{AreConflictFree, IsAnchorOf, IsInner, IsOuter, WindsBySign};
ghost use Rattle.osm_rings.specs.Ring.{IsRing};

use osm_geom::{Edge, Point, compare_just_above, order_points, spans_height};
use osm_rings::Ring;
use std::cmp::Ordering;

/// Whether a ring without conflicts among its edges is outer: its anchor runs down. Otherwise it is inner.
///
/// The anchor is at the ring's least node, and is the leftmost of the edges that rise from there. Round an outer ring the
/// inside is on the left, so it counts 1 at each point that it covers; an inner one counts -1.
pub fn is_outer(ring: &Ring) -> bool
    requires { AreConflictFree ring.now }
    ensures anchor { (result ≡ true) ↔ IsOuter ring.now }
    ensures inner { (result ≡ false) ↔ IsInner ring.now }
    ensures sign { WindsBySign result ring.now }
{
    !is_rising(anchor(ring))
}

/// The place before another one, going round a list of `size` items.
fn place_before(place: usize, size: usize) -> usize
    requires { place < size }
    ensures { IsPlaceBefore size place result }
{
    if place == 0 { size - 1 } else { place - 1 }
}

/// The anchor of a ring: the first of the two edges at its least node.
pub(crate) fn anchor(ring: &Ring) -> &Edge
    requires { AreConflictFree ring.now }
    ensures anchor { IsAnchorOf result.now ring.now }
    ensures ring { IsRing ring.now }
{
    let edges = ring.as_slice();
    let least = ring.least_place();
    let before = place_before(least, edges.len());
    first_of(&edges[before], &edges[least])
}

/// The one of two edges that comes first.
pub(crate) fn first_of<'a>(e: &'a Edge, f: &'a Edge) -> &'a Edge
    ensures { result.now ≡ cond (comes_first e.now f.now) e.now f.now }
{
    if comes_first(e, f) { e } else { f }
}

/// Whether `e` has the lesser lower end, or the same one as `f`, and `f` doesn't run to the left of it.
#[tactic(auto, unfolding(crate::specs::Leftmost::comes_first))]
fn comes_first(e: &Edge, f: &Edge) -> bool
    ensures { result ≡ comes_first e.now f.now }
{
    match order_points(lower_end(e), lower_end(f)) {
        Ordering::Less => true,
        Ordering::Equal => !forks_left(e, f),
        Ordering::Greater => false,
    }
}

/// Whether `f` runs to the left of `e`, if both have one lower end. A horizontal edge runs to the right of all others.
#[tactic(auto, unfolding(crate::specs::Leftmost::forks_left))]
fn forks_left(e: &Edge, f: &Edge) -> bool
    ensures { result ≡ forks_left e.now f.now }
{
    let at = lower_end(e);
    spans_height(f, at) && (!spans_height(e, at) || compare_just_above(f, e, at).is_lt())
}

/// The lower end of an edge, or the left one of a horizontal edge.
pub(crate) fn lower_end(edge: &Edge) -> &Point
    ensures { result.now ≡ lower_end edge.now }
{
    if is_rising(edge) {
        &edge.from
    } else {
        &edge.to
    }
}

/// The upper end of an edge, or the right one of a horizontal edge.
pub(crate) fn upper_end(edge: &Edge) -> &Point
    ensures { result.now ≡ upper_end edge.now }
{
    if is_rising(edge) {
        &edge.to
    } else {
        &edge.from
    }
}

/// Whether an edge runs up, or to the right.
#[tactic(auto, unfolding(osm_geom::specs::Point::point_cmp))]
pub(crate) fn is_rising(edge: &Edge) -> bool
    ensures { result ≡ runs_up edge.now }
{
    order_points(&edge.from, &edge.to).is_lt()
}
