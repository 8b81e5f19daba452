//! The rings of a few edges of which no two leave one point, as in nearly all areas: walks along the edges themselves.
//!
//! The general way gives the same rings. Only speed depends on this one: it takes no memory but that of the rings.
ghost use Rattle.std.specs.Prelude.{◌≡◌, ◌<◌, ◌≤◌, IfOk, IfSome, false, length, slice_index_or, take};
ghost use Rattle.std.specs.Ordering.{is_eq};
ghost use Rattle.osm_geom.specs.Point.{point_cmp};
ghost use Rattle.osm_geom.specs.InPlane.Sided.{IsSided};
ghost use Rattle.osm_rings.specs.Apart.{IsFirstLeaving};
ghost use Rattle.osm_rings.specs.RingList.{AreRingsOf};
ghost use Rattle.osm_rings.specs.Walked.{AreMarked, AreNoted, IsFresh, IsNoted};

use crate::ring::Rings;
use crate::ring_list::rings_along;
use osm_geom::{Edge, Point, order_points};
use std::alloc::{AllocError as OutOfMemory, Global};

/// At most this many edges are searched one by one; more are sorted.
pub const FEW: usize = 32;

/// Whether two points are equal.
#[inline]
fn is_same_point(p: &Point, q: &Point) -> bool
    ensures { result ≡ is_eq (point_cmp p.now q.now) }
{
    match (p, q) {
        // For two different points it mostly reads one coordinate. Only speed depends on it.
        (Point::Lattice(p), Point::Lattice(q)) => *p == *q,
        _ => order_points(p, q).is_eq(),
    }
}

/// The place of the first edge that leaves a point.
fn place_leaving(edges: &[Edge], p: &Point) -> Option<usize>
    ensures { IsFirstLeaving edges.now p.now result }
{
    for (place, edge) in edges.iter().enumerate() {
        if is_same_point(&edge.from, p) {
            return Some(place);
        }
    }
    None
}

/// The first place from one on that isn't marked.
fn fresh_from(passed: &[bool], from: usize) -> Option<usize>
    ensures { IfSome result (λ place. IsFresh passed.now place) }
{
    for place in from..passed.len() {
        if !passed[place] {
            return Some(place);
        }
    }
    None
}

/// Walks from a fresh place on, from each edge to the first that leaves its end, and notes the places after earlier ones.
///
/// It gives how many it notes, if the walk leads back to its start and to no other place that was passed before.
fn walk_from(
    edges: &[Edge],
    start: usize,
    done: usize,
    passed: &mut [bool; FEW],
    places: &mut [usize; FEW],
) -> Option<usize>
    requires few { length edges.now ≤ 32 }
    requires inside { start < length edges.now }
    requires fresh { IsFresh passed.old start }
    requires marked { AreMarked (length edges.now) passed.old (take done places.old) }
    ensures { IfSome result (λ size. IsNoted edges.now done size places.old places.new passed.new) }
{
    let mut place = start;
    // No walk is longer, since its places differ.
    for end in done..edges.len() {
        places[end] = place;
        passed[place] = true;
        let next = place_leaving(edges, &edges[place].to)?;
        if passed[next] {
            return (next == start).then_some(end + 1 - done);
        }
        place = next;
    }
    None
}

/// The walks of few edges: how many there are, their places one after the other, and how many places each has.
///
/// There are none if there are more edges, if two leave one point, or if a walk doesn't lead back. Each walk begins at the
/// first place that no earlier walk passes, so its rings have the order of the general way.
pub fn few_walks(
    edges: &[Edge],
    places: &mut [usize; FEW],
    sizes: &mut [usize; FEW],
) -> Option<usize>
    ensures { IfSome result (λ count. AreNoted edges.now count places.new sizes.new) }
{
    if edges.len() > FEW {
        return None;
    }
    let mut passed = [false; FEW];
    let mut start = 0;
    let mut done = 0;
    let mut count = 0;
    while done < edges.len() {
        start = fresh_from(&passed[..edges.len()], start)?;
        let size = walk_from(edges, start, done, &mut passed, places)?;
        sizes[count] = size;
        count += 1;
        done += size;
    }
    Some(count)
}

/// The rings of a sided list of few edges of which no two leave one point; None if it isn't such a list.
pub fn few_rings(alloc: Global, edges: &[Edge]) -> Result<Option<Rings>, OutOfMemory>
    requires { IsSided edges.now }
    ensures { IfOk result (λ found. IfSome found (λ v. AreRingsOf edges.now v)) }
{
    let mut places = [0; FEW];
    let mut sizes = [0; FEW];
    let Some(count) = few_walks(edges, &mut places, &mut sizes) else {
        return Ok(None);
    };
    let rings = rings_along(alloc, edges, &places[..edges.len()], &sizes[..count])?;
    Ok(Some(rings))
}
