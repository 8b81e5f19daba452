//! The successor of each edge: the first edge that is met when turning clockwise from the direction back.
ghost use Rattle.std.specs.Prelude.{◌≡◌, ◌<◌, All, Contains, IfNone, IfOk, IfSome, List, [], false, length, ℕ};
ghost use Rattle.plane.specs.Vector.{east};
ghost use Rattle.osm_geom.specs.declared.edge.Edge.{Edge};
ghost use Rattle.osm_geom.specs.Dir.{vector_along};
ghost use Rattle.osm_geom.specs.Edge.{direction_of, opposite};
ghost use Rattle.orbits.specs.Orbits.{after, total_map};
ghost use Rattle.osm_geom.specs.InPlane.Multiple.{edge_times, product_of_denominators, whole_edges};
ghost use Rattle.osm_geom.specs.InPlane.Sided.{IsSided};
ghost use Rattle.lists.specs.Member.{In};
ghost use Rattle.osm_rings.specs.Clockwise.{is_met_before};
ghost use Rattle.osm_rings.specs.Numbered.{edge_at};
ghost use Rattle.osm_rings.specs.Departures.{AreClockwise, AreClockwiseRound, AreRising, AreDepartures, IsFirstMet};

use crate::departure::Departure;
use crate::departures::{EAST, leaving};
use crate::keys::keys_of;
use osm_geom::{Dir, Edge, clockwise, sort_key};
use std::alloc::{AllocError as OutOfMemory, Global};

/// The keys of both ends of a horizontal edge differ by less than this.
const LEVEL: i64 = 1 << 31;

/// The direction back along an edge, from its end.
fn back(edge: &Edge) -> Dir
    ensures { vector_along result ≡ opposite (direction_of edge.now) }
{
    let dir = edge.dir();
    Dir {
        dx: 0 - dir.dx,
        dy: 0 - dir.dy,
    }
}

/// Whether `dir` is met after `from` when turning clockwise from the east.
fn lies_after(dir: Dir, from: Dir) -> bool
    ensures { result ≡ is_met_before east (vector_along from) (vector_along dir) }
{
    clockwise(EAST, from, dir).is_lt()
}

/// The first of these departures that is met when turning clockwise from `from`.
///
/// It is the first that lies after it, or the first of all if none does.
fn first_met<'a, 'b>(departures: &'b [Departure<'a>], from: Dir) -> Option<&'b Departure<'a>>
    requires { AreClockwise departures.now }
    ensures none { IfNone result (departures.now ≡ []) }
    ensures member { IfSome result (λ w. Contains departures.now w.now) }
    ensures first { IfSome result
        (λ w. All (λ v. is_met_before (vector_along from) (direction_of v.edge.now)
        (direction_of w.now.edge.now) ≡ false) departures.now) }
{
    let after = departures.partition_point(|departure| !lies_after(departure.edge.dir(), from));
    departures.get(after).or(departures.first())
}

/// The same for the direction back along an edge. Mostly there is one departure.
fn first_met_back<'a, 'b>(departures: &'b [Departure<'a>], edge: &Edge) -> Option<&'b Departure<'a>>
    requires { AreClockwise departures.now }
    ensures none { IfNone result (departures.now ≡ []) }
    ensures member { IfSome result (λ w. Contains departures.now w.now) }
    ensures first { IfSome result
        (λ w. All (λ v. is_met_before (opposite (direction_of edge.now)) (direction_of v.edge.now)
        (direction_of w.now.edge.now) ≡ false) departures.now) }
{
    if departures.len() == 1 {
        return departures.first();
    }
    first_met(departures, back(edge))
}

/// Which of four ways an edge runs: up, right, left or down.
fn heading(edge: &Edge) -> usize
    ensures { result < 4 }
{
    let rise = sort_key(edge.to).wrapping_sub(sort_key(edge.from));
    if rise > LEVEL {
        0
    } else if rise > 0 {
        1
    } else if rise > -LEVEL {
        2
    } else {
        3
    }
}

/// The place of the successor of an edge, among the edges of the departures. The search starts at `near`.
fn successor(departures: &[Departure], keys: &[i64], near: &mut usize, edge: &Edge) -> Option<usize>
    requires rising { AreRising departures.now }
    requires round { AreClockwiseRound departures.now }
    ensures { (es : List Edge) → AreDepartures es departures.now → In edge.now es
        → IsFirstMet (whole_edges es) (edge_times (product_of_denominators es) edge.now) result }
{
    let departure = first_met_back(leaving(departures, keys, near, edge.to), edge)?;
    Some(departure.place)
}

/// For each edge of a sided list the place of its successor.
pub fn successors(
    alloc: Global,
    edges: &[Edge],
    departures: &[Departure],
) -> Result<Vec<usize>, OutOfMemory>
    requires sided { IsSided edges.now }
    requires departures { AreDepartures edges.now departures.now }
    ensures sized { IfOk result (λ v. length v.items ≡ length edges.now) }
    ensures first { IfOk result (λ v. (i : ℕ) → i < length edges.now
        → IsFirstMet (whole_edges edges.now) (edge_at (whole_edges edges.now) i)
        (after (total_map v.items) i)) }
{
    let keys = keys_of(alloc, departures)?;
    // Edges with the same heading mostly end in list order, so each finds its successor near that of the last one.
    let mut near = [0; 4];
    let mut next = Vec::with_capacity(alloc, edges.len())?;
    for edge in edges {
        let way = heading(edge);
        match successor(departures, &keys, &mut near[way], edge) {
            Some(place) => next.push(place)?,
            None => unreachable!(),
        }
    }
    Ok(next)
}
