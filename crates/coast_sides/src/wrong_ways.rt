//! Rings that run the wrong way: against an edge, which has land on its left.

ghost use Rattle.std.specs.Prelude.{◌≡◌, ◌≢◌, ◌++◌, ◌∷◌, [], All, if◌then◌else◌, IfOk, OnOk, false, filter, map, true};
ghost use Rattle.std.specs.List.{list_any};
ghost use Rattle.std.specs.List.Sorted.{IsSorted};
ghost use Rattle.lists.specs.Rising.{IsRising};
ghost use Rattle.osm_geom.specs.WholeSegment.{IsWholeSegment};
ghost use Rattle.osm_lattice.specs.Loc.{loc_cmp};
ghost use Rattle.osm_lattice.specs.Seg.{seg_cmp};
ghost use Rattle.coast_sides.specs.Junctions.{AllRunOn, AreJunctions, RunsOn, is_one_of};
ghost use Rattle.coast_sides.specs.Segments.{steps_round};
ghost use Rattle.coast_sides.specs.Water.{segments_under};
ghost use Rattle.coast_sides.specs.WrongWays.{comes_before, runs_against, runs_between};

use crate::ring_segments::next_round;
use coast_rings::CoastRing;
use lists::is_among;
use osm_geom::{Carrier, Edge, Ids, Loc, Point, Seg, orders_are_exact};
use std::alloc::{AllocError as OutOfMemory, Global};

/// Whether an edge runs along a segment that comes before this one.
fn is_before(edge: &Edge, seg: Seg) -> bool
    ensures { result ≡ comes_before seg edge.now.carrier }
{
    match edge.carrier {
        Carrier::OfSeg(other) => other < seg,
        Carrier::Vertical(_) | Carrier::Horizontal(_) => false,
    }
}

/// Whether an edge runs from one location to another.
fn runs_between(edge: &Edge, from: Loc, to: Loc) -> bool
    ensures { result ≡ runs_between from to edge.now }
{
    if let (Point::Lattice(first), Point::Lattice(last)) = (edge.from, edge.to) {
        return first.cmp(&from).is_eq() && last.cmp(&to).is_eq();
    }
    false
}

/// Whether some edge runs from one location to another, of edges in order of their segments.
fn has_edge(edges: &[Edge], from: Loc, to: Loc) -> bool
    requires whole { All IsWholeSegment edges.now }
    requires rising { IsRising seg_cmp (segments_under edges.now) }
    ensures { result ≡ list_any (runs_between from to) edges.now }
{
    orders_are_exact();
    let Some(seg) = Seg::new(from, to) else {
        return false;
    };
    let place = edges.partition_point(|edge| is_before(edge, seg));
    place < edges.len() && runs_between(&edges[place], from, to)
}

/// Whether a ring that runs along an edge to a node runs along one behind it, too: the node is no junction, and the ring neither
/// stays nor turns back there.
fn goes_on(junctions: &[Loc], before: Loc, node: Loc, after: Loc) -> bool
    requires { IsSorted loc_cmp junctions.now }
    ensures moves { result ≡ true → before ≢ node }
    ensures ahead { result ≡ true → before ≢ after }
    ensures plain { result ≡ true → is_one_of junctions.now node ≡ false }
{
    orders_are_exact();
    before != node && before != after && !is_among(junctions, &node)
}

/// Whether a step of a closed line runs against an edge.
///
/// It looks for an edge where the line begins, and behind each node at which its direction may change.
fn meets(edges: &[Edge], junctions: &[Loc], path: &[Loc]) -> bool
    requires junctions { AreJunctions edges.now junctions.now }
    requires along { RunsOn edges.now junctions.now path.now }
    ensures { result ≡ list_any (λ step. list_any (runs_between step.1 step.0) edges.now)
        (steps_round path.now) }
{
    for place in 0..path.len() {
        let node = path[place];
        let after = path[next_round(place, path.len())];
        if place > 0 && goes_on(junctions, path[place - 1], node, after) {
            continue;
        }
        if has_edge(edges, after, node) {
            return true;
        }
    }
    false
}

/// Adds the name of a ring if it runs the wrong way.
fn add_name(names: &mut Ids, ring: &CoastRing, is_wrong: bool) -> Result<(), OutOfMemory>
    ensures { OnOk result (names.new ≡ names.old
        ++ (if is_wrong then ring.now.name ∷ [] else [])) }
{
    if is_wrong {
        names.push(ring.name)?;
    }
    Ok(())
}

/// The names of those rings one of whose steps runs against an edge, in order.
pub(crate) fn wrong_ways(
    alloc: Global,
    edges: &[Edge],
    junctions: &[Loc],
    rings: &[CoastRing],
) -> Result<Ids, OutOfMemory>
    requires junctions { AreJunctions edges.now junctions.now }
    requires along { AllRunOn edges.now junctions.now rings.now }
    ensures { IfOk result (λ names. names
        ≡ map (λ ring. ring.name) (filter (runs_against edges.now) rings.now)) }
{
    let mut names = Ids::new(alloc);
    for ring in rings {
        let is_wrong = meets(edges, junctions, ring.path.as_slice());
        add_name(&mut names, ring, is_wrong)?;
    }
    Ok(names)
}
