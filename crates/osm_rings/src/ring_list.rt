//! The ring list of a sided list of edges.
ghost use Rattle.std.specs.Prelude.{◌≡◌, ◌<◌, All, IfOk, length, ℕ};
ghost use Rattle.orbits.specs.Along.{AreOrbitsAlong};
ghost use Rattle.orbits.specs.Orbits.{IsOneToOne, after, total_map};
ghost use Rattle.osm_rings.specs.Apart.{LeaveApart};
ghost use Rattle.osm_rings.specs.Departures.{AreDepartures, IsFirstMet, TellStarts};
ghost use Rattle.osm_rings.specs.Numbered.{edge_at};
ghost use Rattle.osm_rings.specs.Pieces.{AreRingsAlong, HaveOwnNumbers, edges_at};
ghost use Rattle.osm_rings.specs.RingList.{AreRingsOf};
ghost use Rattle.osm_geom.specs.InPlane.Multiple.{whole_edges};
ghost use Rattle.osm_geom.specs.InPlane.Sided.{IsSided};

use crate::departure::Departure;
use crate::departures::{are_apart, departures};
use crate::few::walks::few_rings;
use crate::nodes::{Nodes, nodes_of};
use crate::packed::{all_packed, packed_rings};
use crate::pieces::pieces;
use crate::ring::{Ring, Rings};
use crate::successors::successors;
use orbits::{ClosedWalks, cycles};
use osm_geom::{Edge, Edges};
use std::alloc::{AllocError as OutOfMemory, Global};
use std::mem;

/// The nodes that edges leave. Their departures go.
fn nodes_by<'a>(
    alloc: Global,
    edges: &[Edge],
    departures: Vec<Departure<'a>>,
) -> Result<Nodes, OutOfMemory>
    requires { AreDepartures edges.now departures.items }
    ensures sized { IfOk result (λ nodes. length nodes.numbers.items ≡ length edges.now) }
    ensures marked { IfOk result (λ nodes. length nodes.shared.items ≡ length edges.now) }
    ensures below { IfOk result (λ nodes. All (λ k. k < length edges.now) nodes.numbers.items) }
    ensures tell { IfOk result (λ nodes. TellStarts edges.now nodes.numbers.items) }
    ensures own { IfOk result (λ nodes. HaveOwnNumbers nodes.numbers.items nodes.shared.items) }
{
    nodes_of(alloc, edges, &departures)
}

/// The closed walks of a map in which each place goes on. The map goes.
fn walks_of(alloc: Global, next: Vec<usize>) -> Result<ClosedWalks, OutOfMemory>
    requires { IsOneToOne (total_map next.items) }
    ensures { IfOk result
        (λ v. AreOrbitsAlong (total_map next.items) v.places.items v.sizes.items) }
{
    cycles(alloc, &next)
}

/// The walks of successors, however many edges meet at a node, cut where they return to one.
fn cut_walks<'a>(
    alloc: Global,
    edges: &[Edge],
    departures: Vec<Departure<'a>>,
    next: Vec<usize>,
) -> Result<ClosedWalks, OutOfMemory>
    requires sided { IsSided edges.now }
    requires departures { AreDepartures edges.now departures.items }
    requires sized { length next.items ≡ length edges.now }
    requires first { (i : ℕ) → i < length edges.now
        → IsFirstMet (whole_edges edges.now) (edge_at (whole_edges edges.now) i)
        (after (total_map next.items) i) }
    ensures { IfOk result (λ v. AreRingsAlong edges.now v.places.items v.sizes.items) }
{
    let nodes = nodes_by(alloc, edges, departures)?;
    let walks = walks_of(alloc, next)?;
    pieces(alloc, &walks.places, &walks.sizes, &nodes)
}

/// The walks of successors if no two edges leave one point: none is cut.
fn whole_walks(alloc: Global, edges: &[Edge], next: Vec<usize>) -> Result<ClosedWalks, OutOfMemory>
    requires sided { IsSided edges.now }
    requires apart { LeaveApart edges.now }
    requires sized { length next.items ≡ length edges.now }
    requires first { (i : ℕ) → i < length edges.now
        → IsFirstMet (whole_edges edges.now) (edge_at (whole_edges edges.now) i)
        (after (total_map next.items) i) }
    ensures { IfOk result (λ v. AreRingsAlong edges.now v.places.items v.sizes.items) }
{
    walks_of(alloc, next)
}

/// The walks of a sided list of edges, of which each is a ring. If no two edges leave one point, no walk needs to be cut.
///
/// Ways: edges of which no two leave one point by whole walks; all others by walks that are cut.
fn ring_walks(alloc: Global, edges: &[Edge]) -> Result<ClosedWalks, OutOfMemory>
    requires { IsSided edges.now }
    ensures { IfOk result (λ v. AreRingsAlong edges.now v.places.items v.sizes.items) }
{
    let departures = departures(alloc, edges)?;
    let next = successors(alloc, edges, &departures)?;
    if are_apart(&departures) {
        // They are freed before the walks are made.
        mem::drop(departures);
        return whole_walks(alloc, edges, next);
    }
    cut_walks(alloc, edges, departures, next)
}

/// The rings along walks of edges, which go.
///
/// Ways: edges that all run along whole segments, packed, so that they go before the rings are made; all others as they are.
fn rings_by_walks(alloc: Global, edges: Edges, walks: ClosedWalks) -> Result<Rings, OutOfMemory>
    requires { AreRingsAlong edges walks.places.items walks.sizes.items }
    ensures { IfOk result (λ v. AreRingsOf edges v) }
{
    let Some(all) = all_packed(alloc, edges.as_slice())? else {
        return rings_along(alloc, edges.as_slice(), &walks.places, &walks.sizes);
    };
    mem::drop(edges);
    packed_rings(alloc, &all, &walks.places, &walks.sizes)
}

/// The rings of a sided list of edges, between any points. If all edges run along whole segments, they go before the rings are made.
///
/// Each edge is in exactly one ring, once, and the edges of a ring are in one walk of successors. By the law
/// `rings_do_not_cross` no two rings cross. It takes time n log n, however many edges meet at a node. Fails only if memory
/// runs out.
///
/// Ways: up to 32 edges of which no two leave one point (few); all others by sorted departures.
pub fn rings(alloc: Global, edges: Edges) -> Result<Rings, OutOfMemory>
    requires { IsSided edges }
    ensures { IfOk result (λ v. AreRingsOf edges v) }
{
    if let Some(rings) = few_rings(alloc, edges.as_slice())? {
        return Ok(rings);
    }
    let walks = ring_walks(alloc, edges.as_slice())?;
    rings_by_walks(alloc, edges, walks)
}

/// The edges at these places.
pub fn edges_at(alloc: Global, edges: &[Edge], places: &[usize]) -> Result<Vec<Edge>, OutOfMemory>
    requires { All (λ k. k < length edges.now) places.now }
    ensures { IfOk result (λ v. v.items ≡ edges_at edges.now places.now) }
{
    let mut found = Vec::with_capacity(alloc, places.len())?;
    for &place in places {
        found.push(edges[place])?;
    }
    Ok(found)
}

/// The rings along walks. `places` has the walks one after the other, and `sizes` how many places each has.
pub fn rings_along(
    alloc: Global,
    edges: &[Edge],
    places: &[usize],
    sizes: &[usize],
) -> Result<Rings, OutOfMemory>
    requires { AreRingsAlong edges.now places.now sizes.now }
    ensures { IfOk result (λ v. AreRingsOf edges.now v) }
{
    let mut rings = Rings::with_capacity(alloc, sizes.len())?;
    let mut left = places;
    for &size in sizes {
        let (walk, rest) = left.split_at(size);
        rings.push(Ring::of_edges(edges_at(alloc, edges, walk)?))?;
        left = rest;
    }
    Ok(rings)
}
