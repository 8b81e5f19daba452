//! Rings that begin at their least nodes, in order.
ghost use Rattle.std.specs.Prelude.{◌≡◌, IfOk, IsPermutation, length, slice_index_or, true};
ghost use Rattle.osm_geom.specs.declared.edge.Edge.{Edge};
ghost use Rattle.osm_nest.specs.Grouped.{AreTurned, ArePlacesSorted, AreStartsSorted, placed_from};
ghost use Rattle.osm_nest.specs.Nested.{edge_cmp};

use osm_geom::{Edge, order_points};
use osm_rings::Ring;
use std::alloc::{AllocError as OutOfMemory, Global};
use std::cmp::Ordering;

/// A ring that begins at its least node, and its place in the given list.
#[derive(Drop)]
pub struct RingFromLeast {
    pub place: usize,
    pub ring: Ring,
}

/// The order of edges: by the node that one leaves, then by the node that it enters.
pub(crate) fn compare_starts(edge: &Edge, other: &Edge) -> Ordering
    ensures { result ≡ edge_cmp edge.now other.now }
{
    match order_points(&edge.from, &other.from) {
        Ordering::Equal => order_points(&edge.to, &other.to),
        order => order,
    }
}

/// The order of rings: by their first edges.
fn compare_rings(ring: &Ring, other: &Ring) -> Ordering
    ensures { (d : Edge) → result
        ≡ edge_cmp (slice_index_or ring.now 0 d) (slice_index_or other.now 0 d) }
{
    compare_starts(&ring.as_slice()[0], &other.as_slice()[0])
}

/// The rings, each turned in place so that it begins at its least node.
pub(crate) fn turned(rings: Vec<Ring>) -> Vec<Ring>
    ensures { AreTurned rings.items result.items }
{
    let mut rings = rings;
    for place in 0..rings.len() {
        rings[place].turn_to_least();
    }
    rings
}

/// Whether no ring begins before the one before it.
pub(crate) fn are_in_order(rings: &[Ring]) -> bool
    ensures { result ≡ true → AreStartsSorted rings.now }
{
    rings.is_sorted_by(|ring, next| !compare_rings(next, ring).is_lt())
}

/// The rings with their places.
fn placed(alloc: Global, rings: Vec<Ring>) -> Result<Vec<RingFromLeast>, OutOfMemory>
    ensures { IfOk result (λ v. v.items ≡ placed_from 0 rings.items) }
{
    let mut placed = Vec::with_capacity(alloc, rings.len())?;
    for ring in rings {
        let place = placed.len();
        placed.push(RingFromLeast { place, ring })?;
    }
    Ok(placed)
}

/// The rings with their places, in order of their first edges.
pub(crate) fn sorted(alloc: Global, rings: Vec<Ring>) -> Result<Vec<RingFromLeast>, OutOfMemory>
    ensures moved { IfOk result (λ v. IsPermutation (placed_from 0 rings.items) v.items) }
    ensures order { IfOk result (λ v. ArePlacesSorted v.items) }
{
    let mut begun = placed(alloc, rings)?;
    begun.sort_by(|begun, other| compare_rings(&begun.ring, &other.ring))?;
    Ok(begun)
}
