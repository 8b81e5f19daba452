//! What becomes of chains once gaps are closed.

ghost use Rattle.std.specs.Prelude.{◌≡◌, ◌<◌, not, All, IfOk, filter, length, map, List, ℕ};
ghost use Rattle.std.specs.List.{AllZip};
ghost use Rattle.std.specs.List.Sorted.{IsPermutation, IsSortedByKey};
ghost use Rattle.std.specs.Ordering.{int_cmp};
ghost use Rattle.coast_join.specs.declared.chain.Chain.{Chain};
ghost use Rattle.coast_rings.specs.declared.ring.CoastRing.{CoastRing};
ghost use Rattle.coast_join.specs.declared.way.CoastWay.{CoastWay};
ghost use Rattle.coast_join.specs.Chains.{AreChains};
ghost use Rattle.coast_join.specs.Closings.{AreClosings};
ghost use Rattle.coast_join.specs.Joined.{AreJoined, IsCoastRing, IsUnclosed, chains_at, is_closed_orbit};
ghost use Rattle.coast_join.specs.JoinSteps.{AreParts};

use crate::chain::{Chain, Chains};
use crate::gap::Closings;
use crate::joined::Joined;
use crate::laws::{names_rise, unclosed_ends_differ};
use crate::ring_laws::closed_ends_differ;
use crate::ring_making::{gap_links, next_chains, ring_of, unclosed_of};
use coast_rings::{CoastRing, CoastRings};
use orbits::{each_stands_once, orbits};
use std::alloc::{AllocError as OutOfMemory, Global};

/// Whether the last chain of an orbit goes on.
fn is_closed_orbit(next: &[Option<usize>], orbit: &[usize]) -> bool
    requires some { 0 < length orbit.now }
    requires inside { All (λ k. k < length next.now) orbit.now }
    ensures { result ≡ is_closed_orbit next.now orbit.now }
{
    let end = orbit[orbit.len() - 1];
    next[end].is_some()
}

/// The unclosed chains, in order of their first chains.
fn unclosed(
    alloc: Global,
    chains: &[Chain],
    next: &[Option<usize>],
    orbits: &[Vec<usize>],
) -> Result<Chains, OutOfMemory>
    requires sized { length next.now ≡ length chains.now }
    requires parts { All (AreParts chains.now) (map (λ o. o.items) orbits.now) }
    ensures { IfOk result (λ v. AllZip (λ o c. IsUnclosed (chains_at chains.now o) c)
        (filter (λ o. not (is_closed_orbit next.now o)) (map (λ o. o.items) orbits.now))
        v) }
{
    let mut unclosed = Chains::new(alloc);
    for orbit in orbits {
        if !is_closed_orbit(next, orbit) {
            unclosed.push(unclosed_of(alloc, chains, orbit)?)?;
        }
    }
    Ok(unclosed)
}

/// The rings, in order of their first chains.
fn rings(
    alloc: Global,
    chains: &[Chain],
    next: &[Option<usize>],
    orbits: &[Vec<usize>],
) -> Result<Vec<CoastRing>, OutOfMemory>
    requires sized { length next.now ≡ length chains.now }
    requires parts { All (AreParts chains.now) (map (λ o. o.items) orbits.now) }
    ensures { IfOk result (λ v. AllZip (λ o r. IsCoastRing (chains_at chains.now o) r)
        (filter (is_closed_orbit next.now) (map (λ o. o.items) orbits.now))
        v.items) }
{
    let mut rings = Vec::new(alloc);
    for orbit in orbits {
        if is_closed_orbit(next, orbit) {
            rings.push(ring_of(alloc, chains, orbit)?)?;
        }
    }
    Ok(rings)
}

/// Rings in order of name.
fn by_name(mut rings: Vec<CoastRing>) -> Result<CoastRings, OutOfMemory>
    ensures same { IfOk result (λ v. IsPermutation rings.items v) }
    ensures by_name { IfOk result (λ v. IsSortedByKey (λ (r : CoastRing). r.name) int_cmp v) }
{
    rings.sort_by_key(|ring| ring.name)?;
    Ok(CoastRings::from_vec(rings))
}

/// What becomes of chains once gaps are closed: the rings, and the chains that stay unclosed.
///
/// A ring is named by the least of its ways and begins with the chain of the least name. One round Antarctica goes on to the
/// two southern corners. Of equal neighbours one is taken, the last and the first included. The chains are what `chains`
/// gives, and the closings what `closings` gives of them for some limit. Fails only if memory runs out.
pub fn closed_rings(
    alloc: Global,
    chains: &[Chain],
    closings: &Closings,
) -> Result<Joined, OutOfMemory>
    requires are_chains { (ways : List CoastWay) × AreChains ways chains.now }
    requires are_closings { (limit : ℕ) × AreClosings chains.now limit closings.now }
    ensures { IfOk result (λ joined. AreJoined chains.now closings.now joined) }
{
    each_stands_once();
    names_rise();
    unclosed_ends_differ();
    closed_ends_differ();
    let links = gap_links(alloc, closings.gaps.as_slice(), chains.len())?;
    let next = next_chains(alloc, chains, &links)?;
    let orbits = orbits(alloc, &next)?;
    let unclosed = unclosed(alloc, chains, &next, &orbits)?;
    let rings = rings(alloc, chains, &next, &orbits)?;
    let rings = by_name(rings)?;
    Ok(Joined { rings, unclosed })
}
