//! Chains joined to rings.

ghost use Rattle.std.specs.Prelude.{◌≡◌, ◌≢◌, ◌<◌, ◌++◌, if◌then◌else◌, All, AllPairs, IfOk, OnOk, Some, length};
ghost use Rattle.std.specs.List.{list_any};
ghost use Rattle.osm_lattice.specs.declared.loc.Loc.{Loc};
ghost use Rattle.coast_join.specs.declared.chain.Chain.{Chain};
ghost use Rattle.coast_join.specs.declared.gap.Gap.{Gap};
ghost use Rattle.coast_join.specs.Closings.{is_antarctic, is_open};
ghost use Rattle.coast_join.specs.Joined.{IsCoastRing, IsLeast, IsUnclosed, chains_at, corners, locations_along, ring_path, ways_of};
ghost use Rattle.coast_rings.specs.Corners.{south_east, south_west};
ghost use Rattle.coast_join.specs.JoinSteps.{AreGapLinks, AreNextBy, AreParts};
ghost use Rattle.coast_rings.specs.Round.{IsRound};

use crate::chain::Chain;
use crate::closing::{is_antarctic, is_open};
use crate::gap::Gap;
use coast_rings::{CoastRing, round_path};
use osm_geom::{Ids, Loc, Path, orders_are_exact};
use std::alloc::{AllocError as OutOfMemory, Global};

/// For each chain the one to which a gap leads from its end.
pub(crate) fn gap_links(
    alloc: Global,
    gaps: &[Gap],
    chains: usize,
) -> Result<Vec<Option<usize>>, OutOfMemory>
    requires from { All (λ (g : Gap). g.from_chain < chains) gaps.now }
    requires apart { AllPairs (λ (g : Gap) (h : Gap). g.from_chain ≢ h.from_chain) gaps.now }
    ensures { IfOk result (λ v. AreGapLinks gaps.now chains v.items) }
{
    let mut links = vec![in alloc; None; chains]?;
    for &gap in gaps {
        links[gap.from_chain] = Some(gap.to_chain);
    }
    Ok(links)
}

/// What the chain at a place goes on to: where its link leads if it is open, and otherwise itself.
fn goes_on(chain: &Chain, link: Option<usize>, place: usize) -> Option<usize>
    ensures { result ≡ (if is_open chain.now then link else Some place) }
{
    if is_open(chain) { link } else { Some(place) }
}

/// What each chain goes on to.
pub(crate) fn next_chains(
    alloc: Global,
    chains: &[Chain],
    links: &[Option<usize>],
) -> Result<Vec<Option<usize>>, OutOfMemory>
    requires { length links.now ≡ length chains.now }
    ensures { IfOk result (λ v. AreNextBy links.now chains.now v.items) }
{
    let mut next = Vec::with_capacity(alloc, chains.len())?;
    for (place, chain) in chains.iter().enumerate() {
        next.push(goes_on(chain, links[place], place))?;
    }
    Ok(next)
}

/// Adds the ids of a chain's ways.
fn add_ids(ids: &mut Ids, more: &[i64]) -> Result<(), OutOfMemory>
    ensures { OnOk result (ids.new ≡ ids.old ++ more.now) }
{
    for &id in more {
        ids.push(id)?;
    }
    Ok(())
}

/// The ids of the ways of the chains at these places.
fn ids_at(alloc: Global, chains: &[Chain], places: &[usize]) -> Result<Ids, OutOfMemory>
    requires { All (λ k. k < length chains.now) places.now }
    ensures { IfOk result (λ ids. ids ≡ ways_of (chains_at chains.now places.now)) }
{
    let mut ids = Ids::new(alloc);
    for &place in places {
        add_ids(&mut ids, chains[place].ways.as_slice())?;
    }
    Ok(ids)
}

/// The paths of the chains at these places one after the other.
fn paths_at(alloc: Global, chains: &[Chain], places: &[usize]) -> Result<Vec<Loc>, OutOfMemory>
    requires { All (λ k. k < length chains.now) places.now }
    ensures { IfOk result (λ v. v.items ≡ locations_along (chains_at chains.now places.now)) }
{
    let mut locs = Vec::new(alloc);
    for &place in places {
        locs.extend_from_slice(chains[place].path.as_slice())?;
    }
    Ok(locs)
}

/// The unclosed chain of the chains at these places.
pub(crate) fn unclosed_of(
    alloc: Global,
    chains: &[Chain],
    places: &[usize],
) -> Result<Chain, OutOfMemory>
    requires { AreParts chains.now places.now }
    ensures { IfOk result (λ chain. IsUnclosed (chains_at chains.now places.now) chain) }
{
    let ways = ids_at(alloc, chains, places)?;
    let path = Path::from_vec(paths_at(alloc, chains, places)?);
    let name = ways.as_slice()[0];
    Ok(Chain {
        name,
        ways,
        path,
        closed: false,
    })
}

/// The least id.
fn least(ids: &[i64]) -> i64
    requires { 0 < length ids.now }
    ensures { IsLeast ids.now result }
{
    let mut best = 0;
    for place in 1..ids.len() {
        if ids[place] < ids[best] {
            best = place;
        }
    }
    ids[best]
}

/// Whether a chain at these places runs round Antarctica.
fn any_antarctic(chains: &[Chain], places: &[usize]) -> bool
    requires { All (λ k. k < length chains.now) places.now }
    ensures { result ≡ list_any is_antarctic (chains_at chains.now places.now) }
{
    for &place in places {
        if is_antarctic(&chains[place]) {
            return true;
        }
    }
    false
}

/// The south-western corner of the world.
fn south_west() -> Loc
    ensures { result ≡ south_west }
{
    orders_are_exact();
    Loc {
        x: -1_800_000_000,
        y: -900_000_000,
    }
}

/// The south-eastern corner of the world.
fn south_east() -> Loc
    ensures { result ≡ south_east }
{
    orders_are_exact();
    Loc {
        x: 1_800_000_000,
        y: -900_000_000,
    }
}

/// The corners of the world by which a chain round Antarctica is closed.
fn add_corners(locs: &mut Vec<Loc>) -> Result<(), OutOfMemory>
    ensures { OnOk result (locs.new.items ≡ locs.old.items ++ corners) }
{
    locs.push(south_west())?;
    locs.push(south_east())?;
    Ok(())
}

/// The path of the ring of the chains at these places.
fn ring_path(alloc: Global, chains: &[Chain], places: &[usize]) -> Result<Path, OutOfMemory>
    requires { AreParts chains.now places.now }
    ensures path { IfOk result (λ path. path ≡ ring_path (chains_at chains.now places.now)) }
    ensures round { IfOk result (λ path. IsRound path) }
{
    orders_are_exact();
    let mut locs = paths_at(alloc, chains, places)?;
    if !any_antarctic(chains, places) {
        return Ok(Path::from_vec(locs));
    }
    add_corners(&mut locs)?;
    let path = round_path(alloc, locs)?;
    Ok(path)
}

/// The ring of the chains at these places.
pub(crate) fn ring_of(
    alloc: Global,
    chains: &[Chain],
    places: &[usize],
) -> Result<CoastRing, OutOfMemory>
    requires { AreParts chains.now places.now }
    ensures { IfOk result (λ ring. IsCoastRing (chains_at chains.now places.now) ring) }
{
    let ways = ids_at(alloc, chains, places)?;
    let path = ring_path(alloc, chains, places)?;
    let name = least(ways.as_slice());
    Ok(CoastRing { name, path })
}
