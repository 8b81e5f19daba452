//! The conflicting pairs among segments.

ghost use Rattle.std.specs.Prelude.{◌≡◌, IfOk, IfSome};
ghost use Rattle.std.specs.List.{filter_map};
ghost use Rattle.osm_lattice.specs.Seg.{seg_cmp};
ghost use Rattle.lists.specs.Rising.{IsRising};
ghost use Rattle.osm_segments.specs.Pairs.{conflicts_of, pair_cmp};
ghost use Rattle.osm_segments.specs.Places.{AreConflictPlaces, pair_at};
ghost use Rattle.osm_segments.specs.Sweep.{AreByEnds, AreInTheWay};

use crate::few::pairs::{FEW, conflicts_of_few, pair_of};
use crate::places::Places;
use crate::ranges::division;
use crate::sweep::clear::{few_in_the_way, few_in_the_way_along};
use crate::sweep::trying;
use osm_lattice::{Kind, Seg};
use std::alloc::{AllocError as OutOfMemory, Global};

/// Two segments that conflict, the lesser first, and how.
///
/// Pairs are ordered by the first segment, then by the second.
#[derive(Clone, Copy, Debug, PartialEq, Eq, PartialOrd, Ord)]
pub struct Pair {
    pub first: Seg,
    pub second: Seg,
    pub kind: Kind,
}

/// The two segments at these places, if both are there and conflict.
#[tactic(auto, unfolding(crate::specs::Places::pair_at))]
pub fn pair_at(segs: &[Seg], places: Places) -> Option<Pair>
    ensures { result ≡ pair_at segs.now places }
{
    let first = places.first as usize;
    let second = places.second as usize;
    if first >= segs.len() || second >= segs.len() {
        return None;
    }
    pair_of(segs[first], segs[second])
}

/// The pairs at these places.
fn pairs_at(alloc: Global, segs: &[Seg], places: &[Places]) -> Result<Vec<Pair>, OutOfMemory>
    ensures { IfOk result (λ v. v.items ≡ filter_map (pair_at segs.now) places.now) }
{
    let mut pairs = Vec::with_capacity(alloc, places.len())?;
    for &p in places {
        if let Some(pair) = pair_at(segs, p) {
            pairs.push(pair)?;
        }
    }
    Ok(pairs)
}

/// The conflicts among segments in strict order.
///
/// Ways: up to 32 segments by pairs (few); all others by the places of the pairs.
fn all_conflicts(alloc: Global, segs: &[Seg]) -> Result<Vec<Pair>, OutOfMemory>
    requires { IsRising seg_cmp segs.now }
    ensures { IfOk result (λ v. v.items ≡ conflicts_of segs.now) }
{
    if segs.len() <= FEW {
        return conflicts_of_few(alloc, segs);
    }
    let places = conflict_places(alloc, segs)?;
    pairs_at(alloc, segs, &places)
}

/// What `conflicts` gives of segments that are also given in the order of their upper ends.
///
/// Ways: up to 32 segments by pairs (few); all others by the places of the pairs.
pub fn conflicts_along(alloc: Global, segs: &[Seg], ends: &[Seg]) -> Result<Vec<Pair>, OutOfMemory>
    requires rising { IsRising seg_cmp segs.now }
    requires ends { AreByEnds segs.now ends.now }
    ensures { IfOk result (λ v. v.items ≡ conflicts_of segs.now) }
{
    if segs.len() <= FEW {
        return conflicts_of_few(alloc, segs);
    }
    let aside = few_in_the_way_along(alloc, segs, ends)?;
    let places = places_but_for(alloc, segs, aside)?;
    pairs_at(alloc, segs, &places)
}

/// All conflicting pairs among segments in strict order: by the first segment, then by the second.
pub fn conflicts(alloc: Global, segs: &[Seg]) -> Result<Vec<Pair>, OutOfMemory>
    requires { IsRising seg_cmp segs.now }
    ensures whole { IfOk result (λ v. v.items ≡ conflicts_of segs.now) }
    ensures rising { IfOk result (λ v. IsRising pair_cmp v.items) }
{
    all_conflicts(alloc, segs)
}

/// The places of all conflicting pairs among segments in strict order, by the few without which they are free of conflicts, if those are known.
///
/// Ways: these few tried with all (sweep); all others by strips (ranges).
fn places_but_for(
    alloc: Global,
    segs: &[Seg],
    aside: Option<Vec<Seg>>,
) -> Result<Vec<Places>, OutOfMemory>
    requires rising { IsRising seg_cmp segs.now }
    requires others { IfSome aside (λ v. AreInTheWay segs.now v.items) }
    ensures { IfOk result (λ v. AreConflictPlaces segs.now v.items) }
{
    match aside {
        Some(aside) => trying::conflict_places(alloc, segs, aside),
        None => division::conflict_places(alloc, segs),
    }
}

/// The places of all conflicting pairs among segments in strict order: by the first segment, then by the second. A pair takes 8 bytes.
pub fn conflict_places(alloc: Global, segs: &[Seg]) -> Result<Vec<Places>, OutOfMemory>
    requires { IsRising seg_cmp segs.now }
    ensures { IfOk result (λ v. AreConflictPlaces segs.now v.items) }
{
    let aside = few_in_the_way(alloc, segs)?;
    places_but_for(alloc, segs, aside)
}
