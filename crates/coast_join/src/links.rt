//! Which way goes on to which.

ghost use Rattle.std.specs.Prelude.{◌≡◌, ◌↔◌, ◌<◌, ◌^◌, ℕ, IfOk, Option, Some, length, map};
ghost use Rattle.std.specs.List.{slice_get};
ghost use Rattle.std.specs.BTreeMap.{get};
ghost use Rattle.osm_lattice.specs.declared.loc.Loc.{Loc};
ghost use Rattle.coast_join.specs.Links.{count_before, AreNumbered, AreNextWays, key_cmp};

use osm_geom::{Loc, orders_are_exact};
use std::alloc::{AllocError as OutOfMemory, Global};
use std::collections::BTreeMap;

/// Each location, and how often it occurs before.
fn numbered(alloc: Global, locs: &[Loc]) -> Result<Vec<(Loc, usize)>, OutOfMemory>
    ensures { IfOk result (λ v. AreNumbered locs.now v.items) }
{
    orders_are_exact();
    let mut stood = BTreeMap::new(alloc);
    let mut numbered = Vec::with_capacity(alloc, locs.len())?;
    for &loc in locs {
        let number = stood.get(&loc).copied().unwrap_or(0usize);
        numbered.push((loc, number))?;
        stood.insert(loc, number + 1)?;
    }
    Ok(numbered)
}

/// The place of each location, by the location and by how often it occurs before.
fn places(alloc: Global, locs: &[Loc]) -> Result<BTreeMap<(Loc, usize), usize>, OutOfMemory>
    ensures { IfOk result (λ m. (p : Loc) (r j : ℕ)
        → (get key_cmp m (p, r) ≡ Some j)
        ↔ ((slice_get locs.now j ≡ Some p) × (count_before p locs.now j ≡ r))) }
{
    orders_are_exact();
    let keys = numbered(alloc, locs)?;
    let mut places = BTreeMap::new(alloc);
    for (place, &key) in keys.iter().enumerate() {
        places.insert(key, place)?;
    }
    Ok(places)
}

/// What the map has at each key.
fn found(
    alloc: Global,
    places: &BTreeMap<(Loc, usize), usize>,
    keys: &[(Loc, usize)],
) -> Result<Vec<Option<usize>>, OutOfMemory>
    ensures { IfOk result (λ v. v.items ≡ map (get key_cmp places.now) keys.now) }
{
    keys.iter()
        .map(|key| places.get(key).copied())
        .collect(alloc)
}

/// For each way the one that it goes on to.
///
/// At each location the i-th way that ends there goes on to the i-th that starts there. `ends` has the locations at which
/// the ways end, and `starts` those at which they start.
pub fn links(alloc: Global, ends: &[Loc], starts: &[Loc]) -> Result<Vec<Option<usize>>, OutOfMemory>
    ensures { IfOk result (λ v. AreNextWays ends.now starts.now v.items) }
{
    let places = places(alloc, starts)?;
    let keys = numbered(alloc, ends)?;
    found(alloc, &places, &keys)
}
