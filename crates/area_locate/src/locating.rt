//! The locator.

ghost use Rattle.std.specs.Prelude.{◌≡◌, Contains, IfOk, IsPermutation, List, map};
ghost use Rattle.std.specs.List.Sorted.{IsSorted};
ghost use Rattle.osm_lattice.specs.Loc.{loc_cmp};
ghost use Rattle.osm_lattice.specs.declared.loc.Loc.{Loc};
ghost use Rattle.area_locate.specs.declared.found.Hit.{Hit};
ghost use Rattle.area_locate.specs.Areas.{found_as};
ghost use Rattle.area_locate.specs.Hits.{AreFound};

use crate::candidates::hits_of_all;
use crate::found::{Found, FoundList, Hits};
use osm_lattice::Loc;
use osm_objects::{Choice, Store};
use std::alloc::{AllocError as OutOfMemory, Global};

/// The points in order.
fn in_order(alloc: Global, points: &[Loc]) -> Result<Vec<Loc>, OutOfMemory>
    ensures moved { IfOk result (λ v. IsPermutation points.now v.items) }
    ensures sorted { IfOk result (λ v. IsSorted loc_cmp v.items) }
{
    let mut sorted = Vec::from_slice(alloc, points)?;
    sorted.sort_unstable();
    Ok(sorted)
}

/// A copy of the hits of a point, which stands among points in order that have these hits.
fn hits_of_point(alloc: Global, sorted: &[Loc], hits: &[Hits], p: Loc) -> Result<Hits, OutOfMemory>
    requires sorted { IsSorted loc_cmp sorted.now }
    requires there { Contains sorted.now p }
    requires hits { (f : Loc → List Hit) × (hits.now ≡ map f sorted.now) }
    ensures { (f : Loc → List Hit) → hits.now ≡ map f sorted.now
        → IfOk result (λ copy. copy ≡ f p) }
{
    let place = sorted.partition_point(|q| *q < p);
    Ok(Hits::from_vec(Vec::from_slice(alloc, hits[place].as_slice())?))
}

/// The points with their hits, in their own order.
fn all_found(
    alloc: Global,
    points: &[Loc],
    sorted: &[Loc],
    hits: &[Hits],
) -> Result<FoundList, OutOfMemory>
    requires moved { IsPermutation points.now sorted.now }
    requires sorted { IsSorted loc_cmp sorted.now }
    requires hits { (f : Loc → List Hit) × (hits.now ≡ map f sorted.now) }
    ensures { (f : Loc → List Hit) → hits.now ≡ map f sorted.now
        → IfOk result (λ found. found ≡ map (found_as f) points.now) }
{
    let mut found = FoundList::with_capacity(alloc, points.len())?;
    for &at in points {
        let hits = hits_of_point(alloc, sorted, hits, at)?;
        found.push(Found { at, hits })?;
    }
    Ok(found)
}

/// Finds for each of the points the areas that hold it and those that have it on them.
///
/// The areas are those of the candidates that the choice takes among the objects of the store. There is one entry
/// for each point, in order. Its hits are, in order of the candidates, one for each area whose boundary it lies on
/// and one for each area that it lies in, off the boundary; and no others.
///
/// The outline of each candidate is made once. An index over the points finds those in its rectangle, and one sweep goes over both.
/// The time is n log n of all points, n log n of each outline with the points in its rectangle, and log² n of all points for each
/// candidate; the index takes n log n memory. Fails only if memory runs out.
pub fn locate(
    alloc: Global,
    store: &Store,
    choice: &Choice,
    points: &[Loc],
) -> Result<FoundList, OutOfMemory>
    ensures { IfOk result (λ found. AreFound choice.now store.now points.now found) }
{
    let candidates = store.candidates(alloc, choice)?;
    let sorted = in_order(alloc, points)?;
    let hits = hits_of_all(alloc, store, &candidates, &sorted)?;
    all_found(alloc, points, &sorted, &hits)
}
