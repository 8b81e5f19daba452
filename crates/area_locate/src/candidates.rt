//! The hits of all candidates: each is assembled once, and lies in the way of the points in its rectangle alone.

ghost use Rattle.std.specs.Prelude.{◌≡◌, ◌⊎◌, ◌<◌, ◌++◌, [], All, IfOk, OnOk, length, map, slice_index_or, ℕ};
ghost use Rattle.std.specs.List.Sorted.{IsSorted};
ghost use Rattle.osm_lattice.specs.Loc.{loc_cmp};
ghost use Rattle.osm_sides.specs.PointPlaces.{place_among};
ghost use Rattle.area_locate.specs.declared.found.Hit.{Hit};
ghost use Rattle.area_locate.specs.Areas.{Area, HaveFurther, HaveHits, IsAreaIn, hits_by, hits_of};
ghost use Rattle.area_locate.specs.Envelopes.{Encloses};
ghost use Rattle.area_locate.specs.Index.{IsIndex};
ghost use Rattle.area_locate.specs.Within.{hits_at};
ghost use Rattle.osm_area.specs.Sound.{IsSound};

use crate::envelope::Envelope;
use crate::found::{Hit, Hits};
use crate::index::PointIndex;
use crate::within::{places_within, points_at};
use osm_area::area_outline;
use osm_elements::ObjectRef;
use osm_lattice::Loc;
use osm_objects::Store;
use osm_segments::Outline;
use osm_sides::{Place, places_among};
use std::alloc::{AllocError as OutOfMemory, Global};

/// Adds the hit that a place tells.
fn add_hit(hits: &mut Hits, of: ObjectRef, place: Place) -> Result<(), OutOfMemory>
    ensures { OnOk result (hits.new ≡ hits.old ++ hits_by of place) }
{
    match place {
        Place::Off => Ok(()),
        Place::In => hits.push(Hit { of, on: false }),
        Place::On => hits.push(Hit { of, on: true }),
    }
}

/// Adds the hits of an area, `near` being the places of the points that lie so.
fn add_hits(
    hits: &mut [Hits],
    of: ObjectRef,
    near: &[usize],
    places: &[Place],
) -> Result<(), OutOfMemory>
    requires inside { All (λ i. i < length hits.old) near.now }
    requires all { length places.now ≡ length near.now }
    ensures { OnOk result ((length hits.new ≡ length hits.old)
        × ((j : ℕ) → j < length hits.old → slice_index_or hits.new j []
        ≡ slice_index_or hits.old j [] ++ hits_at of j near.now places.now)) }
{
    for k in 0..near.len() {
        add_hit(&mut hits[near[k]], of, places[k])?;
    }
    Ok(())
}

/// Adds the hits of the area with this outline.
fn add_area(
    alloc: Global,
    hits: &mut [Hits],
    points: &[Loc],
    index: &mut PointIndex,
    of: ObjectRef,
    outline: Outline,
) -> Result<(), OutOfMemory>
    requires sorted { IsSorted loc_cmp points.now }
    requires index { IsIndex points.now index.old }
    requires all { length hits.old ≡ length points.now }
    ensures index { OnOk result (IsIndex points.now index.new) }
    ensures added { OnOk result ((envelope : Envelope) × Encloses envelope outline
        × HaveFurther (λ p. hits_of p (record { of = of; envelope = envelope; sides = outline }))
        points.now hits.old hits.new) }
{
    let envelope = Envelope::of(outline.as_slice());
    let near = places_within(alloc, points, index, &envelope)?;
    let there = points_at(alloc, points, &near)?;
    let places = places_among(alloc, outline, &there)?;
    add_hits(hits, of, &near, &places)
}

/// Adds the hits of a candidate's area, if it has one.
fn add_candidate(
    alloc: Global,
    hits: &mut [Hits],
    points: &[Loc],
    index: &mut PointIndex,
    store: &Store,
    candidate: ObjectRef,
) -> Result<(), OutOfMemory>
    requires sorted { IsSorted loc_cmp points.now }
    requires index { IsIndex points.now index.old }
    requires all { length hits.old ≡ length points.now }
    ensures index { OnOk result (IsIndex points.now index.new) }
    ensures added { OnOk result (((IsSound store.now candidate → ⊥) × (hits.new ≡ hits.old))
        ⊎ ((area : Area) × IsAreaIn store.now candidate area
        × HaveFurther (λ p. hits_of p area) points.now hits.old hits.new)) }
{
    match area_outline(alloc, store, candidate)? {
        Some(outline) => add_area(alloc, hits, points, index, candidate, outline),
        None => Ok(()),
    }
}

/// No hits, for so many points.
fn no_hits(alloc: Global, points: &[Loc]) -> Result<Vec<Hits>, OutOfMemory>
    ensures { IfOk result (λ hits. hits.items ≡ map (λ _. []) points.now) }
{
    let mut hits = Vec::with_capacity(alloc, points.len())?;
    for _ in points {
        hits.push(Hits::new(alloc))?;
    }
    Ok(hits)
}

/// The hits of each of some points in order, among the areas of all candidates. Each candidate's outline is made once, and given back
/// before the next.
pub(crate) fn hits_of_all(
    alloc: Global,
    store: &Store,
    candidates: &[ObjectRef],
    points: &[Loc],
) -> Result<Vec<Hits>, OutOfMemory>
    requires { IsSorted loc_cmp points.now }
    ensures { IfOk result (λ hits. HaveHits store.now candidates.now points.now hits.items) }
{
    let mut index = PointIndex::new(alloc);
    let mut hits = no_hits(alloc, points)?;
    for &candidate in candidates {
        add_candidate(alloc, &mut hits, points, &mut index, store, candidate)?;
    }
    Ok(hits)
}
