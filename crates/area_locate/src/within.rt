//! The points that lie in a rectangle.

ghost use Rattle.std.specs.Prelude.{◌≡◌, ◌<◌, ◌≤◌, All, Contains, IfOk, OnOk, length, map, slice_index_or};
ghost use Rattle.std.specs.List.Sorted.{IsSorted};
ghost use Rattle.osm_lattice.specs.Loc.{loc_cmp};
ghost use Rattle.osm_lattice.specs.declared.loc.Loc.{Loc};
ghost use Rattle.osm_sides.specs.PointPlaces.{HeightsNeverFall};
ghost use Rattle.area_locate.specs.declared.stretch.Entry.{Entry};
ghost use Rattle.area_locate.specs.Index.{HasEntry, IsFromTo, IsIndex, IsStretch};
ghost use Rattle.area_locate.specs.Within.{AddsWithin, AreAllWithin};

use crate::envelope::Envelope;
use crate::index::PointIndex;
use crate::stretch::{Entry, Stretch};
use osm_lattice::Loc;
use std::alloc::{AllocError as OutOfMemory, Global};

/// Adds a place, if its point lies in the rectangle.
fn add_place(
    found: &mut Vec<usize>,
    points: &[Loc],
    envelope: &Envelope,
    place: usize,
) -> Result<(), OutOfMemory>
    requires { place < length points.now }
    ensures { OnOk result (AddsWithin envelope.now points.now (λ i. i ≡ place)
        found.old.items found.new.items) }
{
    if !envelope.lacks(points[place]) {
        found.push(place)?;
    }
    Ok(())
}

/// Adds those of entries.
fn add_entries(
    found: &mut Vec<usize>,
    points: &[Loc],
    envelope: &Envelope,
    entries: &[Entry],
) -> Result<(), OutOfMemory>
    requires { All (λ (e : Entry). e.place < length points.now) entries.now }
    ensures { OnOk result (AddsWithin envelope.now points.now (HasEntry entries.now)
        found.old.items found.new.items) }
{
    for entry in entries {
        add_place(found, points, envelope, entry.place as usize)?;
    }
    Ok(())
}

/// Adds those of a stretch.
fn add_stretch(
    found: &mut Vec<usize>,
    points: &[Loc],
    envelope: &Envelope,
    stretch: &Stretch,
) -> Result<(), OutOfMemory>
    requires { IsStretch points.now stretch.now }
    ensures { OnOk result (AddsWithin envelope.now points.now
        (IsFromTo stretch.now.first stretch.now.end) found.old.items found.new.items) }
{
    let entries = stretch.between(envelope.left, envelope.right);
    add_entries(found, points, envelope, entries)
}

/// Adds those from a place on, of the longest stretch that ends by another, or else that place alone. The result is where it ends.
fn add_next(
    found: &mut Vec<usize>,
    points: &[Loc],
    index: &PointIndex,
    envelope: &Envelope,
    place: usize,
    to: usize,
) -> Result<usize, OutOfMemory>
    requires index { IsIndex points.now index.now }
    requires order { place < to }
    requires inside { to ≤ length points.now }
    ensures { IfOk result (λ end. (place < end) × (end ≤ to) × AddsWithin envelope.now points.now
        (IsFromTo place end) found.old.items found.new.items) }
{
    match index.longest(place, to) {
        Some(stretch) => {
            add_stretch(found, points, envelope, stretch)?;
            Ok(stretch.end)
        }
        None => {
            add_place(found, points, envelope, place)?;
            Ok(place + 1)
        }
    }
}

/// Adds those from one place to another.
fn add_from_to(
    found: &mut Vec<usize>,
    points: &[Loc],
    index: &PointIndex,
    envelope: &Envelope,
    from: usize,
    to: usize,
) -> Result<(), OutOfMemory>
    requires index { IsIndex points.now index.now }
    requires inside { to ≤ length points.now }
    ensures { OnOk result (AddsWithin envelope.now points.now (IsFromTo from to)
        found.old.items found.new.items) }
{
    let mut place = from;
    while place < to {
        place = add_next(found, points, index, envelope, place, to)?;
    }
    Ok(())
}

/// The places of the points that lie in the rectangle, in order. The index parts those at its heights into few stretches, of each of which
/// only those between its sides are looked at.
pub(crate) fn places_within(
    alloc: Global,
    points: &[Loc],
    index: &mut PointIndex,
    envelope: &Envelope,
) -> Result<Vec<usize>, OutOfMemory>
    requires sorted { IsSorted loc_cmp points.now }
    requires index { IsIndex points.now index.old }
    ensures index { OnOk result (IsIndex points.now index.new) }
    ensures places { IfOk result (λ v. AreAllWithin envelope.now points.now v.items) }
{
    let from = points.partition_point(|p| p.y < envelope.low);
    let to = points.partition_point(|p| p.y <= envelope.high);
    index.prepare(alloc, points, to.saturating_sub(from))?;
    let mut places = Vec::new(alloc);
    add_from_to(&mut places, points, index, envelope, from, to)?;
    places.sort_unstable();
    places.dedup();
    Ok(places)
}

/// The points at these places.
pub(crate) fn points_at(
    alloc: Global,
    points: &[Loc],
    places: &[usize],
) -> Result<Vec<Loc>, OutOfMemory>
    requires { All (λ i. i < length points.now) places.now }
    ensures len { IfOk result (λ v. length v.items ≡ length places.now) }
    ensures are { (d : Loc) → IfOk result (λ v.
        v.items ≡ map (λ i. slice_index_or points.now i d) places.now) }
{
    let mut there = Vec::with_capacity(alloc, places.len())?;
    for &place in places {
        there.push(points[place])?;
    }
    Ok(there)
}
