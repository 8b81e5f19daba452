//! From a candidate to its area, or to the problems that keep it from having one.

ghost use Rattle.std.specs.Prelude.{◌≡◌, ◌↔◌, List, [], ℤ, map, All, IfOk, IsSome, OnOk};
ghost use Rattle.osm_objects.specs.Problem.{IsOfItsKind};
ghost use Rattle.osm_geom.specs.WholeSegment.{IsWholeSegment};
ghost use Rattle.osm_nest.specs.Nested.{HasKinds};
ghost use Rattle.osm_nest.specs.Polygons.{rings_of};
ghost use Rattle.osm_area.specs.Outcome.{IsAreaOf, IsOutcome, IsOutcomeGiven, KeepsParity, polygons_in, problems_in};
ghost use Rattle.osm_area.specs.Made.{IsMadeBy};
ghost use Rattle.osm_segments.specs.Counts.{AreSurvivors};
ghost use Rattle.osm_area.specs.MemberWays.{member_ways, ways_named_twice};
ghost use Rattle.osm_area.specs.Notes.{AddsRepeats, named_twice_note};
ghost use Rattle.osm_area.specs.RoleWalk.{HaveSegments};
ghost use Rattle.osm_area.specs.Roles.{role_notes_of};
ghost use Rattle.osm_area.specs.Segments.{way_segments};
ghost use Rattle.osm_area.specs.Sound.{IsOutlineFor, IsSound};

use crate::area::{Made, area, made_of, outline_among};
use crate::laws::outcome_exists;
use crate::member_ways::named_ways;
use crate::missing::missing;
use crate::names::all_differ;
use crate::notes::{add_repeats, named_twice};
use crate::outcome_lists::Notes;
use crate::problems::{Problems, problems_of};
use crate::role_notes::{Ways, add_role_notes};
use crate::segments::{WaySegments, segments};
use lists::each_once;
use osm_elements::{ObjectKind, ObjectRef};
use osm_geom::Seg;
use osm_nest::Polygons;
use osm_objects::Store;
use osm_segments::{Outline, cancel};
use std::alloc::{AllocError as OutOfMemory, Global};

/// The outcome of a candidate.
#[derive(Drop)]
pub enum Outcome {
    /// It has an area of at least one polygon.
    Area { polygons: Polygons, notes: Notes },
    /// The problems that keep it from having an area, at least one.
    Problems { list: Problems, notes: Notes },
}

/// The segments that survive. Those that occur repeatedly are noted.
fn cancelled(alloc: Global, segs: &[Seg], notes: &mut Notes) -> Result<Vec<Seg>, OutOfMemory>
    ensures survive { IfOk result (λ v. AreSurvivors segs.now v.items) }
    ensures noted { OnOk result (AddsRepeats segs.now notes.old notes.new) }
{
    let cancelled = cancel(alloc, segs)?;
    add_repeats(notes, &cancelled.repeats)?;
    Ok(cancelled.survivors)
}

/// The outcome of a candidate of which nothing is missing, from its segments and the notes on its ways.
fn complete(
    alloc: Global,
    store: &Store,
    candidate: ObjectRef,
    ways: Ways<'_>,
    mut notes: Notes,
) -> Result<Outcome, OutOfMemory>
    requires segments { HaveSegments (way_segments store.now) ways.ids.now ways.counts.now
        ways.segs.now }
    requires ways { ways.ids.now ≡ member_ways store.now candidate }
    ensures right { IfOk result (λ outcome. (twice : List ℤ)
        → notes ≡ map named_twice_note twice
        → IsOutcomeGiven [] twice ways.entry.segs.now
        (role_notes_of store.now candidate ways.entry.ids.now) outcome) }
    ensures rings { IfOk result (λ outcome. All HasKinds (polygons_in outcome)) }
    ensures whole { IfOk result (λ outcome.
        All (All IsWholeSegment) (rings_of (polygons_in outcome))) }
{
    let survivors = cancelled(alloc, ways.segs, &mut notes)?;
    match made_of(alloc, survivors)? {
        Made::Area(polygons) => {
            add_role_notes(&mut notes, alloc, store, candidate, &polygons, ways)?;
            Ok(Outcome::Area { polygons, notes })
        }
        Made::Nothing => {
            let list = Problems::of_nothing();
            Ok(Outcome::Problems { list, notes })
        }
        Made::Faulty(survivors) => {
            let list = problems_of(alloc, survivors)?;
            Ok(Outcome::Problems { list, notes })
        }
    }
}

/// Ways with their segments.
fn with_segments<'a>(ways: &'a [i64], found: &'a WaySegments) -> Ways<'a>
    ensures ids { result.ids.now ≡ ways.now }
    ensures counts { result.counts.now ≡ found.now.counts.items }
    ensures segs { result.segs.now ≡ found.now.segs.items }
{
    Ways {
        ids: ways,
        counts: &found.counts,
        segs: &found.segs,
    }
}

/// The outcome of a candidate from its ways, each once, and from the notes on those that it names twice.
fn outcome_by(
    alloc: Global,
    store: &Store,
    candidate: ObjectRef,
    ways: &[i64],
    notes: Notes,
) -> Result<Outcome, OutOfMemory>
    requires ways { ways.now ≡ member_ways store.now candidate }
    requires notes { notes ≡ map named_twice_note (ways_named_twice store.now candidate) }
    ensures right { IfOk result (λ outcome. IsOutcome store.now candidate outcome) }
    ensures rings { IfOk result (λ outcome. All HasKinds (polygons_in outcome)) }
    ensures whole { IfOk result (λ outcome.
        All (All IsWholeSegment) (rings_of (polygons_in outcome))) }
{
    match segments(alloc, store, ways)? {
        Some(found) => complete(alloc, store, candidate, with_segments(ways, &found), notes),
        // The missing parts are looked up only if there are any.
        None => {
            let parts = missing(alloc, store, ways)?;
            let list = Problems::of_missing(parts);
            Ok(Outcome::Problems { list, notes })
        }
    }
}

/// The outcome of a candidate from the ways that it names. Most candidates name each once.
///
/// Ways: names that all differ; all others once each, at their first places.
fn outcome_by_names(
    alloc: Global,
    store: &Store,
    candidate: ObjectRef,
) -> Result<Outcome, OutOfMemory>
    ensures right { IfOk result (λ outcome. IsOutcome store.now candidate outcome) }
    ensures rings { IfOk result (λ outcome. All HasKinds (polygons_in outcome)) }
    ensures whole { IfOk result (λ outcome.
        All (All IsWholeSegment) (rings_of (polygons_in outcome))) }
{
    let named = named_ways(alloc, store, candidate)?;
    if all_differ(alloc, &named)? {
        return outcome_by(alloc, store, candidate, &named, Notes::new(alloc));
    }
    let distinct = each_once(alloc, &named)?;
    let notes = named_twice(alloc, &named, &distinct)?;
    outcome_by(alloc, store, candidate, &distinct, notes)
}

/// The outcome of a candidate. A way names only itself.
fn outcome_of(alloc: Global, store: &Store, candidate: ObjectRef) -> Result<Outcome, OutOfMemory>
    ensures right { IfOk result (λ outcome. IsOutcome store.now candidate outcome) }
    ensures rings { IfOk result (λ outcome. All HasKinds (polygons_in outcome)) }
    ensures whole { IfOk result (λ outcome.
        All (All IsWholeSegment) (rings_of (polygons_in outcome))) }
{
    match candidate.kind {
        ObjectKind::Way => {
            let ways = [candidate.id];
            outcome_by(alloc, store, candidate, &ways, Notes::new(alloc))
        }
        ObjectKind::Node | ObjectKind::Relation => outcome_by_names(alloc, store, candidate),
    }
}

/// Assembles a candidate: its area, or the exact list of its problems.
///
/// Its ways are those that it names, each once, at its first mention; members of other kinds are passed over. If a way isn't
/// held, or a node that a way names has no location, these are the problems. Otherwise the problems are those among the
/// surviving segments, which occur an odd number of times in its ways together.
///
/// If there are no problems, these segments make the area. Each is directed so that its odd side is on its left, and they
/// are cut into rings. Each inner ring is put under the outer one that directly encloses it. Fails only if memory runs out.
pub fn assemble(alloc: Global, store: &Store, candidate: ObjectRef) -> Result<Outcome, OutOfMemory>
    ensures outcome { IfOk result (λ outcome. IsOutcome store.now candidate outcome) }
    ensures kinds { IfOk result (λ outcome. All IsOfItsKind (problems_in outcome)) }
    ensures rings { IfOk result (λ outcome. All HasKinds (polygons_in outcome)) }
    ensures whole { IfOk result (λ outcome.
        All (All IsWholeSegment) (rings_of (polygons_in outcome))) }
    ensures parity { IfOk result (λ outcome. KeepsParity store.now candidate outcome) }
{
    outcome_of(alloc, store, candidate)
}

/// The outline of ways, each taken once, if they make an area.
fn outline_by(
    alloc: Global,
    store: &Store,
    candidate: ObjectRef,
    ways: &[i64],
) -> Result<Option<Outline>, OutOfMemory>
    requires { ways.now ≡ member_ways store.now candidate }
    ensures { IfOk result (IsOutlineFor store.now candidate) }
{
    match segments(alloc, store, ways)? {
        Some(found) => outline_among(alloc, &found.segs),
        None => Ok(None),
    }
}

/// The outline of a candidate's area, from the ways that it names.
///
/// Ways: names that all differ; all others once each, at their first places.
fn outline_by_names(
    alloc: Global,
    store: &Store,
    candidate: ObjectRef,
) -> Result<Option<Outline>, OutOfMemory>
    ensures { IfOk result (IsOutlineFor store.now candidate) }
{
    let named = named_ways(alloc, store, candidate)?;
    if all_differ(alloc, &named)? {
        return outline_by(alloc, store, candidate, &named);
    }
    let distinct = each_once(alloc, &named)?;
    outline_by(alloc, store, candidate, &distinct)
}

/// The outline of a candidate's area: the segments that survive. None exactly if it has no area.
///
/// It lists no problems and makes no polygon. A way names only itself. Fails only if memory runs out.
pub fn area_outline(
    alloc: Global,
    store: &Store,
    candidate: ObjectRef,
) -> Result<Option<Outline>, OutOfMemory>
    ensures { IfOk result (IsOutlineFor store.now candidate) }
{
    match candidate.kind {
        ObjectKind::Way => {
            let ways = [candidate.id];
            outline_by(alloc, store, candidate, &ways)
        }
        ObjectKind::Node | ObjectKind::Relation => outline_by_names(alloc, store, candidate),
    }
}

/// The polygons of a candidate's area, from its outline.
fn made_by(
    alloc: Global,
    store: &Store,
    candidate: ObjectRef,
) -> Result<Option<Polygons>, OutOfMemory>
    ensures { IfOk result (IsMadeBy store.now candidate) }
{
    let Some(outline) = area_outline(alloc, store, candidate)? else {
        return Ok(None);
    };
    let polygons = area(alloc, outline)?;
    Ok(Some(polygons))
}

/// The polygons of a candidate's outcome. None exactly if it has problems; these are not listed, and nothing is noted.
///
/// Fails only if memory runs out.
pub fn area_of(
    alloc: Global,
    store: &Store,
    candidate: ObjectRef,
) -> Result<Option<Polygons>, OutOfMemory>
    ensures outcome { IfOk result (IsAreaOf store.now candidate) }
    ensures sound { IfOk result (λ found. IsSome found ↔ IsSound store.now candidate) }
{
    // By law: it has an outcome, whose notes aren't asked for here.
    outcome_exists();
    made_by(alloc, store, candidate)
}
