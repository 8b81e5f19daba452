//! The areas of candidates, counted.

ghost use Rattle.std.specs.Prelude.{◌≡◌, IfOk, IfSome, length};
ghost use Rattle.osm_nest.specs.Polygons.{rings_of};
ghost use Rattle.job_small.specs.Sampling.Steps.{AddsCandidate, AreAreaCounts, area_counts_of, together};

use osm_area::{Outcome, assemble};
use osm_elements::ObjectRef;
use osm_nest::Polygon;
use osm_objects::Store;
use std::alloc::{AllocError as OutOfMemory, Global};

/// What export makes of candidates, counted.
#[derive(Clone, Copy)]
pub(crate) struct AreaCounts {
    /// Candidates with an area.
    pub(crate) areas: u64,
    /// Their polygons.
    pub(crate) polygons: u64,
    /// The rings of those.
    pub(crate) rings: u64,
    /// Candidates with problems.
    pub(crate) problems: u64,
}

/// Nothing is counted.
const NONE: AreaCounts = AreaCounts {
    areas: 0,
    polygons: 0,
    rings: 0,
    problems: 0,
};

/// Both counts together; None if a number grows too large.
fn together(a: AreaCounts, b: AreaCounts) -> Option<AreaCounts>
    ensures { IfSome result (λ counts. counts ≡ together a b) }
{
    Some(AreaCounts {
        areas: a.areas.checked_add(b.areas)?,
        polygons: a.polygons.checked_add(b.polygons)?,
        rings: a.rings.checked_add(b.rings)?,
        problems: a.problems.checked_add(b.problems)?,
    })
}

/// How many rings polygons have; None if the number grows too large.
fn ring_count(polygons: &[Polygon]) -> Option<u64>
    ensures { IfSome result (λ count. count ≡ length (rings_of polygons.now)) }
{
    let mut count: u64 = 0;
    for polygon in polygons {
        let inners = polygon.inners.as_slice().len() as u64;
        count = count.checked_add(1 + inners)?;
    }
    Some(count)
}

/// The outcome of one candidate, counted; None if a number grows too large.
fn area_counts_of(outcome: &Outcome) -> Option<AreaCounts>
    ensures { IfSome result (λ counts. counts ≡ area_counts_of outcome.now) }
{
    match outcome {
        Outcome::Area { polygons, .. } => Some(AreaCounts {
            areas: 1,
            polygons: polygons.as_slice().len() as u64,
            rings: ring_count(polygons.as_slice())?,
            problems: 0,
        }),
        Outcome::Problems { .. } => Some(AreaCounts {
            problems: 1,
            ..NONE
        }),
    }
}

/// Counts one more candidate.
fn with_candidate(
    alloc: Global,
    store: &Store,
    candidate: ObjectRef,
    counts: AreaCounts,
) -> Result<AreaCounts, OutOfMemory>
    ensures { IfOk result (λ more. AddsCandidate store.now candidate counts more) }
{
    let outcome = assemble(alloc, store, candidate)?;
    let one = area_counts_of(&outcome).ok_or(OutOfMemory)?;
    // No memory holds objects with so many rings.
    together(counts, one).ok_or(OutOfMemory)
}

/// What export makes of candidates, counted. Fails only if memory runs out.
pub(crate) fn area_counts(
    alloc: Global,
    store: &Store,
    candidates: &[ObjectRef],
) -> Result<AreaCounts, OutOfMemory>
    ensures { IfOk result (λ counts. AreAreaCounts store.now candidates.now counts) }
{
    let mut counts = NONE;
    for &candidate in candidates {
        counts = with_candidate(alloc, store, candidate, counts)?;
    }
    Ok(counts)
}
