//! The summary of the objects of a store.

ghost use Rattle.std.specs.Prelude.{◌≡◌, ◌≤◌, IfOk};
ghost use Rattle.osm_sample.specs.Input.{sample_objects};
ghost use Rattle.osm_words.specs.Answers.{coastline_seen};
ghost use Rattle.job_small.specs.Sampling.Summary.{IsSummary, coast_settings};

use crate::sample::areas::area_counts;
use job_coastline::coast_counts;
use osm_objects::{Choice, Store};
use osm_sample::sample_store;
use osm_words::{CoastlineSettings, OutputPolygons};
use std::alloc::{AllocError as OutOfMemory, Global};

/// What export and coastline make of objects, counted.
#[derive(Clone, Copy, Debug, PartialEq, Eq)]
pub struct Summary {
    /// Candidates with an area.
    pub areas: u64,
    /// Their polygons.
    pub polygons: u64,
    /// The rings of those.
    pub rings: u64,
    /// Candidates with problems.
    pub problems: u64,
    /// Lines of land.
    pub land: u64,
    /// Lines of water.
    pub water: u64,
    /// Report lines of coastline that are warnings.
    pub warnings: u64,
    /// Report lines of coastline that are errors.
    pub errors: u64,
}

/// What coastline is asked for: land and water, in pieces of at most 100 points if they can be cut.
///
/// The halves reach 0.0001 degrees beyond a cut. Gaps are closed below a degree.
fn coast_settings() -> CoastlineSettings<'static>
    ensures { coastline_seen result ≡ coast_settings }
{
    CoastlineSettings {
        file: "-",
        output: "-",
        overwrite: false,
        close_distance: 10_000_000,
        max_points: 100,
        bbox_overlap: 1_000,
        polygons: OutputPolygons::Both,
        cut_crossings: false,
    }
}

/// What export and coastline make of the objects of a store, counted.
///
/// Candidates without tags are left out, and the limit on the leaves of a run doesn't matter. Fails only if memory runs out.
pub fn summary_of(alloc: Global, store: &Store) -> Result<Summary, OutOfMemory>
    ensures { IfOk result (λ summary. IsSummary store.now summary) }
{
    let candidates = store.candidates(alloc, &Choice::without_lists(false))?;
    let areas = area_counts(alloc, store, &candidates)?;
    let coast = coast_counts(alloc, store, &coast_settings())?;
    Ok(Summary {
        areas: areas.areas,
        polygons: areas.polygons,
        rings: areas.rings,
        problems: areas.problems,
        land: coast.land,
        water: coast.water,
        warnings: coast.warnings,
        errors: coast.errors,
    })
}

/// The summary of the sample of `count` times `count` cells. Fails only if memory runs out.
pub fn sample_summary(alloc: Global, count: u8) -> Result<Summary, OutOfMemory>
    requires some { 1 ≤ count }
    requires few { count ≤ 100 }
    ensures { IfOk result (λ summary. IsSummary (sample_objects count) summary) }
{
    let store = sample_store(alloc, count)?;
    summary_of(alloc, &store)
}
