//! How many leaves the polygons of a run are split into.

ghost use Rattle.std.specs.Prelude.{◌≡◌, ◌≤◌, ◌-◌, All, IfErr, IfOk, OnOk, ℕ};
ghost use Rattle.coast_split.specs.SplitTree.{HasMoreLeaves};
ghost use Rattle.coast_split.specs.declared.leaves.SplitError.TheVariants.{TooManyPieces};
ghost use Rattle.job_coastline.specs.Coastline.{most_leaves};
ghost use Rattle.job_coastline.specs.OutlineSteps.{HaveFewTogether, HaveLeaves, HaveMoreLeaves, HaveMoreTogether, whole_error};
ghost use Rattle.osm_geom.specs.InPlane.Sided.{IsSided};
ghost use Rattle.osm_words.specs.Answers.{coastline_seen};

use crate::outlines::Outlines;
use coast_split::{Settings, SplitError, count_leaves, split_trees_exist};
use osm_geom::Edges;
use osm_words::CoastlineSettings;
use std::alloc::Global;

/// The most leaves of a run.
pub(crate) const MOST_LEAVES: u64 = 4_194_304;

/// How many leaves lists have together; there are too many where they are more than `most`.
fn count_all(
    alloc: Global,
    lists: &[Edges],
    settings: &CoastlineSettings<'_>,
    most: u64,
) -> Result<u64, SplitError>
    requires { All IsSided lists.now }
    ensures counted { IfOk result (λ count.
        HaveLeaves (coastline_seen settings.now) most lists.now count) }
    ensures many { IfErr result (λ e. (m : ℕ) → e ≡ TooManyPieces m
        → HaveMoreLeaves (coastline_seen settings.now) most lists.now) }
{
    // By law: each list has its leaves, so that those behind the one that has too many are there.
    split_trees_exist();
    let mut count = 0;
    for edges in lists {
        let settings = Settings {
            most_points: settings.max_points,
            overlap: settings.bbox_overlap,
            most_leaves: most - count,
        };
        match count_leaves(alloc, edges, &settings) {
            Ok(more) => count += more,
            Err(error) => return Err(error),
        }
    }
    Ok(count)
}

/// The error of a part, told of the whole run.
fn whole_error(error: SplitError) -> SplitError
    ensures { result ≡ whole_error error }
{
    match error {
        SplitError::TooManyPieces { .. } => SplitError::TooManyPieces { most: MOST_LEAVES },
        SplitError::OutOfMemory => SplitError::OutOfMemory,
    }
}

/// Counts the leaves of land and of water; there are too many where they are more together than a run may have.
pub(crate) fn check_leaves(
    alloc: Global,
    outlines: &Outlines,
    settings: &CoastlineSettings<'_>,
) -> Result<(), SplitError>
    requires land { All IsSided outlines.now.land.items }
    requires water { All IsSided outlines.now.water.items }
    ensures few { OnOk result (HaveFewTogether (coastline_seen settings.now)
        outlines.now.land.items outlines.now.water.items) }
    ensures many { IfErr result (λ e. (m : ℕ) → e ≡ TooManyPieces m → (m ≡ most_leaves)
        × HaveMoreTogether (coastline_seen settings.now)
        outlines.now.land.items outlines.now.water.items) }
{
    // By law: the other lists have their leaves too.
    split_trees_exist();
    let land = match count_all(alloc, &outlines.land, settings, MOST_LEAVES) {
        Ok(land) => land,
        Err(error) => return Err(whole_error(error)),
    };
    let left = MOST_LEAVES - land;
    match count_all(alloc, &outlines.water, settings, left) {
        Ok(_) => Ok(()),
        Err(error) => Err(whole_error(error)),
    }
}
