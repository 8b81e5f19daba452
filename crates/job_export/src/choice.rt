//! Which objects the settings of an export take for candidates.

ghost use Rattle.std.specs.Prelude.{◌≡◌, All, IfOk, IsSome};
ghost use Rattle.job_export.specs.Choice.{choice_of};
ghost use Rattle.osm_objects.specs.Candidates.{candidates};
ghost use Rattle.osm_objects.specs.Objects.{object_at};
ghost use Rattle.osm_words.specs.Answers.{settings_seen};

use osm_elements::ObjectRef;
use osm_job::choice_of;
use osm_objects::Store;
use osm_words::ExportSettings;
use std::alloc::{AllocError as OutOfMemory, Global};

/// The candidates that the settings choose, in order.
pub(crate) fn candidates_of(
    alloc: Global,
    store: &Store,
    settings: &ExportSettings<'_>,
) -> Result<Vec<ObjectRef>, OutOfMemory>
    ensures all { IfOk result (λ list.
        list.items ≡ candidates (choice_of (settings_seen settings.now)) store.now) }
    ensures held { IfOk result (λ list. All (λ of. IsSome (object_at store.now of)) list.items) }
{
    let choice = choice_of(
        alloc,
        settings.keep_untagged,
        settings.area_keys,
        settings.linear_keys,
    )?;
    store.candidates(alloc, &choice)
}
