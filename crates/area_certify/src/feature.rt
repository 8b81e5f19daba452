//! The line that is right for an area.

ghost use Rattle.std.specs.Prelude.{◌≡◌, IfOk, IsSome, bytes_eq};
ghost use Rattle.osm_area.specs.Feature.{feature_tags};
ghost use Rattle.osm_objects.specs.Objects.{object_at};
ghost use Rattle.osm_text.specs.Feature.{feature_text};
ghost use Rattle.osm_text.specs.Id.{feature_id};
ghost use Rattle.osm_text.specs.Paths.{paths_of};

use osm_elements::ObjectRef;
use osm_nest::Polygons;
use osm_objects::{Store, UniqueId};
use osm_text::{FeatureId, feature_text};
use std::alloc::{AllocError as OutOfMemory, Global};

/// Whether a line, with its LF, is the feature of a candidate with these polygons.
pub(crate) fn is_feature(
    alloc: Global,
    store: &Store,
    ids: Option<UniqueId>,
    counter: u64,
    candidate: ObjectRef,
    polygons: &Polygons,
    line: &[u8],
) -> Result<bool, OutOfMemory>
    requires held { IsSome (object_at store.now candidate) }
    ensures { IfOk result (λ is. is ≡ bytes_eq line.now
        (feature_text (feature_id ids counter candidate) (paths_of polygons.now)
        (feature_tags (object_at store.now candidate)))) }
{
    let tags = store.area_tags(alloc, candidate)?;
    let id = FeatureId::of(ids, counter, candidate);
    let feature = feature_text(alloc, polygons, &tags, id)?;
    Ok(line == feature.as_slice())
}
