//! The polygons of an area are a valid MultiPolygon in the sense of Simple Features.
//!
//! So is what each feature spells that `export` writes. There is no code to run here. The public functions call the laws of
//! the layers below. Their contracts are laws about the definitions in `specs/`, `osm_area`, `job_export` and `osm_cli`.

ghost use Rattle.one_output.specs.ValidAreas.Laws.{AreasAreValid, ExportedFeaturesAreValid, RightFeaturesAreValid, SpelledIsOne, WrittenFeaturesAreValid};

use osm_nest::valid_polygons::nested_polygons_are_valid;
use osm_sides::directing_is_sided;

/// The polygons of an area are a valid MultiPolygon, each of them a valid Polygon, with whole coordinates.
pub fn areas_are_valid()
    ensures { AreasAreValid }
{
    directing_is_sided();
    nested_polygons_are_valid();
}

/// The output of an export is a header, a feature for each candidate with an area, and a footer.
///
/// Each feature, read as GeoJSON or as well-known text, spells the polygons of the area, and these are a valid MultiPolygon.
/// This holds for the bytes that are right over objects, for those that are right over an input, and for those that a run
/// writes.
pub fn exported_features_are_valid()
    ensures export { ExportedFeaturesAreValid }
    ensures right { RightFeaturesAreValid }
    ensures written { WrittenFeaturesAreValid }
{
    // By law: the areas are valid.
    areas_are_valid();
}

/// A text spells at most one list of polygons.
pub fn spelled_polygons_are_one()
    ensures { SpelledIsOne }
{}
