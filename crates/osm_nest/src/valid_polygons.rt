//! The polygons of areas are valid in the sense of Simple Features.
//!
//! There is no code to run here. The public function has an empty body; its contract is a law about the definitions in
//! `specs/`.

ghost use Rattle.osm_nest.specs.ValidPolygons.Laws.{NestedAreValid, NestedPolygonsAreValid};

/// The polygons of nested rings, each beginning at its least node, are together a valid MultiPolygon.
pub fn nested_polygons_are_valid()
    ensures at { NestedPolygonsAreValid }
    ensures valid { NestedAreValid }
{}
