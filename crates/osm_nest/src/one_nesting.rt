//! The law that polygons are determined.

ghost use Rattle.osm_nest.specs.OneNesting.{PolygonsAreOne};

/// A sided list of edges has at most one list of polygons.
pub fn polygons_are_one()
    ensures { PolygonsAreOne }
{}
