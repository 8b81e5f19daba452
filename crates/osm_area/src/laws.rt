//! Laws of outcomes. The contract of each function is the law.
ghost use Rattle.osm_area.specs.Outcome.{AreasHaveKinds, HasAreaExactly, OutcomeExists};

use osm_nest::{nested_have_kinds, nesting_exists, rings_may_be_nested};
use osm_rings::ring_list_of_edges_exists;
use osm_segments::repeats_exist;
use osm_sides::directions_exist;

/// Every candidate of every list of objects has an outcome, however much memory there is.
pub fn outcome_exists()
    ensures { OutcomeExists }
{
    repeats_exist();
    directions_exist();
    ring_list_of_edges_exists();
    rings_may_be_nested();
    nesting_exists();
}

/// A candidate has an area exactly if it is sound.
///
/// That is, it lacks no member way and no location of their nodes, and some segment survives. No two survivors conflict, and
/// an even number of them end at each location.
pub fn has_area_exactly()
    ensures { HasAreaExactly }
{}

/// In each polygon of every right area the first ring is outer and the others are inner, as their anchors show.
pub fn areas_have_kinds()
    ensures { AreasHaveKinds }
{
    rings_may_be_nested();
    nested_have_kinds();
}
