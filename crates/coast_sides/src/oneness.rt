//! Laws that there is one of what this crate gives. The contract of each function is the law.
ghost use Rattle.coast_sides.specs.OnenessLaws.{LandIsOne, SortedIsOne, WaterIsOne};

use osm_geom::orders_are_exact;
use osm_segments::repeats_are_one;
use osm_sides::directions_are_one;

/// Rings are sorted out in one way, with their crossings cut and without.
pub fn sorting_is_one()
    ensures { SortedIsOne }
{
    orders_are_exact();
}

/// Rings have one land.
pub fn land_is_one()
    ensures { LandIsOne }
{
    orders_are_exact();
    directions_are_one();
    repeats_are_one();
}

/// The segments of land have one water.
pub fn water_is_one()
    ensures { WaterIsOne }
{
    orders_are_exact();
    directions_are_one();
}
