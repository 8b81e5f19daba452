//! A law of the ways that take part.
ghost use Rattle.coast_join.specs.InputLaws.{CoastWaysExist};

use osm_geom::orders_are_exact;

/// If no two coastline ways of objects have one id, there are the ways that take part, and no two of them have one id.
pub fn coast_ways_exist()
    ensures { CoastWaysExist }
{
    orders_are_exact();
}
