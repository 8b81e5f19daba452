//! Laws that what this crate gives exists, whether or not there is memory for it. The contract of each function is the law.
ghost use Rattle.coast_sides.specs.ExistenceLaws.{LandExists, SortedExists, WaterExists};

use crate::cutting_laws::rounds_end;
use crate::ring_segments::closed_lines_are_even;
use crate::water_laws::{water_is_clear, water_is_even};
use osm_geom::in_plane::lattice::lattice_edges_are_whole;
use osm_geom::{conflicts_are_symmetric, orders_are_exact};
use osm_segments::repeats_exist;
use osm_sides::{directing_is_sided, directions_exist};

/// Every list of rings can be sorted out, with its crossings cut and without. No two segments of the rings that are kept
/// conflict, where with a cut the names rise.
pub fn sorting_exists()
    ensures { SortedExists }
{
    orders_are_exact();
    conflicts_are_symmetric();
    rounds_end();
}

/// Rings of which no two segments conflict have land.
pub fn land_exists()
    ensures { LandExists }
{
    orders_are_exact();
    directing_is_sided();
    directions_exist();
    repeats_exist();
    closed_lines_are_even();
}

/// Sided edges along whole segments have water.
pub fn water_exists()
    ensures { WaterExists }
{
    orders_are_exact();
    conflicts_are_symmetric();
    lattice_edges_are_whole();
    directing_is_sided();
    directions_exist();
    water_is_clear();
    water_is_even();
}
