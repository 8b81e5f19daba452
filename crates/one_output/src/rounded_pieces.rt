//! The printed land and water are wrong at most within half a unit of their borders.
//!
//! Points are rounded to whole units of 1e-7 degree, and rings that vanish by this are left out. There is no code to run
//! here. The contract of each function is a law about the definitions in `specs/`, of `osm_text` and of `job_coastline`.

ghost use Rattle.one_output.specs.RoundedPieces.Cover.{PrintedLandCovers, PrintedLandIsCoast, PrintedWaterCovers, PrintedWaterIsCoast};
ghost use Rattle.one_output.specs.RoundedPieces.Laws.{LandIsPrintedRight, LeavesArePrintedRight, LineIsOfPrintedRings, PrintedIsNear, RoundedRingIsOff, RoundedRingWindsAlike, VanishedGoesRoundNothing, WaterIsPrintedRight};

use crate::one_coast::leaves_cover_the_coast;
use coast_split::leaves_cover_as_list;
use osm_nest::valid_polygons::nested_polygons_are_valid;
use osm_nest::{nested_cover_as_rings, rings_may_be_nested};

/// The line of a polygon is that of its printed rings.
///
/// Each location in it is at most half a unit away, in x and in y, from the point that it is printed for.
pub fn printed_points_are_near()
    ensures line { LineIsOfPrintedRings }
    ensures near { PrintedIsNear }
{}

/// What is left of a ring winds round distant points as the ring does, and none of its lines passes there.
///
/// These are the points with rational coordinates whose closed unit square the ring doesn't meet. What is left of a ring
/// that has vanished goes round nothing.
pub fn rounded_rings_wind_alike()
    ensures off { RoundedRingIsOff }
    ensures winding { RoundedRingWindsAlike }
    ensures vanished { VanishedGoesRoundNothing }
{}

/// Sided leaves are printed right, except within half a unit of their edges.
pub fn leaves_are_printed_right()
    ensures { LeavesArePrintedRight }
{
    rings_may_be_nested();
    nested_cover_as_rings();
    nested_polygons_are_valid();
}

/// The leaves of land and of water that a coastline job writes are printed right in this sense.
pub fn coast_is_printed_right()
    ensures land { LandIsPrintedRight }
    ensures water { WaterIsPrintedRight }
{
    leaves_are_printed_right();
    rings_may_be_nested();
    nested_cover_as_rings();
    leaves_cover_as_list();
}

/// What the prints of leaves cover together, at points more than half a unit away from the borders of all leaves of land.
///
/// The print of some leaf of land covers such a point exactly if some leaf of land does. The same holds for water.
pub fn printed_coast_covers()
    ensures land { PrintedLandCovers }
    ensures water { PrintedWaterCovers }
{
    coast_is_printed_right();
}

/// What is printed covers what the coast does.
///
/// If land is asked for, take a point that is more than half a unit away from the borders of all leaves of land. The print
/// covers it exactly if the parity of the kept rings' segments is 1. If water is asked for, take such a whole point strictly
/// within the world, by the leaves of water. The print covers it exactly if that parity is 0.
pub fn printed_coast_is_coast()
    ensures land { PrintedLandIsCoast }
    ensures water { PrintedWaterIsCoast }
{
    printed_coast_covers();
    leaves_cover_the_coast();
}
