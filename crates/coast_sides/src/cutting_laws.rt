//! Laws of rings whose crossings are cut. The contract of each function is the law.
ghost use Rattle.coast_sides.specs.CutSorting.{ClearRingsStay, RoundsEnd, UnopposedRingsStay};

use osm_geom::conflicts_are_symmetric;

/// Rounds of shortcuts end: there are no more of them than locations.
pub fn rounds_end()
    ensures { RoundsEnd }
{
    conflicts_are_symmetric();
}

/// Rings without conflicts are sorted out alike with and without cutting.
pub fn clear_rings_stay()
    ensures { ClearRingsStay }
{}

/// A ring that doesn't conflict with itself, nor with a kept ring that outranks it, is kept as it is.
pub fn unopposed_rings_stay()
    ensures { UnopposedRingsStay }
{}
