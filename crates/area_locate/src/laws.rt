//! Laws of what is found. The contract of each function is the law.

ghost use Rattle.area_locate.specs.Laws.{FoundExists, FoundIsOne};

use osm_area::{has_area_exactly, outcome_exists};

/// Locations are found in one way at most.
pub fn found_is_one()
    ensures { FoundIsOne }
{}

/// All locations are found among all objects, by every choice, whatever memory there is.
pub fn found_exists()
    ensures { FoundExists }
{
    outcome_exists();
    has_area_exactly();
}
