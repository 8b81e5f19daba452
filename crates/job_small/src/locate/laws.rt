//! Laws of what a locate job must write. The contract of each function is the law.

ghost use Rattle.job_small.specs.Locating.Laws.{LocateIsOne, LocatesExist};

use area_locate::{found_exists, found_is_one};
use osm_input::points::{
    first_bad_line_is_one, points_exclude_a_bad_line, texts_have_points_or_a_bad_line,
};

/// For any objects and any text there is something that a locate job must write.
pub fn locates_exist()
    ensures { LocatesExist }
{
    found_exists();
    texts_have_points_or_a_bad_line();
}

/// There is at most one list of what it must write, and at most one ending.
pub fn locate_is_one()
    ensures { LocateIsOne }
{
    found_is_one();
    first_bad_line_is_one();
    points_exclude_a_bad_line();
}
