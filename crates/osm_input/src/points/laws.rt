//! Laws of texts of points. The contract of each function is the law.

ghost use Rattle.osm_input.specs.PointLines.Laws.{FirstBadLineIsOne, PointsExcludeABadLine, TextsHavePointsOrABadLine};

/// A text has points, or a first bad line.
pub fn texts_have_points_or_a_bad_line()
    ensures { TextsHavePointsOrABadLine }
{}

/// No text has both points and a bad line.
pub fn points_exclude_a_bad_line()
    ensures { PointsExcludeABadLine }
{}

/// A text has at most one first bad line.
pub fn first_bad_line_is_one()
    ensures { FirstBadLineIsOne }
{}
