//! The laws of report lines. Each function calls the law that it rests on; its contract is the law.
ghost use Rattle.osm_text.specs.Coast.{CoastLineExists, CoastLineIsOne};
ghost use Rattle.osm_text.specs.Report.{ProblemLineExists, ProblemLineIsOne};

use osm_geom::{conflicts_are_told_by_points, meetings_exist};

/// Every problem has a report line; a conflict, if it is of the kind that its segments have.
pub fn problem_line_exists()
    ensures { ProblemLineExists }
{
    meetings_exist();
}

/// All that is told of a coastline has a report line; a conflict, if it is of the kind that its segments have.
pub fn coast_line_exists()
    ensures { CoastLineExists }
{
    meetings_exist();
}

/// A problem has one report line alone; a conflict, if it is of the kind that its segments have.
pub fn problem_line_is_one()
    ensures { ProblemLineIsOne }
{
    conflicts_are_told_by_points();
}

/// All that is told of a coastline has one report line alone; a conflict, if it is of the kind that its segments have.
pub fn coast_line_is_one()
    ensures { CoastLineIsOne }
{
    conflicts_are_told_by_points();
}
