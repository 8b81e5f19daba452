//! That leaves make pieces, and lines a report: laws, without code to run.

ghost use Rattle.job_coastline.specs.PieceLaws.{EdgesMakePolygons, LeftAreSided, ReportExists, TilesExist};

use coast_split::leaves_cover_as_list;
use osm_nest::{nesting_exists, rings_may_be_nested};
use osm_rings::ring_list_of_edges_exists;
use osm_text::coast_line_exists;

/// Whether or not there is memory for it, sided edges make polygons, the leaves of sided lists are sided, sided leaves have
/// their polygons, and report lines are printed.
pub fn pieces_exist()
    ensures polygons { EdgesMakePolygons }
    ensures sided { LeftAreSided }
    ensures tiles { TilesExist }
    ensures report { ReportExists }
{
    leaves_cover_as_list();
    ring_list_of_edges_exists();
    rings_may_be_nested();
    nesting_exists();
    coast_line_exists();
}
