//! The law that every export has something right to write. It has no code to run.

ghost use Rattle.job_export.specs.Laws.{ExportExists};

use osm_area::outcome_exists;
use osm_text::problem_line_exists;

/// For any objects and settings there is something right to write.
pub fn export_exists()
    ensures { ExportExists }
{
    // By law: every candidate has an outcome, and every problem its line.
    outcome_exists();
    problem_line_exists();
}
