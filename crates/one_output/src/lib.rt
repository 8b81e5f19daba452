//! What a run writes is a function of its words and the texts of its inputs.
//!
//! There is one right output, one report and one ending. There is no code to run here. The contract of each function is a
//! law about the definitions of `osm_cli` that the contract of its `run` uses.
#![tactic(auto)]

pub mod one_coast;
pub mod rounded_pieces;
pub mod valid_areas;

ghost use Rattle.one_output.specs.Laws.{EntryIsOne, ExportIsOne, ObjectsTellTheWhole, ReadingIsOne, RunsAgree, RunsDontPart, RunsKeepToTheWhole, WholeIsOne};

use crate::one_coast::{
    coast_counts_are_one, coast_counts_exist, coastline_exists, coastline_is_one,
};
use job_export::export_exists;
use job_small::certify::{certify_exists, certify_is_one};
use job_small::filter::{filter_is_one, filters_exist};
use job_small::locate::{locate_is_one, locates_exist};
use opl_writer::read_back::read_inputs_can_be_written;
use osm_area::{outcome_exists, outcome_is_one};
use osm_input::limit_decides_the_lines;
use osm_sample::sample_has_one_coast;
use osm_text::problem_line_is_one;

/// A job has at most one right list of what is written over the texts of its inputs, and one ending.
///
/// Each text is read as one thing, and each candidate adds one thing. The list and the ending depend only on the objects of
/// the input, and on the bytes of a second input.
pub fn whole_is_one()
    ensures reading { ReadingIsOne }
    ensures entry { EntryIsOne }
    ensures export { ExportIsOne }
    ensures whole { WholeIsOne }
    ensures objects { ObjectsTellTheWhole }
{
    // By law: the limit decides which lines count, and a problem has one line.
    // A coastline, a filter, a certified text and located points have one whole. A candidate has one outcome, and a coast
    // one number of lines.
    limit_decides_the_lines();
    problem_line_is_one();
    coastline_is_one();
    filter_is_one();
    certify_is_one();
    locate_is_one();
    outcome_is_one();
    coast_counts_are_one();
}

/// For all words and texts of their inputs there is exactly one right output, report and ending.
///
/// Whatever a run writes is a prefix of it, and all of it unless the host or memory failed.
pub fn runs_keep_to_the_whole()
    ensures { RunsKeepToTheWhole }
{
    // By law: what is right is one. An export of any objects has a whole, and so has a filter of an input.
    // A coastline job has one if no two coastline ways have one id, which reading ensures. A text has a verdict, and points
    // have areas or none. A sample has one too: each of its candidates has an outcome, and it has one coastline way.
    whole_is_one();
    limit_decides_the_lines();
    export_exists();
    coastline_exists();
    read_inputs_can_be_written();
    filters_exist();
    certify_exists();
    locates_exist();
    outcome_exists();
    coast_counts_exist();
    sample_has_one_coast();
}

/// Two runs with the same words over the same texts write the same and end alike, on any hosts.
///
/// The exception is a failure of the host or of memory. Then what one of them wrote is still a prefix of what the other
/// wrote.
pub fn runs_agree()
    ensures same { RunsAgree }
    ensures fronts { RunsDontPart }
{
    // By law: what is right is one.
    whole_is_one();
}
