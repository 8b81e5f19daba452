//! Laws of what a filter job must write: that there is something, and that it is one.
//!
//! Each function's contract is the law; the body calls the laws that it rests on.

ghost use Rattle.job_small.specs.Filtering.Laws.{FilterIsOne, FiltersExist};

use coast_filter::{coast_input_stays, coast_part_is_sound};
use opl_writer::read_back::{read_inputs_can_be_written, written_inputs_are_read};
use opl_writer::written_texts_read_back;

/// There is something that a filter job must write over the objects read from an input.
pub fn filters_exist()
    ensures { FiltersExist }
{
    // By law: the objects of an input can be written, so their coast part can.
    // It is read back from its text and from no other, and it has the coast input of the objects.
    read_inputs_can_be_written();
    coast_part_is_sound();
    written_texts_read_back();
    written_inputs_are_read();
    coast_input_stays();
}

/// There is at most one thing that it must write.
pub fn filter_is_one()
    ensures { FilterIsOne }
{}
