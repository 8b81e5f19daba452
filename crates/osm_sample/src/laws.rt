//! Laws of the sample input, without code to run.

ghost use Rattle.osm_sample.specs.Laws.{SampleHasOneCoast, SampleIsRead};

use opl_writer::read_back::written_inputs_are_read;

/// For any number of cells from 1 to 100, the input has no bad place and is read as its objects.
pub fn sample_is_read()
    ensures { SampleIsRead }
{
    // By law: written objects are read back.
    written_inputs_are_read();
}

/// It has one coastline way, around all cells.
pub fn sample_has_one_coast()
    ensures { SampleHasOneCoast }
{}
