//! Objects written as lines of OPL are an input that is read as these objects.
//!
//! What an input is read as can be written like that. There is no code to run here. The contract of each function is a law
//! about the definitions of `opl_writer`, for writing objects, and of `osm_input`, for reading an input.

ghost use Rattle.opl_writer.specs.ReadBack.Laws.{OnlyLongLinesAreBad, ReadAloneAsObjects, ReadObjectsCanBeWritten, SpelledObjectsCanBeWritten, WrittenInputsAreRead};

use crate::{spelled_objects_are_sound, written_lines_read_back, written_texts_read_back};
use opl_reader::lines_have_one_answer;
use osm_input::limit_decides_the_lines;

/// The lines of objects are read as these objects, if a line can spell each and no two have one kind and id.
///
/// They must keep the limits of an input and of a line. Nothing else is ever wrong with them.
pub fn written_inputs_are_read()
    ensures read { WrittenInputsAreRead }
    ensures bad { OnlyLongLinesAreBad }
{
    // By law: the lines that are written are read back, and they are the lines of the text.
    written_lines_read_back();
    written_texts_read_back();
}

/// The objects that an input is read as can be written: a line can spell each, and no two have one kind and id.
///
/// The input is read as nothing else.
pub fn read_inputs_can_be_written()
    ensures written { ReadObjectsCanBeWritten }
    ensures alone { ReadAloneAsObjects }
{
    // By law: a line that is read as an object spells it, and such an object is well-formed.
    // Whether an input keeps the limit decides which of its lines count.
    lines_have_one_answer();
    spelled_objects_are_sound();
    limit_decides_the_lines();
}

/// If a line spells each object of a store, the objects can be written, since they are live and no two have one kind and id.
pub fn spelled_objects_can_be_written()
    ensures { SpelledObjectsCanBeWritten }
{
    spelled_objects_are_sound();
}
