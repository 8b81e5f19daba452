//! Laws of the coast part of an input.
//!
//! Each function's contract is the law; the body calls the laws that it rests on.

ghost use Rattle.coast_filter.specs.Laws.{CoastInputStays, CoastPartIsApart, CoastPartIsWritable, CoastPartStays, CoastTextTellsCoast};

use opl_writer::read_back::written_inputs_are_read;

/// The coast part of an input has its coast input: the same coast ways take part, with the same paths.
/// The same ones are set aside, in the same order, for the same reasons.
pub fn coast_input_stays()
    ensures { CoastInputStays }
{}

/// The coast part of a coast part is that coast part.
pub fn coast_part_stays()
    ensures { CoastPartStays }
{}

/// The objects of a coast part are apart if those of the input are, and can be written if those can.
pub fn coast_part_is_sound()
    ensures apart { CoastPartIsApart }
    ensures writable { CoastPartIsWritable }
{}

/// As an input, the text of a coast part has the coast input of the whole.
///
/// It tells this part and nothing else, and nothing is wrong with it but that a line may be too long.
pub fn coast_text_tells_the_coast()
    ensures { CoastTextTellsCoast }
{
    coast_input_stays();
    coast_part_is_sound();
    // By law: objects that are written are read back.
    written_inputs_are_read();
}
