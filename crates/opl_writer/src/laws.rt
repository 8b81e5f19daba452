//! What is written is read back. The functions do nothing: the contract of each is a law.

ghost use Rattle.std.specs.Prelude.{◌≡◌, List, Ok, Some, map, All, ℕ};
ghost use Rattle.std.specs.List.{filter_map};
ghost use Rattle.std.specs.Str.{IsUtf8};
ghost use Rattle.osm_elements.specs.declared.object.Object.{Object};
ghost use Rattle.opl_reader.specs.LineReading.{reading};
ghost use Rattle.opl_reader.specs.Lines.{lines_of};
ghost use Rattle.opl_reader.specs.Parts.{Lacks};
ghost use Rattle.opl_reader.specs.Spells.{Spells};
ghost use Rattle.opl_reader.specs.Told.{object_told};
ghost use Rattle.opl_writer.specs.Writable.{IsWellFormed, IsWritable};
ghost use Rattle.opl_writer.specs.Written.{object_line, objects_text};

use opl_reader::lines_have_one_answer;

/// Each object that a line spells is well-formed.
///
/// Its ids are in range, its texts are texts of characters, and no key occurs twice. So it can be written if it is live.
pub fn spelled_objects_are_sound()
    ensures { (line : List ℕ) (o : Object) → Spells line o → IsWellFormed o }
{}

/// The line of an object spells this object and is read as it. It has no newline, and is UTF-8.
pub fn written_lines_read_back()
    ensures object { (o : Object) → IsWritable o → Spells (object_line o) o }
    ensures reading { (o : Object) → IsWritable o → reading (object_line o) ≡ Ok (Some o) }
    ensures one_line { (o : Object) → IsWritable o → Lacks 10 (object_line o) }
    ensures utf8 { (o : Object) → IsWritable o → IsUtf8 (object_line o) }
{
    // By law: a line is read as the object that it spells.
    lines_have_one_answer();
}

/// The lines of a text of written objects are the lines of these objects, in order, and spell them.
pub fn written_texts_read_back()
    ensures lines { (objects : List Object) → All IsWritable objects
        → lines_of (objects_text objects) ≡ map object_line objects }
    ensures objects { (objects : List Object) → All IsWritable objects
        → filter_map object_told (lines_of (objects_text objects)) ≡ objects }
{
    written_lines_read_back();
}
