//! Objects written as lines of OPL, the line format of OpenStreetMap data. The lines are read back as these objects.
//!
//! A line has an id and the fields that aren't empty: tags, a location, references, members. A line of the OPL manual
//! (<https://osmcode.org/opl-file-format/>) may also have versions, users and the like. The reader doesn't keep these, so
//! they aren't written.
#![tactic(auto)]

mod fields;
mod items;
mod laws;
mod lines;
pub mod read_back;

pub use laws::{spelled_objects_are_sound, written_lines_read_back, written_texts_read_back};
pub use lines::{put_node, put_relation, put_way};
