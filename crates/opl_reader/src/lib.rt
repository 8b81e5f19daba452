//! OPL, the line format of OpenStreetMap data that osmium reads and writes: a line for each object.
//!
//! A line consists of fields separated by spaces or tabs. Each field is a letter and a value, and the letter decides how the
//! value is read, as in the OPL manual (<https://osmcode.org/opl-file-format/>). A line has to be right to its last byte.
#![tactic(auto)]

mod chunking;
mod content;
mod cut;
mod escape;
mod fault;
mod feed;
mod field;
mod items;
mod keys;
mod line;
mod lines;
mod number;
mod place;
mod search;

pub use chunking::{
    any_chunking_gives_the_objects, finish_gives_the_rest, first_fault_is_reported,
    first_too_long_is_reported, last_fault_is_reported, nothing_is_fed_at_first,
    one_more_piece_is_read,
};
pub use escape::strings_are_spelled;
pub use fault::{FaultKind, LineError, LineFault, fault_text};
pub use feed::{Fed, FeedError};
pub use field::tables_have_the_letters;
pub use keys::{is_keys, keys_are_written, read_keys};
pub use line::{lines_have_one_answer, read_line};
pub use lines::Lines;
pub use number::read_decimal;
