//! What all jobs of the program share: how a run ends, and the calls that a job consists of.
//!
//! A run writes one list to the output and to the report. Its inputs are opened and read before that. The options say which
//! objects are candidates, and counts say which calls on the host failed.
//!
//! A job is a crate of its own. It defines what it must write in all, over the objects of its inputs, and has its work.
#![tactic(auto)]

mod choice;
mod ended;
mod input;
mod writing;

pub use choice::choice_of;
pub use ended::Ended;
pub use input::{read_both, read_input};
pub use writing::{write_lines, write_out, write_pieces, write_report, write_text};
