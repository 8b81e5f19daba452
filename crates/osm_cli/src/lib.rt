//! The run that the words of a command line ask for: its job, the last line of its report, and the status of the process.
#![tactic(auto)]

mod fixed_line;
mod last_line;
mod running;
mod statuses;

pub use osm_input::{InputFault, ReadError, read_all};
pub use osm_job::Ended;
pub use osm_words::{Command, WordsFault, command_of};
pub use running::{run, run_for_status};
pub use statuses::status;
