//! The export job: the areas of an input's candidates, as features of an output, with the report lines that are asked for.
//!
//! What it must write in all is a definition over the objects of the input. It writes a header, for each candidate its
//! feature and then its report lines, and a footer. If the run must stop at the first candidate with problems, it writes all
//! up to that candidate.
#![tactic(auto)]

mod choice;
mod entry;
mod framing;
mod laws;
mod report;
mod work;
mod writing;

pub use laws::export_exists;
pub use work::export;
