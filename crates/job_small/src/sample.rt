//! The sample job: what export and coastline make of the sample input, counted in memory and summed up in two lines.
//!
//! The summary is a definition over objects (specs/Summary): it counts the outcome of each of export's candidates, and the
//! lines that coastline writes. What the job must write in all is another (specs/Sample): the two lines on the summary of
//! the sample. The job reads no input.

mod areas;
mod printing;
mod summary;
mod work;

pub use summary::{Summary, sample_summary, summary_of};
pub use work::sample;
