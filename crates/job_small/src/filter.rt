//! The filter job: the coast of an input, written as OPL of its own.
//!
//! What it must write in all is a definition over the objects of the input (specs/Filter): the lines of their coast part. A
//! coastline job over that text must write the same as over the input.

mod laws;
mod work;

pub use laws::{filter_is_one, filters_exist};
pub use work::filter_coast;
