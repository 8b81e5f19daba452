//! The sample input: a square of cells, each with a hole, and a coast around all of them, made in memory.
//!
//! Its objects are a definition (specs/Objects, specs/Input), and so are its bytes, the lines of these objects. Laws say
//! that they are read as these objects, and that one of those is a coastline way.
#![tactic(auto)]

mod cells;
mod coast;
mod input;
mod laws;
mod nodes;
mod objects;
mod ways;

pub use input::sample_input;
pub use laws::{sample_has_one_coast, sample_is_read};
pub use objects::sample_store;
