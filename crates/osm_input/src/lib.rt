//! An opened input, read piece by piece: into a store of its objects, or as one text.
//!
//! A store has the lines of its bytes, its bad place and its limit; a text has its limit.
#![tactic(auto)]

mod fault;
mod laws;
mod pieces;
pub mod points;
mod reading;
mod text;

pub use fault::InputFault;
pub use laws::limit_decides_the_lines;
pub use reading::{ReadError, read_all};
pub use text::{TextError, read_text};
