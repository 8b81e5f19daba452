//! The coast of an input written as OPL of its own: its coast ways and the nodes that they name, and nothing else.
#![tactic(auto)]

mod filtering;
mod laws;
mod names;

pub use filtering::filter;
pub use laws::{
    coast_input_stays, coast_part_is_sound, coast_part_stays, coast_text_tells_the_coast,
};
