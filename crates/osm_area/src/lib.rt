//! From a candidate to its area, or to the exact list of the problems that keep it from having one.
#![tactic(auto)]

mod area;
mod laws;
mod member_ways;
mod missing;
mod names;
mod notes;
mod one_outcome;
mod outcome;
mod outcome_lists;
mod problems;
mod ring_lines;
mod ring_segments;
mod role_notes;
mod roles;
mod segments;

pub use laws::{areas_have_kinds, has_area_exactly, outcome_exists};
pub use one_outcome::outcome_is_one;
pub use outcome::{Outcome, area_of, area_outline, assemble};
pub use outcome_lists::Notes;
pub use problems::Problems;
