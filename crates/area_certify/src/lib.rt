//! The certifier: whether a text of areas, whoever made it, is right for the objects of an input, line by line.
//!
//! A line is right if it is the feature in format text of the candidate at its place among those with an area. A
//! candidate has exactly one outcome, so there is one right line at each place.
#![tactic(auto)]

mod certifying;
mod feature;
mod laws;
mod lines;
mod telling;
mod verdict;

pub use certifying::certify;
pub use laws::{
    first_wrong_line_is_one, right_texts_are_features, right_texts_exist, texts_have_a_verdict,
    verdicts_exclude,
};
pub use verdict::Verdict;
