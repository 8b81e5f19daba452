//! Four small jobs, a module each: whether a text is what `export` writes, which areas hold points, the coast alone of an input, and
//! the counts of a sample.
#![tactic(auto)]

pub mod certify;
pub mod filter;
pub mod locate;
pub mod sample;
