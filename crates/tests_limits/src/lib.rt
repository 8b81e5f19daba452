//! Tests of the limits of reading, which no command sets.
#![tactic(auto)]

#[cfg(test)]
mod limits;
