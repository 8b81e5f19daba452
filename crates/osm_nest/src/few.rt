//! Nesting if few rings are inner, or only one is outer.

pub mod one_outer;
pub mod search;
