//! Conflicts among few segments.

pub mod pairs;
