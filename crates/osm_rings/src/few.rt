//! Rings of few edges.

pub mod walks;
