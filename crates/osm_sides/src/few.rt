//! Directions of few segments.

pub mod following;
