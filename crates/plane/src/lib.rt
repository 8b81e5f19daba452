//! Exact plane geometry over integers: definitions on points, vectors, segments and edges, and their laws.
//!
//! There is no code to run here. Each public function has an empty body; its contract is a law about the
//! definitions in `specs/`, for all integers without bound.
#![tactic(auto)]

pub mod conflict;
pub mod free_segment;
pub mod height;
pub mod order;
pub mod ray_crossing;
pub mod scale;
pub mod sector;
pub mod sign;
