//! Laws of lists of edges in the plane.
//!
//! They say how a ray crosses lists, how often lists go round a point, and what the odd side is. Walks, rings and polygons
//! are one and valid. There are laws of the status of a sweep, of halves, and of lists whose points are moved or rounded.
//!
//! There is no code to run here. Each public function has an empty body; its contract is a law about the definitions in
//! `specs/`, for all lists of edges between points with integer coordinates.
#![tactic(auto)]

pub mod connected_laws;
pub mod half_laws;
pub mod list_laws;
pub mod one_list_laws;
pub mod path_laws;
pub mod ring_laws;
pub mod rounded_laws;
pub mod status_laws;
pub mod valid_laws;
