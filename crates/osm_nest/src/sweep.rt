//! Nesting of many rings, by one sweep upwards over their edges.

pub mod enclosers;
pub mod heights;
pub mod reach;
pub mod ring_edge;
pub mod ring_edges;
pub mod status;
