//! Conflicts among many segments, if the sweep doesn't find the list free of them.
//!
//! Heights are those of the tilted plane: a location is higher than another if it comes later, so no segment is level.

pub mod division;
pub mod order;
pub mod rows;
pub mod strips;
pub mod telling;
