//! The status of a sweep upwards: which items of a list span a height, from left to right just above it.
//!
//! Items may be of any type that has segments of the plane.

pub mod sweep;
