//! Rings in the plane that don't cross.
//!
//! The laws say how a sided list is cut into them, which encloses which, and what polygons they make.

pub mod cover;
pub mod nest;
pub mod polygon;
pub mod walk;
