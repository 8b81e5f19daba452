//! Laws of sidedness, and of counts of lists of exact edges, by multiplying the list so that all its points are whole.
//!
//! The words of the plane apply to the multiplied list. Orders, directions and heights of exact points and edges are those
//! of the plane there. There is no code to run here. Each public function has an empty body; its contract is a law about the
//! definitions in `specs/`.

pub mod direction;
pub mod edge;
pub mod lattice;
pub mod multiple;
pub mod point;
