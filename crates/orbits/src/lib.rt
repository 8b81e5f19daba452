//! Orbits of a partial one-to-one map on numbers, and closed walks cut where they return to a key.
#![tactic(auto)]

mod cutting;
mod laws;
mod orbit;
mod passing;

pub use cutting::cut;
pub use laws::{each_stands_once, orbits_are_determined};
pub use orbit::orbits;
pub use passing::{ClosedWalks, cycles};
