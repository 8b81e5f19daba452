//! Rings of coast, and lines without equal neighbours.
#![tactic(auto)]

mod ring;
mod round;

pub use ring::{CoastRing, CoastRings};
pub use round::{once_path, round_path};
