//! What is known about a list of segments before any ring is made.
//!
//! It says which survive cancelling, which occur repeatedly, which conflict, at which locations an odd number of them end,
//! and whether rings can be made of them.
#![tactic(auto)]

mod counts;
mod few;
mod laws;
mod outline;
mod pairs;
mod parity;
mod places;
mod ranges;
mod sweep;

pub use counts::{
    Cancelled, Repeat, cancel, cancel_of, distinct, distinct_of, odd_nodes, repeated, survivors,
};
pub use laws::{conflicts_have_their_kind, repeats_are_one, repeats_exist};
pub use outline::{Outline, outline_of};
pub use pairs::{Pair, conflict_places, conflicts, conflicts_along, pair_at};
pub use places::Places;
pub use sweep::finding::place_in_status;
pub use sweep::steps::in_order_of_ends;
