//! The rings that a sided list of edges is cut into: the walks of successors, cut where they return to a node.
#![tactic(auto)]

mod departure;
mod departures;
mod few;
mod keys;
mod laws;
mod nodes;
mod one_list;
mod packed;
mod pieces;
mod ranks;
mod ring;
mod ring_list;
mod rounds;
mod successors;

pub use laws::{ring_list_of_edges_exists, rings_do_not_cross, successors_are_one_to_one};
pub use one_list::ring_list_of_edges_is_one;
pub use ring::{Ring, Rings};
pub use ring_list::rings;
