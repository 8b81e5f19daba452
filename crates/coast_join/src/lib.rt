//! Coastline ways joined to chains, and gaps between chains closed.
#![tactic(auto)]

mod bounds;
mod by_id;
mod chain;
mod chaining;
mod closing;
mod gap;
mod input;
mod input_laws;
mod joined;
mod laws;
mod links;
mod nearest_pairs;
mod regained;
mod ring_laws;
mod ring_making;
mod site_order;
mod site_tree;
mod sites;
mod way;

pub use chain::{Chain, Chains};
pub use chaining::chains;
pub use closing::closings;
pub use gap::{Closings, Gap, Gaps, Indexes};
pub use input::{CoastInput, coast_input};
pub use input_laws::coast_ways_exist;
pub use joined::Joined;
pub use laws::{
    chains_are_determined, chains_exist, closed_names_are_least, names_rise, unclosed_ends_differ,
    ways_stand_once,
};
pub use nearest_pairs::taken_pairs_are_determined;
pub use regained::closed_rings;
pub use ring_laws::{
    closed_ends_differ, closings_are_determined, closings_exist, joined_exists,
    joined_is_determined, rings_begin_at_least_names,
};
pub use way::{Aside, Asides, CoastWay, CoastWays};
