//! Coastline rings sorted out, and land and water.
#![tactic(auto)]

mod choosing;
mod conflicting;
mod cut;
mod cutting;
mod cutting_laws;
mod end_order;
mod existence;
mod foes;
mod junctions;
mod kept_segments;
mod land_parts;
mod landing;
mod oneness;
mod ranking;
mod ring_segments;
mod rounds;
mod shortcuts;
mod side_nodes;
mod sorted;
mod sorting;
mod steps_along;
mod stretches;
mod taking_away;
mod water_laws;
mod watering;
mod wrong_ways;

pub use cut::{Cut, Cuts};
pub use cutting::cut_and_sort_out;
pub use cutting_laws::{clear_rings_stay, rounds_end, unopposed_rings_stay};
pub use existence::{land_exists, sorting_exists, water_exists};
pub use kept_segments::{EndOrder, KeptSegments};
pub use land_parts::{Land, Repeats};
pub use landing::land;
pub use oneness::{land_is_one, sorting_is_one, water_is_one};
pub use ring_segments::closed_lines_are_even;
pub use sorted::{Pairs, Sorted};
pub use sorting::sort_out;
pub use water_laws::{
    land_and_water_cover, sides_are_clear, water_covers_the_rest, water_is_clear, water_is_even,
};
pub use watering::water;
