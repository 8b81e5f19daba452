//! Areas cut along lines of whole coordinate: halves and leaves.
#![tactic(auto)]

mod batches;
mod counting;
mod envelope;
mod halves;
mod in_turn;
mod laws;
mod leaves;
mod portion;

pub use counting::count_leaves;
pub use halves::half;
pub use in_turn::Leaves;
pub use laws::{
    half_counts_as_list, half_of_sided_list_is_sided, halves_are_determined, halves_exist,
    leaves_cover_as_list, leaves_have_edges, leaves_part_the_list, split_trees_are_shallow,
    split_trees_exist,
};
pub use leaves::{Leaf, Settings, SplitError};
