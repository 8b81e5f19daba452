//! Lists: the list type, lists in strict order or without repetition, and how often each item stands in a list.
#![tactic(auto)]

mod laws;
mod list;
mod odd;
mod once;
mod tally;

pub use laws::{counted_lists_exist, counts_determine};
pub use list::List;
pub use odd::{odd_items, odd_items_of};
pub use once::{each_once, is_among};
pub use tally::{Tally, distinct_items, distinct_items_of, items_of, repeated_items};
