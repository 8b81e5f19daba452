//! A long list that changes in its middle.
//!
//! It is held in chunks, so that an item put in or taken out moves the rest of a chunk, and not of the list.
#![tactic(auto)]

mod chunks;
mod ends;
mod list;
mod searching;
mod starts;

pub use list::ChunkedList;
