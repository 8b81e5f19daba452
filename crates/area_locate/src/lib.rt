//! The locator: which areas of an input hold a location, and which have it on them.
#![tactic(auto)]

mod candidates;
mod envelope;
mod found;
mod index;
mod laws;
mod locating;
mod stretch;
mod within;

pub use found::{Found, FoundList, Hit, Hits};
pub use laws::{found_exists, found_is_one};
pub use locating::locate;
