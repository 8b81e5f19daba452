//! The live objects of an input, kept by kind and id in input order, and those among them that may have an area.
#![tactic(auto)]

mod area;
mod choice;
mod error;
mod found;
mod growing;
mod held;
mod others;
mod plain;
mod problem;
mod store;
mod tags;
mod view;

pub use area::{UniqueId, area_id};
pub use choice::{Choice, Keys};
pub use error::AddError;
pub use problem::{Note, Problem};
pub use store::Store;
pub use view::{NodeView, RelationView, WayView};
