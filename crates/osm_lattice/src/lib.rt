//! Locations and segments of OpenStreetMap's coordinates, whole numbers in units of 1e-7 degree.
//!
//! It has their orders, how segments conflict, and the exact points at which they cross.
#![tactic(auto)]

mod conflicts;
mod frac;
mod laws;
mod loc;
mod location_lists;
mod meetings;
mod orientation;
mod seg;

pub use conflicts::{Kind, are_apart, conflict, conflict_of_near};
pub use frac::{Frac, round};
pub use laws::{
    conflicts_are_symmetric, conflicts_are_told_by_points, meetings_exist, orders_are_exact,
};
pub use loc::Loc;
pub use location_lists::{Ids, Locs, Path, Segs};
pub use meetings::{Share, between, meeting, overlap};
pub use orientation::{compare_to_line, orient, step_x, step_y};
pub use seg::Seg;
