//! The job of `locate`: for each point of a text a line with the areas that hold it and those that have it on them.

mod laws;
mod printing;
mod work;

pub use laws::{locate_is_one, locates_exist};
pub use work::locate_points;
