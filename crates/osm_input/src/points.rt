//! The points of a text, a line each: a longitude and a latitude in degrees, as people write them.

mod laws;
mod line;
mod reading;

pub use laws::{first_bad_line_is_one, points_exclude_a_bad_line, texts_have_points_or_a_bad_line};
pub use reading::{PointsError, read_points};
