//! How numbers, points and strings are spelled: decimals of coordinates, whole numbers, written strings.
//!
//! A function that adds to a text may have added only a part if memory runs out. What was there before stays in front.
#![tactic(auto)]

mod coordinates;
mod decimal;
mod number;
mod strings;
mod tag;

pub use coordinates::{put_both, put_coordinate, put_point, put_xy};
pub use decimal::put_decimal;
pub use number::put_number;
pub use strings::{put_written, written};
pub use tag::put_tag;
