//! One sweep upwards over many segments: their directions, and where locations lie relative to them.

pub mod leaving;
pub mod rising;
pub mod rows;
