//! Which rings are outer and which inner, and which inner ring is under which outer one: the polygons of a ring list.
#![tactic(auto)]

mod cutting;
mod enclosers;
mod few;
mod grouping;
mod laws;
mod one_nesting;
mod outer;
mod polygon;
mod ring_anchors;
mod rings_from_least;
mod sweep;
pub mod valid_polygons;

pub use cutting::polygons;
pub use grouping::{nest, nest_rings};
pub use laws::{
    nested_cover_as_rings, nested_have_kinds, nesting_exists, rings_are_clear, rings_may_be_nested,
};
pub use one_nesting::polygons_are_one;
pub use outer::is_outer;
pub use polygon::{Polygon, Polygons};
