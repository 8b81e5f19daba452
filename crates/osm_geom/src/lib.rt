//! Exact geometry over OpenStreetMap's coordinates, whole numbers in units of 1e-7 degree.
//!
//! It has points and directed edges with at most one fractional coordinate, their orders, and cut lines. Locations and
//! segments are those of `osm_lattice`.
#![tactic(auto)]

mod coordinate;
mod cut;
mod dir;
mod edge;
mod edge_dir;
mod edge_lists;
pub mod in_plane;
mod just_above;
mod laws;
mod level;
mod point;
mod point_order;
mod ratio;
mod sort_keys;
mod span;
mod turning;

pub use coordinate::{ceiling_at, floor_at};
pub use cut::{Axis, Cut, Side, compare_to_cut, cut_point};
pub use dir::Dir;
pub use edge::{Carrier, Edge};
pub use edge_lists::{Edges, Points};
pub use just_above::compare_just_above;
pub use laws::{
    clockwise_order_is_total, floors_are_next, order_above_is_total, point_order_is_total,
};
pub use osm_lattice::{
    Frac, Ids, Kind, Loc, Locs, Path, Seg, Segs, conflict, conflicts_are_symmetric,
    conflicts_are_told_by_points, meeting, meetings_exist, orders_are_exact, orient, overlap,
    round,
};
pub use point::{Part, Point};
pub use point_order::{compare_points, order_points};
pub use sort_keys::sort_key;
pub use span::spans_height;
pub use turning::clockwise;
