//! Lists of edges in the plane: how a ray crosses them, and how often they go round a point.
//!
//! The odd side gives their edges directions.

pub mod along_segment;
pub mod count;
pub mod direction;
pub mod level;
pub mod odd_side;
pub mod rank;
pub mod ring;
pub mod round_node;
pub mod scaled_list;
