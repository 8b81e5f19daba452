//! Whole numbers for sorting points fast. Only speed depends on them.
use crate::point::Point;

/// A number for the point (x, y): lesser for a lesser y, and at equal y lesser for a lesser x.
fn key_at(x: i64, y: i64) -> i64 {
    y.wrapping_mul(1 << 32).wrapping_add(x)
}

/// A number that rises with lattice points in their order, and with most other points.
///
/// A sort by it has to be tested against the points themselves, and replaced by a sort of the points if the test fails.
pub fn sort_key(point: Point) -> i64 {
    match point {
        Point::Lattice(at) => key_at(i64::from(at.x), i64::from(at.y)),
        Point::OnVertical { y, .. } => key_at(i64::from(i32::MAX), i64::from(y.floor)),
        Point::OnHorizontal { x, d } => key_at(i64::from(x.floor), i64::from(d)),
    }
}
