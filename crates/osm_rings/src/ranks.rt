//! Whole numbers that rise with points.
ghost use Rattle.std.specs.Prelude.{◌≡◌, ◌*ℤ◌, ◌+ℤ◌, ◌≤ℤ◌, ◌-ℤ◌, pos};
ghost use Rattle.std.specs.Ordering.{is_lt};
ghost use Rattle.osm_geom.specs.Point.{IsInWorld, point_cmp};
ghost use Rattle.osm_rings.specs.Ranks.{rank_at, point_rank};

use osm_geom::{Point, order_points};

/// A number for a whole x and a whole y, of which the greatest x is beyond the world.
fn floor_rank(x: i32, y: i32) -> i64
    requires { ((pos 0 -ℤ pos 1_000_000_000) ≤ℤ y) × (y ≤ℤ pos 1_000_000_000) }
    ensures { result ≡ rank_at x y }
{
    i64::from(y) * 4_294_967_296 + i64::from(x)
}

/// The rank by a whole x and a whole y, and by 1 if one of them was rounded down.
fn rank_at(x: i32, y: i32, rounded: i64) -> i64
    requires row { ((pos 0 -ℤ pos 1_000_000_000) ≤ℤ y) × (y ≤ℤ pos 1_000_000_000) }
    requires rounded { (pos 0 ≤ℤ rounded) × (rounded ≤ℤ pos 1) }
    ensures { result ≡ pos 2 *ℤ rank_at x y +ℤ rounded }
{
    2 * floor_rank(x, y) + rounded
}

/// The rank of a point: even exactly for locations, which it tells apart.
pub(crate) fn rank(p: &Point) -> i64
    requires { IsInWorld p.now }
    ensures { result ≡ point_rank p.now }
{
    match p {
        Point::Lattice(at) => rank_at(at.x, at.y, 0),
        Point::OnVertical { y, .. } => rank_at(i32::MAX, y.floor, 1),
        Point::OnHorizontal { x, d } => rank_at(x.floor, *d, 1),
    }
}

/// Whether a point comes before another, of which the ranks are known. So the points mostly aren't read.
pub(crate) fn is_before(p: &Point, rank: i64, q: &Point, other: i64) -> bool
    requires first { (rank ≡ point_rank p.now) × IsInWorld p.now }
    requires second { (other ≡ point_rank q.now) × IsInWorld q.now }
    ensures { result ≡ is_lt (point_cmp p.now q.now) }
{
    if rank < other {
        return true;
    }
    if other < rank {
        return false;
    }
    rank % 2 != 0 && order_points(p, q).is_lt()
}
