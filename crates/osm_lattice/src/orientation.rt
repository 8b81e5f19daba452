//! On which side of a line a location lies.
ghost use Rattle.std.specs.Prelude.{◌≡◌, ◌^◌, ◌<◌, ◌≤◌, ◌*◌, ◌*ℤ◌, ◌-ℤ◌, unsigned_abs};
ghost use Rattle.osm_lattice.specs.Line.{side_of_line};
ghost use Rattle.osm_lattice.specs.Loc.{orientation};
ghost use Rattle.osm_lattice.specs.OrderLaws.{ordering_of};

use crate::loc::Loc;
use crate::seg::Seg;
use std::cmp::Ordering;

/// How far `to` lies to the right of `from`, in units of 1e-7 degree.
pub fn step_x(from: Loc, to: Loc) -> i64
    ensures value { result ≡ to.x -ℤ from.x }
    ensures small { unsigned_abs result ≤ 3_600_000_000 }
{
    i64::from(to.x) - i64::from(from.x)
}

/// How far `to` lies above `from`, in units of 1e-7 degree.
pub fn step_y(from: Loc, to: Loc) -> i64
    ensures value { result ≡ to.y -ℤ from.y }
    ensures small { unsigned_abs result ≤ 1_800_000_000 }
{
    i64::from(to.y) - i64::from(from.y)
}

/// A product of 64-bit numbers, which never overflows.
fn product(a: i64, b: i64) -> i128
    ensures value { result ≡ a *ℤ b }
    ensures size { unsigned_abs result ≡ unsigned_abs a * unsigned_abs b }
{
    i128::from(a) * i128::from(b)
}

/// The cross product of the steps `u` and `v`: positive if `v` points left of `u`.
pub fn cross(ux: i64, uy: i64, vx: i64, vy: i64) -> i128
    requires ux_in { unsigned_abs ux ≤ 3_600_000_000 }
    requires uy_in { unsigned_abs uy ≤ 1_800_000_000 }
    requires vx_in { unsigned_abs vx ≤ 3_600_000_000 }
    requires vy_in { unsigned_abs vy ≤ 1_800_000_000 }
    ensures value { result ≡ ux *ℤ vy -ℤ uy *ℤ vx }
    ensures small { unsigned_abs result < 2 ^ 64 }
{
    product(ux, vy) - product(uy, vx)
}

/// Twice the signed area of the triangle `a`, `b`, `c`.
///
/// It is positive if `c` lies left of the line from `a` to `b`, negative if it lies right of it, and 0 on the line.
#[tactic(auto, unfolding(crate::specs::Loc::orientation))]
pub fn orient(a: Loc, b: Loc, c: Loc) -> i128
    ensures value { result ≡ orientation a b c }
    ensures small { unsigned_abs result < 2 ^ 64 }
{
    cross(step_x(a, b), step_y(a, b), step_x(a, c), step_y(a, c))
}

/// A product that fits 64 bits.
fn short_product(a: i64, b: i64) -> i64
    requires { unsigned_abs a * unsigned_abs b < 2 ^ 63 }
    ensures { result ≡ a *ℤ b }
{
    a * b
}

/// Where `p` lies relative to the line of `s`: `Less` left of it, `Equal` on it, `Greater` right of it.
///
/// Each of the two products whose difference is the orientation fits 64 bits, and comparing them needs no more.
pub fn compare_to_line(p: Loc, s: Seg) -> Ordering
    ensures { result ≡ ordering_of (side_of_line p s) }
{
    let leftwards = short_product(step_x(s.a, s.b), step_y(s.a, p));
    let rightwards = short_product(step_y(s.a, s.b), step_x(s.a, p));
    rightwards.cmp(&leftwards)
}
