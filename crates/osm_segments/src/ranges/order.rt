//! The order of two segments at the heights of a strip.
ghost use Rattle.std.specs.Prelude.{◌≡◌, ◌^◌, ◌<◌, ◌*ℤ◌, ◌-ℤ◌, true, unsigned_abs};
ghost use Rattle.osm_lattice.specs.OrderLaws.{ordering_of};
ghost use Rattle.osm_segments.specs.Ranges.{BeginTogether, EndTogether, RunsLeft, height, side_at};

use crate::parity::is_same;
use crate::ranges::strips::Strip;
use osm_lattice::{Loc, Seg, orient, step_x, step_y};
use std::cmp::Ordering;

/// How far a segment rises in the tilted plane.
fn rise(s: Seg) -> i64
    ensures value { result ≡ height s.b -ℤ height s.a }
    ensures small { unsigned_abs result < 2 ^ 63 }
{
    step_y(s.a, s.b) * 4_294_967_296 + step_x(s.a, s.b)
}

/// A product that fits 128 bits.
fn long_product(a: i128, b: i64) -> i128
    requires a_in { unsigned_abs a < 2 ^ 64 }
    requires b_in { unsigned_abs b < 2 ^ 63 }
    ensures { result ≡ a *ℤ b }
{
    a * i128::from(b)
}

/// Where `s` lies relative to `t` at the height of `v`: `Less` left of it.
pub fn compare_at(v: Loc, s: Seg, t: Seg) -> Ordering
    ensures { result ≡ ordering_of (side_at v s t) }
{
    let first = long_product(orient(s.a, s.b, v), rise(t));
    let second = long_product(orient(t.a, t.b, v), rise(s));
    first.cmp(&second)
}

fn begin_together(p: Loc, s: Seg, t: Seg) -> bool
    ensures { result ≡ true → BeginTogether p s t }
{
    is_same(s.a, p) && is_same(t.a, p)
}

fn end_together(q: Loc, s: Seg, t: Seg) -> bool
    ensures { result ≡ true → EndTogether q s t }
{
    is_same(s.b, q) && is_same(t.b, q)
}

/// Whether `s` is left of `t` over a strip. At one of its heights they may have a common end instead.
pub fn runs_left(strip: Strip, s: Seg, t: Seg) -> bool
    ensures { result ≡ true → RunsLeft strip.low strip.high s t }
{
    if compare_at(strip.low, s, t).is_lt() {
        return compare_at(strip.high, s, t).is_lt() || end_together(strip.high, s, t);
    }
    begin_together(strip.low, s, t) && compare_at(strip.high, s, t).is_lt()
}
