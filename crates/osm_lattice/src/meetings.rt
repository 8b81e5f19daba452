//! Where two segments cross, and what two overlapping ones share.
ghost use Rattle.std.specs.Prelude.{◌≡◌, ◌^◌, ◌<◌, ◌≤◌, ◌-◌, ◌*◌, ◌*ℤ◌, ◌+ℤ◌, pos, unsigned_abs};
ghost use Rattle.osm_lattice.specs.Conflict.{conflict_of};
ghost use Rattle.std.specs.Ordering.{ord_min, ord_max};
ghost use Rattle.osm_lattice.specs.Loc.{orientation, loc_cmp};
ghost use Rattle.osm_lattice.specs.Meeting.{IsOnSegment, slant};
ghost use Rattle.osm_lattice.specs.Share.{IsShare};

use crate::conflicts::Kind;
use crate::frac::Frac;
use crate::orientation::{cross, orient, step_x, step_y};
use crate::seg::Seg;

/// How far along a segment one of its points lies: `above / den` of the way.
#[derive(Clone, Copy)]
pub struct Share {
    pub above: u64,
    pub den: u64,
    pub ghost is_share: { IsShare above den },
}

#[tactic(auto, unfolding(crate::specs::Meeting::slant, crate::specs::Loc::step))]
fn slant(s: Seg, t: Seg) -> i128
    ensures value { result ≡ slant s t }
    ensures small { unsigned_abs result < 2 ^ 64 }
{
    cross(
        step_x(s.a, s.b),
        step_y(s.a, s.b),
        step_x(t.a, t.b),
        step_y(t.a, t.b),
    )
}

/// How far along `s` its meeting point with `t` lies.
///
/// It is the lower end's distance from the line of `t`, relative to the distance between the two ends of `s` across that
/// line.
fn share_of(s: Seg, t: Seg) -> Share
    requires { conflict_of s t ≡ Some Kind.Crossing }
    ensures above { result.above ≡ unsigned_abs (orientation t.a t.b s.a) }
    ensures den { result.den ≡ unsigned_abs (slant s t) }
{
    Share {
        above: orient(t.a, t.b, s.a).unsigned_abs() as u64,
        den: slant(s, t).unsigned_abs() as u64,
    }
}

/// The number at the share `at` of the way from `start` to `end`, times `at.den`.
pub fn between(start: i32, end: i32, at: Share) -> i128
    requires start_in { unsigned_abs start ≤ 1_800_000_000 }
    requires end_in { unsigned_abs end ≤ 1_800_000_000 }
    ensures value { result ≡ start *ℤ pos (at.den - at.above) +ℤ end *ℤ pos at.above }
    ensures small { unsigned_abs result < 2 ^ 98 }
{
    let rest = at.den - at.above;
    i128::from(start) * i128::from(rest) + i128::from(end) * i128::from(at.above)
}

fn x_at(s: Seg, at: Share) -> Frac
    ensures value { result.num *ℤ pos at.den ≡ (s.a.x *ℤ pos (at.den - at.above)
        +ℤ s.b.x *ℤ pos at.above) *ℤ pos result.den }
    ensures small { unsigned_abs result.num < 2 ^ 98 }
{
    Frac::new(between(s.a.x, s.b.x, at), at.den)
}

fn y_at(s: Seg, at: Share) -> Frac
    ensures value { result.num *ℤ pos at.den ≡ (s.a.y *ℤ pos (at.den - at.above)
        +ℤ s.b.y *ℤ pos at.above) *ℤ pos result.den }
    ensures small { unsigned_abs result.num < 2 ^ 98 }
{
    Frac::new(between(s.a.y, s.b.y, at), at.den)
}

/// The point at which two segments cross: its x and its y, exactly. It is in the world.
pub fn meeting(s: Seg, t: Seg) -> (Frac, Frac)
    requires { conflict_of s t ≡ Some Kind.Crossing }
    ensures first { IsOnSegment s result.0 result.1 }
    ensures second { IsOnSegment t result.0 result.1 }
    ensures alone { (x y : Frac) → IsOnSegment s x y → IsOnSegment t x y
        → (x ≡ result.0) × (y ≡ result.1) }
    ensures dens_small { (result.0.den < 2 ^ 64) × (result.1.den < 2 ^ 64) }
    ensures nums_small { (unsigned_abs result.0.num < 2 ^ 98)
        × (unsigned_abs result.1.num < 2 ^ 98) }
    ensures x_in { unsigned_abs result.0.num ≤ 1_800_000_000 * result.0.den }
    ensures y_in { unsigned_abs result.1.num ≤ 900_000_000 * result.1.den }
{
    let at = share_of(s, t);
    (x_at(s, at), y_at(s, at))
}

/// The segment that two overlapping segments share.
///
/// It runs from the greater of their lesser ends to the lesser of their greater ends.
pub fn overlap(s: Seg, t: Seg) -> Seg
    requires { conflict_of s t ≡ Some Kind.Overlap }
    ensures begins { result.a ≡ ord_max loc_cmp s.a t.a }
    ensures ends { result.b ≡ ord_min loc_cmp s.b t.b }
{
    Seg {
        a: s.a.max(t.a),
        b: s.b.min(t.b),
    }
}
