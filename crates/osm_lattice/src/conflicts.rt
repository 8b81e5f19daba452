//! How two segments conflict.
ghost use Rattle.std.specs.Prelude.{◌≡◌, None, true};
ghost use lib.Signed.{lt_z};
ghost use Rattle.plane.specs.Edge.{ends_at};
ghost use Rattle.plane.specs.Sign.{sign, are_opposite};
ghost use Rattle.osm_lattice.specs.Conflict.{are_overlapping, are_crossing, conflict_of};
ghost use Rattle.osm_lattice.specs.ConflictTests.{before, beside, on_line, inside, along, meet_at_end, touched_by, parted_by, west};
ghost use Rattle.osm_lattice.specs.Loc.{vector_of};
ghost use Rattle.osm_lattice.specs.Seg.{edge_of};

use crate::loc::Loc;
use crate::orientation::{compare_to_line, orient};
use crate::seg::Seg;

/// How two segments conflict.
#[derive(Clone, Copy, Debug, PartialEq, Eq, PartialOrd, Ord)]
pub enum Kind {
    /// They share one point that is not an end of both.
    Crossing,
    /// They share more than one point.
    Overlap,
}

#[tactic(auto, using(crate::proofs::LocationOrder::is_lt_before))]
fn is_before(p: Loc, q: Loc) -> bool
    ensures { result ≡ before p q }
{
    p < q
}

#[tactic(auto, using(crate::proofs::LocationOrder::is_eq_null), unfolding(crate::specs::ConflictTests::on_line))]
fn is_on_line(p: Loc, s: Seg) -> bool
    ensures { result ≡ on_line p s }
{
    compare_to_line(p, s).is_eq()
}

/// Whether one number is positive and the other negative.
fn are_opposite(x: i128, y: i128) -> bool
    ensures { result ≡ are_opposite (sign x) (sign y) }
{
    x > 0 && y < 0 || x < 0 && y > 0
}

/// Whether `p` lies strictly between the ends of `s`.
#[tactic(auto, unfolding(crate::specs::ConflictTests::inside, crate::specs::ConflictTests::on_line, crate::specs::ConflictTests::before))]
fn is_inside(p: Loc, s: Seg) -> bool
    ensures { result ≡ inside p s }
{
    is_on_line(p, s) && is_before(s.a, p) && is_before(p, s.b)
}

#[tactic(auto, unfolding(crate::specs::ConflictTests::along, crate::specs::ConflictTests::on_line))]
fn is_along(s: Seg, t: Seg) -> bool
    ensures { result ≡ along s t }
{
    is_on_line(t.a, s) && is_on_line(t.b, s)
}

#[tactic(auto, unfolding(crate::specs::Conflict::are_overlapping, crate::specs::ConflictTests::along, crate::specs::ConflictTests::before))]
fn are_overlapping(s: Seg, t: Seg) -> bool
    ensures { result ≡ are_overlapping s t }
{
    is_along(s, t) && is_along(t, s) && (is_before(s.a, t.b) && is_before(t.a, s.b))
}

/// Whether an end of `t` lies strictly inside `s`.
#[tactic(auto, unfolding(crate::specs::ConflictTests::touched_by, crate::specs::ConflictTests::inside))]
fn is_touched_by(s: Seg, t: Seg) -> bool
    ensures { result ≡ touched_by s t }
{
    is_inside(t.a, s) || is_inside(t.b, s)
}

/// Whether the ends of `t` lie strictly on opposite sides of the line of `s`.
#[tactic(auto, unfolding(crate::specs::ConflictTests::parted_by, crate::specs::Loc::orientation))]
fn is_parted_by(t: Seg, s: Seg) -> bool
    ensures { result ≡ parted_by t s }
{
    are_opposite(orient(s.a, s.b, t.a), orient(s.a, s.b, t.b))
}

#[tactic(auto, unfolding(crate::specs::Conflict::are_crossing, crate::specs::Conflict::are_overlapping, crate::specs::ConflictTests::touched_by, crate::specs::ConflictTests::parted_by))]
fn are_crossing(s: Seg, t: Seg) -> bool
    ensures { result ≡ are_crossing s t }
{
    !are_overlapping(s, t)
        && (is_touched_by(s, t) || is_touched_by(t, s) || is_parted_by(t, s) && is_parted_by(s, t))
}

/// Whether both ends of `t` lie strictly on one side of the line of `s`.
#[tactic(auto, unfolding(crate::specs::ConflictTests::beside, crate::specs::Line::is_left_of_line, crate::specs::Line::is_right_of_line))]
fn is_beside(t: Seg, s: Seg) -> bool
    ensures { result ≡ beside t s }
{
    s.has_on_left(t.a) && s.has_on_left(t.b) || s.has_on_right(t.a) && s.has_on_right(t.b)
}

fn is_end_of(p: Loc, s: Seg) -> bool
    ensures { result ≡ ends_at (vector_of p) (edge_of s) }
{
    p == s.a || p == s.b
}

#[tactic(auto, unfolding(crate::specs::ConflictTests::meet_at_end))]
fn meet_at_end(s: Seg, t: Seg) -> bool
    ensures { result ≡ meet_at_end s t }
{
    is_end_of(s.a, t) || is_end_of(s.b, t)
}

/// Whether one of the two begins above the other.
fn are_at_other_heights(s: Seg, t: Seg) -> bool
    ensures { result ≡ true → conflict_of s t ≡ None }
{
    s.b.y < t.a.y || t.b.y < s.a.y
}

/// Whether each end of the first is left of both ends of the second.
fn is_left_of(s: Seg, t: Seg) -> bool
    ensures { result ≡ true → west s t ≡ true }
{
    s.a.x.max(s.b.x) < t.a.x.min(t.b.x)
}

/// Whether one of two segments lies above the other or beside it. Then they have no conflict.
///
/// Most segments that aren't near each other are apart.
pub fn are_apart(s: Seg, t: Seg) -> bool
    ensures { result ≡ true → conflict_of s t ≡ None }
{
    if are_at_other_heights(s, t) {
        return true;
    }
    if is_left_of(s, t) {
        return true;
    }
    is_left_of(t, s)
}

/// Whether a few tests show that two segments have no conflict.
///
/// They show it for most segments that aren't apart and have none.
fn are_clear_at_once(s: Seg, t: Seg) -> bool
    ensures { result ≡ true → conflict_of s t ≡ None }
{
    if is_beside(t, s) {
        return true;
    }
    if meet_at_end(s, t) {
        return !is_along(s, t);
    }
    is_beside(s, t)
}

/// What `conflict` gives, computed faster for two segments that aren't `are_apart`.
pub fn conflict_of_near(s: Seg, t: Seg) -> Option<Kind>
    ensures { result ≡ conflict_of s t }
{
    if are_clear_at_once(s, t) {
        return None;
    }
    if s == t {
        None
    } else if are_overlapping(s, t) {
        Some(Kind::Overlap)
    } else if are_crossing(s, t) {
        Some(Kind::Crossing)
    } else {
        None
    }
}

/// How two segments conflict, if they do. Two equal ones don't.
///
/// Ways: two of which one lies above or beside the other; two that a few tests show to be clear; all others by the
/// definition.
pub fn conflict(s: Seg, t: Seg) -> Option<Kind>
    ensures { result ≡ conflict_of s t }
{
    if are_apart(s, t) {
        return None;
    }
    conflict_of_near(s, t)
}
