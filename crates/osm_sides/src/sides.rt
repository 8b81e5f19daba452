//! The tests that define the odd side: which segments are left or right of a point or a segment, and how many.

ghost use Rattle.std.specs.Prelude.{◌≡◌};
ghost use Rattle.plane_lists.specs.Lists.OddSide.{runs_up_by_odd_side};
ghost use Rattle.osm_lattice.specs.Seg.{edge_of};
ghost use Rattle.osm_sides.specs.Survivors.{plane_edges_of};
ghost use Rattle.osm_sides.specs.SideTests.{span, left_of, starts_left, level, same, forks_right, counted, left_count, right_count};
ghost use Rattle.osm_sides.specs.Sweep.{begins_by, ends_above};

use osm_geom::{Loc, Seg};

/// Whether the height of `p` is at least that of the lower end and less than that of the upper end.
fn is_in_span(p: Loc, t: Seg) -> bool
    ensures { result ≡ span p t }
{
    t.a.y <= p.y && p.y < t.b.y
}

/// Whether the segment spans the height of `p` and has it on its left.
#[tactic(auto, unfolding(crate::specs::SideTests::left_of, crate::specs::SideTests::span, osm_lattice::specs::Line::is_left_of_line))]
pub fn is_left_of(p: Loc, t: Seg) -> bool
    ensures { result ≡ left_of p t }
{
    is_in_span(p, t) && t.has_on_left(p)
}

/// Whether the two locations are equal.
#[tactic(auto, unfolding(crate::specs::SideTests::same))]
pub fn is_same(p: Loc, q: Loc) -> bool
    ensures { result ≡ same p q }
{
    p == q
}

/// Whether `t` begins where `s` does, and runs to the right of it.
#[tactic(auto, unfolding(crate::specs::SideTests::forks_right, crate::specs::SideTests::same, osm_lattice::specs::Line::is_right_of_line))]
fn forks_right(s: Seg, t: Seg) -> bool
    ensures { result ≡ forks_right s t }
{
    is_same(s.a, t.a) && s.has_on_right(t.b)
}

/// Whether the lower end of `s` is left of `t`, or `t` begins there too and runs to the right of `s`.
#[tactic(auto, unfolding(crate::specs::SideTests::starts_left, crate::specs::SideTests::span, osm_lattice::specs::Line::is_left_of_line, crate::specs::SideTests::forks_right))]
fn starts_left_of(s: Seg, t: Seg) -> bool
    ensures { result ≡ starts_left s t }
{
    is_in_span(s.a, t) && (t.has_on_left(s.a) || forks_right(s, t))
}

/// Whether its upper end is no higher than its lower end.
#[tactic(auto, using(crate::proofs::SegmentTests::level_is))]
pub fn is_horizontal(s: Seg) -> bool
    ensures { result ≡ level s }
{
    !(s.a.y < s.b.y)
}

/// Whether `t` is another segment than `s` and right of it just above its lower end.
#[tactic(auto, unfolding(crate::specs::SideTests::counted, crate::specs::SideTests::same))]
pub fn is_counted(s: Seg, t: Seg) -> bool
    ensures { result ≡ counted s t }
{
    !(is_same(s.a, t.a) && is_same(s.b, t.b)) && starts_left_of(s, t)
}

/// Whether its upper end is above the height of `at`.
pub fn is_above(t: Seg, at: Loc) -> bool
    ensures { result ≡ ends_above at.y t }
{
    at.y < t.b.y
}

/// Whether its lower end is no higher than `at`.
pub fn begins_by(t: Seg, at: Loc) -> bool
    ensures { result ≡ begins_by at.y t }
{
    !(at.y < t.a.y)
}

/// How many segments have `p` on their left.
fn left_count(segs: &[Seg], p: Loc) -> usize
    ensures { result ≡ left_count p segs.now }
{
    segs.iter().filter(|t| is_left_of(p, **t)).count()
}

/// How many others are right of `s` just above its lower end.
fn right_count(segs: &[Seg], s: Seg) -> usize
    ensures { result ≡ right_count s segs.now }
{
    segs.iter().filter(|t| is_counted(s, **t)).count()
}

/// Whether the odd side makes `s` run from its lesser end to its greater one.
#[tactic(auto, using(crate::proofs::OddSideCounts::runs_up_is))]
pub fn runs_up(segs: &[Seg], s: Seg) -> bool
    ensures { result ≡ runs_up_by_odd_side (plane_edges_of segs.now) (edge_of s) }
{
    if is_horizontal(s) {
        left_count(segs, s.a) % 2 != 0
    } else {
        right_count(segs, s) % 2 == 0
    }
}
