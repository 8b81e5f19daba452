//! The directions of few segments, along their rings: if only two end at a node, one leaves it as the other enters it.
ghost use Rattle.std.specs.Prelude.{◌≡◌, ◌<◌, [], IfSome, false, length, true};
ghost use Rattle.osm_segments.specs.Outlines.{IsOutline};
ghost use Rattle.osm_sides.specs.Following.{AreOthersUpTo, IsDirected, IsDirection, IsEnd, IsSoleOther, KnownDirectionsAreRight, stop_of};
ghost use Rattle.osm_sides.specs.SideTests.{same};

use crate::sides::{is_same, runs_up};
use osm_geom::{Loc, Seg};

/// Whether a segment ends at a location.
fn ends_at(s: Seg, p: Loc) -> bool
    ensures yes { result ≡ true → IsEnd p s }
    ensures no { result ≡ false → IsEnd p s → ⊥ }
{
    is_same(s.a, p) || is_same(s.b, p)
}

/// The place of the other segment that ends at a location, besides the one at `place`, if there is exactly one.
fn sole_other(segs: &[Seg], place: usize, p: Loc) -> Option<usize>
    ensures { IfSome result (λ other. IsSoleOther segs.now place p other) }
{
    let mut found = None;
    for (other, &s) in segs.iter().enumerate() {
        if other != place && ends_at(s, p) {
            if found.is_some() {
                return None;
            }
            found = Some(other);
        }
    }
    found
}

/// The end that a segment runs to if it runs up, or down.
fn stop_of(s: Seg, up: bool) -> Loc
    ensures { result ≡ stop_of up s }
{
    if up { s.b } else { s.a }
}

/// The place of the segment that goes on from the end of the one at a place, and its direction.
fn next_along(segs: &[Seg], place: usize, up: bool) -> Option<(usize, bool)>
    requires outline { IsOutline segs.now }
    requires directed { IsDirected segs.now place up }
    ensures { IfSome result (λ next. IsDirected segs.now next.0 next.1) }
{
    let stop = stop_of(segs[place], up);
    let next = sole_other(segs, place, stop)?;
    Some((next, is_same(segs[next].a, stop)))
}

/// Notes the direction of a segment, and those of the segments that follow it along its ring.
fn follow(segs: &[Seg], from: usize, direction: bool, known: &mut [Option<bool>])
    requires outline { IsOutline segs.now }
    requires directed { IsDirected segs.now from direction }
    requires known { KnownDirectionsAreRight segs.now known.old }
    ensures { KnownDirectionsAreRight segs.now known.new }
{
    let mut place = from;
    let mut up = direction;
    for _ in 0..segs.len() {
        known[place] = Some(up);
        match next_along(segs, place, up) {
            Some(next) => {
                place = next.0;
                up = next.1;
            }
            None => return,
        }
        if known[place].is_some() {
            return;
        }
    }
}

/// The direction of the segment at a place: the known one, or else by the odd side.
pub fn direction(segs: &[Seg], place: usize, known: &mut [Option<bool>]) -> bool
    requires outline { IsOutline segs.now }
    requires inside { place < length segs.now }
    requires known { KnownDirectionsAreRight segs.now known.old }
    ensures right { IsDirection segs.now place result }
    ensures known { KnownDirectionsAreRight segs.now known.new }
{
    if let Some(up) = known[place] {
        return up;
    }
    let up = runs_up(segs, segs[place]);
    follow(segs, place, up, known);
    up
}
