//! How segments leave the status of a sweep: at the heights of their upper ends.
ghost use Rattle.std.specs.Prelude.{◌≡◌, ◌<◌, ◌≤◌, ◌+◌, List, false, filter, length, slice_index_or, true};
ghost use Rattle.std.specs.List.{AllWithin};
ghost use Rattle.osm_lattice.specs.declared.seg.Seg.{Seg};
ghost use Rattle.plane_lists.specs.Statuses.Leaving.{Remains};
ghost use Rattle.osm_segments.specs.Sweep.{AreByEnds};
ghost use Rattle.osm_sides.specs.Sweep.{AreEnds, EndsNeverFall, NextHasLeft, ends_above};

use crate::sides::{is_above, is_horizontal};
use chunked_list::ChunkedList;
use osm_geom::{Loc, Seg};
use osm_segments::place_in_status;

/// The segments that aren't horizontal, in the order in which they leave.
///
/// They are given in the order of their upper ends; of those that end at one height, the left one leaves first. Horizontal
/// ones never enter, so a search for them would fail: only speed depends on leaving them out.
pub fn leaving(mut ends: Vec<Seg>) -> Vec<Seg>
    ensures { (segs : List Seg) → AreByEnds segs ends.items → AreEnds segs result.items }
{
    ends.retain(|s| !is_horizontal(*s));
    ends
}

/// Keeps the segments that end above the height of `at`.
fn leave_all(status: &mut ChunkedList<Seg>, at: Loc)
    ensures { status.new ≡ filter (ends_above at.y) status.old }
{
    status.retain(|t| is_above(*t, at));
}

/// Takes out the next segment that has ended by the height of `at`, or all that have, if it isn't found.
fn leave_next(status: &mut ChunkedList<Seg>, ends: &[Seg], next: usize, at: Loc)
    requires inside { next < length ends.now }
    requires ended { (d : Seg) → ends_above at.y (slice_index_or ends.now next d) ≡ false }
    ensures { NextHasLeft at.y ends.now next status.old status.new }
{
    match place_in_status(status, ends[next]) {
        Some(place) => {
            status.remove(place);
        }
        None => {
            leave_all(status, at);
        }
    }
}

/// Takes out the segments from one place up to another.
fn leave_each(status: &mut ChunkedList<Seg>, ends: &[Seg], from: usize, to: usize, at: Loc)
    requires within { to ≤ length ends.now }
    requires ended { AllWithin (λ t. ends_above at.y t ≡ false) ends.now from to }
    requires stay { AllWithin (λ t. ends_above at.y t ≡ true) ends.now to (length ends.now) }
    requires remains { Remains (ends_above at.y) ends.now from status.old status.old }
    ensures { status.new ≡ filter (ends_above at.y) status.old }
{
    for next in from..to {
        leave_next(status, ends, next, at);
    }
}

/// How many of the segments have ended by the height of `at`, if the first `next` have.
// One by one from there: over a whole sweep that reads each end once, and a search reads far more.
fn count_ended(ends: &[Seg], next: usize, at: Loc) -> usize
    requires rise { EndsNeverFall ends.now }
    requires ended { AllWithin (λ t. ends_above at.y t ≡ false) ends.now 0 next }
    ensures within { result ≤ length ends.now }
    ensures ended { AllWithin (λ t. ends_above at.y t ≡ false) ends.now 0 result }
    ensures stay { AllWithin (λ t. ends_above at.y t ≡ true) ends.now result (length ends.now) }
{
    let mut count = next.min(ends.len());
    while count < ends.len() && !is_above(ends[count], at) {
        count += 1;
    }
    count
}

/// Takes out the segments that have ended by the height of `at`, the next ones in the list of ends.
///
/// It gives the place of the first that hasn't.
pub fn leave(status: &mut ChunkedList<Seg>, ends: &[Seg], next: usize, at: Loc) -> usize
    requires rise { EndsNeverFall ends.now }
    requires ended { AllWithin (λ t. ends_above at.y t ≡ false) ends.now 0 next }
    requires remains { Remains (ends_above at.y) ends.now next status.old status.old }
    ensures stay { status.new ≡ filter (ends_above at.y) status.old }
    ensures ended { AllWithin (λ t. ends_above at.y t ≡ false) ends.now 0 result }
{
    let to = count_ended(ends, next, at);
    leave_each(status, ends, next, to, at);
    to
}
