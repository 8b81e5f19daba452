//! The steps of a sweep upwards: segments enter, follow one another, and leave.
ghost use Rattle.std.specs.Prelude.{◌≡◌, ◌<◌, ◌≤◌, ◌-◌, ◌+◌, ℕ, [], IfOk, IsPermutation, IfSome, None, false, length, slice_index_or, true};
ghost use Rattle.osm_lattice.specs.declared.seg.Seg.{Seg};
ghost use Rattle.osm_lattice.specs.Conflict.{conflict_of};
ghost use Rattle.plane.specs.Order.{order};
ghost use Rattle.plane.specs.Sign.{Plus, is_plus};
ghost use Rattle.osm_lattice.specs.Loc.{vector_of};
ghost use Rattle.osm_lattice.specs.Seg.{seg_cmp};
ghost use Rattle.lists.specs.Rising.{IsRising};
ghost use Rattle.osm_segments.specs.Sweep.{EndsRise, FitsAfter, FitsBefore, HasLeft, IsFollowed, IsNotBefore, IsPutBetween, lies_left, lies_right};

use crate::sweep::finding::place_in_status;
use chunked_list::ChunkedList;
use osm_lattice::{Loc, Seg, conflict};
use std::alloc::{AllocError as OutOfMemory, Global};

/// Whether `t` is right of `s` just above the lower end of `s`, if both pass that height.
fn lies_right(s: Seg, t: Seg) -> bool
    ensures { result ≡ lies_right s t }
{
    t.has_on_left(s.a) || !t.has_on_right(s.a) && t.has_on_left(s.b)
}

fn lies_left(s: Seg, t: Seg) -> bool
    ensures { result ≡ lies_left s t }
{
    t.has_on_right(s.a) || !t.has_on_left(s.a) && t.has_on_right(s.b)
}

fn are_clear(s: Seg, t: Seg) -> bool
    ensures { result ≡ true → conflict_of s t ≡ None }
{
    conflict(s, t).is_none()
}

fn fits_before(s: Seg, t: Seg) -> bool
    ensures { result ≡ true → FitsBefore s t }
{
    are_clear(t, s) && lies_left(s, t)
}

fn fits_after(s: Seg, t: Seg) -> bool
    ensures { result ≡ true → FitsAfter s t }
{
    are_clear(s, t) && lies_right(s, t)
}

/// Whether a segment fits between those before one place and those from another on.
fn fits_between(status: &ChunkedList<Seg>, low: usize, high: usize, s: Seg) -> bool
    requires { low ≤ length status.now }
    ensures before { result ≡ true → 0 < low
        → FitsBefore s (slice_index_or status.now (low - 1) s) }
    ensures after { result ≡ true → high < length status.now
        → FitsAfter s (slice_index_or status.now high s) }
{
    if low > 0 && !fits_before(s, status.get(low - 1)) {
        return false;
    }
    if high < status.len() && !fits_after(s, status.get(high)) {
        return false;
    }
    true
}

/// Puts a segment where it seems to belong, if it fits there.
pub(crate) fn enter(status: &mut ChunkedList<Seg>, s: Seg) -> Result<bool, OutOfMemory>
    ensures put { IfOk result (λ fits. fits ≡ true → IsPutBetween s status.old status.new) }
    ensures kept { IfOk result (λ fits. fits ≡ false → status.new ≡ status.old) }
{
    let place = status.partition_point(|t| !lies_right(s, *t));
    if !fits_between(status, place, place, s) {
        return Ok(false);
    }
    status.insert(place, s)?;
    Ok(true)
}

/// Whether the two segments next to a place don't conflict.
fn closes(status: &ChunkedList<Seg>, place: usize) -> bool
    requires { place < length status.now }
    ensures { result ≡ true → (d : Seg) → 0 < place → place + 1 < length status.now
        → conflict_of (slice_index_or status.now (place - 1) d)
        (slice_index_or status.now (place + 1) d) ≡ None }
{
    if place > 0
        && place < status.len() - 1
        && !are_clear(status.get(place - 1), status.get(place + 1))
    {
        return false;
    }
    true
}

/// Takes a segment out, if it is there and the two next to it don't conflict.
pub(crate) fn leave(status: &mut ChunkedList<Seg>, s: Seg) -> bool
    ensures left { result ≡ true → HasLeft s status.old status.new }
    ensures kept { result ≡ false → status.new ≡ status.old }
{
    match place_in_status(status, s) {
        Some(place) => {
            if !closes(status, place) {
                return false;
            }
            status.remove(place);
            true
        }
        None => false,
    }
}

/// Takes the segment behind another out, if the two next to it don't conflict.
pub(crate) fn make_way(status: &mut ChunkedList<Seg>, s: Seg) -> Option<Seg>
    ensures { IfSome result (λ t. HasLeft t status.old status.new) }
{
    let place = place_in_status(status, s)?;
    let inside = place < status.len();
    prove!(inside);
    let behind = place + 1;
    if behind >= status.len() || !closes(status, behind) {
        return None;
    }
    Some(status.remove(behind))
}

/// Replaces a segment by one that begins where it ends.
///
/// It does so if that one fits there and its two neighbours don't conflict with each other.
fn go_on(status: &mut ChunkedList<Seg>, s: Seg, t: Seg) -> bool
    ensures followed { result ≡ true → IsFollowed s t status.old status.new }
    ensures kept { result ≡ false → status.new ≡ status.old }
{
    match place_in_status(status, s) {
        Some(place) => {
            let inside = place < status.len();
            prove!(inside);
            if !closes(status, place) || !fits_between(status, place, place + 1, t) {
                return false;
            }
            status.set(place, t);
            true
        }
        None => false,
    }
}

/// Puts segments in the order of their upper ends.
pub fn sort_by_ends(segs: &mut [Seg])
    ensures moved { IsPermutation segs.old segs.new }
    ensures rise { EndsRise segs.new }
{
    segs.sort_unstable_by(|s, t| s.b.cmp(&t.b));
}

/// The segments of a list in the order of their upper ends: none follows one whose upper end comes after its own.
pub fn in_order_of_ends(mut segs: Vec<Seg>) -> Vec<Seg>
    ensures moved { IsPermutation segs.items result.items }
    ensures rise { EndsRise result.items }
{
    sort_by_ends(&mut segs);
    segs
}

/// The segments in the order of their upper ends.
pub fn by_ends(alloc: Global, segs: &[Seg]) -> Result<Vec<Seg>, OutOfMemory>
    ensures moved { IfOk result (λ ends. IsPermutation segs.now ends.items) }
    ensures rise { IfOk result (λ ends. EndsRise ends.items) }
{
    let ends = Vec::from_slice(alloc, segs)?;
    Ok(in_order_of_ends(ends))
}

#[tactic(auto, using(osm_lattice::proofs::LocationOrder::is_lt_before), unfolding(osm_lattice::specs::ConflictTests::before))]
pub(crate) fn is_before(p: Loc, q: Loc) -> bool
    ensures { result ≡ is_plus (order (vector_of p) (vector_of q)) }
{
    p < q
}

/// Whether the next segment begins before the next upper end.
pub(crate) fn next_enters(segs: &[Seg], next: usize, end: Seg) -> bool
    requires { IsRising seg_cmp segs.now }
    ensures inside { result ≡ true → next < length segs.now }
    ensures enters { result ≡ true → (d : Seg)
        → order (vector_of (slice_index_or segs.now next d).a) (vector_of end.b) ≡ Plus }
    ensures leaves { result ≡ false → (i : ℕ) (d : Seg) → next ≤ i → i < length segs.now
        → IsNotBefore end.b (slice_index_or segs.now i d).a }
{
    if next >= segs.len() {
        return false;
    }
    is_before(segs[next].a, end.b)
}

/// Whether the next segment begins where the next one ends, and before any later one does.
fn goes_on(segs: &[Seg], next: usize, ends: &[Seg], left: usize) -> bool
    requires rising { IsRising seg_cmp segs.now }
    requires left { left < length ends.now }
    ensures inside { result ≡ true → next < length segs.now }
    ensures some { result ≡ true → left + 1 < length ends.now }
    ensures enters { result ≡ true → (d : Seg)
        → order (vector_of (slice_index_or segs.now next d).a)
        (vector_of (slice_index_or ends.now (left + 1) d).b) ≡ Plus }
{
    left + 1 < ends.len() && next_enters(segs, next, ends[left + 1]) && segs[next].a == ends[left].b
}

/// Replaces the next segment that ends by the next that begins, if that one begins there and fits.
pub(crate) fn follow(
    status: &mut ChunkedList<Seg>,
    segs: &[Seg],
    next: usize,
    ends: &[Seg],
    left: usize,
) -> bool
    requires rising { IsRising seg_cmp segs.now }
    requires left { left < length ends.now }
    ensures inside { result ≡ true → next < length segs.now }
    ensures some { result ≡ true → left + 1 < length ends.now }
    ensures enters { result ≡ true → (d : Seg)
        → order (vector_of (slice_index_or segs.now next d).a)
        (vector_of (slice_index_or ends.now (left + 1) d).b) ≡ Plus }
    ensures followed { result ≡ true → (d : Seg) → IsFollowed (slice_index_or ends.now left d)
        (slice_index_or segs.now next d) status.old status.new }
    ensures kept { result ≡ false → status.new ≡ status.old }
{
    if !goes_on(segs, next, ends, left) {
        return false;
    }
    go_on(status, ends[left], segs[next])
}
