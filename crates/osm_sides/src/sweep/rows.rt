//! Rows of segments that begin at one height: they enter the status of the sweep, and are directed by it.
ghost use Rattle.std.specs.Prelude.{◌≡◌, ◌<◌, ◌≤◌, ◌-◌, [], IfOk, OnOk, cond, false, length, not, slice_index_or, take, true};
ghost use Rattle.std.specs.List.{AllWithin};
ghost use Rattle.std.specs.List.Sorted.{IsPartitionedBy};
ghost use Rattle.plane.specs.Vector.{Vector};
ghost use Rattle.plane_lists.specs.Lists.Parity.{is_even};
ghost use Rattle.plane_lists.specs.Statuses.Status.{IsStatus};
ghost use Rattle.osm_lattice.specs.declared.seg.Seg.{Seg};
ghost use Rattle.osm_lattice.specs.Loc.{vector_of};
ghost use Rattle.osm_lattice.specs.Seg.{edge_of, seg_cmp};
ghost use Rattle.osm_segments.specs.Outlines.{IsOutline};
ghost use Rattle.osm_sides.specs.SideTests.{counted, left_count, left_of, level, right_count};
ghost use Rattle.osm_sides.specs.Sweep.{AreDirectedTo, IsEntered, IsRow, begins_by};

use crate::sides::{begins_by, is_above, is_counted, is_horizontal, is_left_of};
use chunked_list::ChunkedList;
use osm_geom::{Edge, Loc, Seg};
use std::alloc::AllocError as OutOfMemory;

/// How many of the status don't count as right of `s`: these come first. The status stays as it is.
fn place(status: &mut ChunkedList<Seg>, s: Seg) -> usize
    requires { IsPartitionedBy (λ t. not (counted s t)) status.old }
    ensures kept { status.new ≡ status.old }
    ensures within { result ≤ length status.old }
    ensures before { AllWithin (λ t. not (counted s t) ≡ true) status.old 0 result }
    ensures after { AllWithin (λ t. not (counted s t) ≡ false) status.old result
        (length status.old) }
{
    status.partition_point(|t| !is_counted(s, *t))
}

/// Puts a segment where it belongs just above its lower end.
fn enter(status: &mut ChunkedList<Seg>, s: Seg) -> Result<(), OutOfMemory>
    requires { IsPartitionedBy (λ t. not (counted s t)) status.old }
    ensures { OnOk result (IsEntered s status.old status.new) }
{
    let place = place(status, s);
    status.insert(place, s)?;
    Ok(())
}

/// Puts in the segments from one place up to another, which begin at the height of `at`.
///
/// A horizontal one doesn't span this height.
fn enter_each(
    status: &mut ChunkedList<Seg>,
    segs: &[Seg],
    from: usize,
    to: usize,
    at: Loc,
) -> Result<(), OutOfMemory>
    requires outline { IsOutline segs.now }
    requires status { IsStatus edge_of (vector_of at) (take from segs.now) status.old }
    requires row { AllWithin (λ t. t.a.y ≡ at.y) segs.now from to }
    requires order { from ≤ to }
    requires within { to ≤ length segs.now }
    ensures { OnOk result (IsStatus edge_of (vector_of at) (take to segs.now) status.new) }
{
    for i in from..to {
        let s = segs[i];
        if is_above(s, at) {
            enter(status, s)?;
        }
    }
    Ok(())
}

/// Where those segments end that begin at the height of `at`, as the one at `from` does.
fn end_of_row(segs: &[Seg], from: usize, at: Loc) -> usize
    requires outline { IsOutline segs.now }
    requires inside { from < length segs.now }
    requires first { (d : Seg) → (slice_index_or segs.now from d).a ≡ at }
    ensures more { from < result }
    ensures within { result ≤ length segs.now }
    ensures begun { AllWithin (λ t. begins_by at.y t ≡ true) segs.now 0 result }
    ensures later { AllWithin (λ t. begins_by at.y t ≡ false) segs.now result (length segs.now) }
{
    let mut end = from + 1;
    while end < segs.len() && begins_by(segs[end], at) {
        end += 1;
    }
    end
}

/// Puts in the segments that begin at the height of `at`, as the one at `from` does, and gives the place after them.
pub fn enter_row(
    status: &mut ChunkedList<Seg>,
    segs: &[Seg],
    from: usize,
    at: Loc,
) -> Result<usize, OutOfMemory>
    requires outline { IsOutline segs.now }
    requires inside { from < length segs.now }
    requires first { (d : Seg) → (slice_index_or segs.now from d).a ≡ at }
    requires status { IsStatus edge_of (vector_of at) (take from segs.now) status.old }
    ensures { IfOk result (λ to. IsRow segs.now from to (vector_of at) status.new) }
{
    let to = end_of_row(segs, from, at);
    enter_each(status, segs, from, to, at)?;
    Ok(to)
}

/// Where the segments of the status begin that are right of `s` just above its lower end: they come last.
///
/// The search starts at `near`.
fn right_from(status: &ChunkedList<Seg>, near: usize, s: Seg) -> usize
    requires { IsPartitionedBy (λ t. not (counted s t)) status.now }
    ensures within { result ≤ length status.now }
    ensures count { length status.now - result ≡ right_count s status.now }
{
    status.partition_point_near(near, |t| !is_counted(s, *t))
}

/// Where the segments of the status begin that have `p` on their left: they come last.
pub(crate) fn left_from(status: &ChunkedList<Seg>, near: usize, p: Loc) -> usize
    requires { IsPartitionedBy (λ t. not (left_of p t)) status.now }
    ensures within { result ≤ length status.now }
    ensures before { AllWithin (λ t. left_of p t ≡ false) status.now 0 result }
    ensures after { AllWithin (λ t. left_of p t ≡ true) status.now result (length status.now) }
    ensures count { length status.now - result ≡ left_count p status.now }
{
    status.partition_point_near(near, |t| !is_left_of(p, *t))
}

/// Where the segments of the status begin that decide the direction of `s`.
fn place_of(status: &ChunkedList<Seg>, near: usize, s: Seg) -> usize
    requires flat { level s ≡ true → IsPartitionedBy (λ t. not (left_of s.a t)) status.now }
    requires sloping { level s ≡ false → IsPartitionedBy (λ t. not (counted s t)) status.now }
    ensures within { result ≤ length status.now }
    ensures flat { level s ≡ true → length status.now - result ≡ left_count s.a status.now }
    ensures sloping { level s ≡ false → length status.now - result ≡ right_count s status.now }
{
    if is_horizontal(s) {
        left_from(status, near, s.a)
    } else {
        right_from(status, near, s)
    }
}

/// Whether the odd side makes `s` run up, by its place in the status at its lower end.
fn runs_up_at(status: &ChunkedList<Seg>, s: Seg, place: usize) -> bool
    requires within { place ≤ length status.now }
    requires flat { level s ≡ true → length status.now - place ≡ left_count s.a status.now }
    requires sloping { level s ≡ false → length status.now - place ≡ right_count s status.now }
    ensures { result ≡ cond (level s) (not (is_even (left_count s.a status.now)))
        (is_even (right_count s status.now)) }
{
    let count = status.len() - place;
    if is_horizontal(s) {
        count % 2 != 0
    } else {
        count % 2 == 0
    }
}

/// Directs the segments from one place up to another, which begin at the height of the status.
pub fn direct_row(
    edges: &mut Vec<Edge>,
    status: &ChunkedList<Seg>,
    segs: &[Seg],
    from: usize,
    to: usize,
) -> Result<(), OutOfMemory>
    requires outline { IsOutline segs.now }
    requires row { (p : Vector) × IsRow segs.now from to p status.now }
    requires so_far { AreDirectedTo segs.now from edges.old.items }
    ensures { OnOk result (AreDirectedTo segs.now to edges.new.items) }
{
    let mut place = status.last_changed();
    for i in from..to {
        let s = segs[i];
        place = place_of(status, place, s);
        edges.push(Edge::of(s, runs_up_at(status, s, place)))?;
    }
    Ok(())
}
