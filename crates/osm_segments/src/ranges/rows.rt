//! Rows of segments that run through a strip, each left of the next one.
ghost use Rattle.std.specs.Prelude.{◌≡◌, ◌⊎◌, ◌<◌, ◌≤◌, ◌-◌, false, true, Contains, IfOk, IsPermutation, length, slice_index_or};
ghost use Rattle.osm_segments.specs.Ranges.{RunsLeft, StandInRow};

use crate::ranges::order::{compare_at, runs_left};
use crate::ranges::strips::{SegAt, Strip, runs_through};
use osm_lattice::Seg;
use std::alloc::{AllocError as OutOfMemory, Global};
use std::cmp::Ordering;

/// Segments in a row, and those that are left over.
#[derive(Drop)]
pub struct SideBySide {
    pub row: Vec<SegAt>,
    pub rest: Vec<SegAt>,
}

/// Segments that run through a strip, and the others.
#[derive(Drop)]
pub struct ByRun {
    pub through: Vec<SegAt>,
    pub others: Vec<SegAt>,
}

/// Whether a segment can be put at the end of a row.
fn follows(strip: Strip, row: &[SegAt], s: SegAt) -> bool
    ensures first { result ≡ false → 0 < length row.now }
    ensures after { result ≡ true → (d : SegAt) → 0 < length row.now
        → RunsLeft strip.low strip.high (slice_index_or row.now (length row.now - 1) d).seg s.seg }
{
    if row.is_empty() {
        return true;
    }
    runs_left(strip, row[row.len() - 1].seg, s.seg)
}

/// Puts segments into a row, each if it follows there.
pub fn row_of(alloc: Global, strip: Strip, all: &[SegAt]) -> Result<SideBySide, OutOfMemory>
    ensures linked { IfOk result (λ r. StandInRow strip r.row.items) }
    ensures whole { IfOk result (λ r. (s : SegAt) → Contains all.now s
        → Contains r.row.items s ⊎ Contains r.rest.items s) }
    ensures shorter { IfOk result (λ r. 0 < length all.now
        → length r.rest.items < length all.now) }
{
    let mut row = Vec::new(alloc);
    let mut rest = Vec::new(alloc);
    for &s in all {
        if follows(strip, &row, s) {
            row.push(s)?;
        } else {
            rest.push(s)?;
        }
    }
    Ok(SideBySide { row, rest })
}

/// How many of a list run through a strip. Only the room for them rests on it.
fn count_through(strip: Strip, all: &[SegAt]) -> usize {
    all.iter().filter(|s| runs_through(strip, s.seg)).count()
}

/// Segments that run through a strip, of which there are so many, and the others.
fn part_each(alloc: Global, strip: Strip, all: &[SegAt], count: usize) -> Result<ByRun, OutOfMemory>
    ensures { IfOk result (λ p. (s : SegAt) → Contains all.now s
        → Contains p.through.items s ⊎ Contains p.others.items s) }
{
    let mut through = Vec::with_capacity(alloc, count)?;
    let mut others = Vec::with_capacity(alloc, all.len().saturating_sub(count))?;
    for &s in all {
        if runs_through(strip, s.seg) {
            through.push(s)?;
        } else {
            others.push(s)?;
        }
    }
    Ok(ByRun { through, others })
}

/// Segments that run through a strip, and the others. Where none do, the list is that of the others.
pub fn part_by_run(alloc: Global, strip: Strip, all: Vec<SegAt>) -> Result<ByRun, OutOfMemory>
    ensures { IfOk result (λ p. (s : SegAt) → Contains all.items s
        → Contains p.through.items s ⊎ Contains p.others.items s) }
{
    let count = count_through(strip, &all);
    if count == 0 {
        return Ok(ByRun {
            through: Vec::new(alloc),
            others: all,
        });
    }
    part_each(alloc, strip, &all, count)
}

/// The order of two segments at the lower height of a strip, and then at its upper one.
fn compare_across(strip: Strip, s: Seg, t: Seg) -> Ordering {
    match compare_at(strip.low, s, t) {
        Ordering::Equal => compare_at(strip.high, s, t),
        order => order,
    }
}

/// Segments that run through a strip, from left to right at its lower height, and then at its upper one.
///
/// Only the length of rows depends on the order.
pub fn in_order_across(strip: Strip, mut through: Vec<SegAt>) -> Vec<SegAt>
    ensures { IsPermutation through.items result.items }
{
    through.sort_unstable_by(|s, t| compare_across(strip, s.seg, t.seg));
    through
}

/// Whether the segments of a row that are left of a segment seem to end at a place.
fn seems_end_of_left(strip: Strip, row: &[SegAt], place: usize, t: Seg) -> bool
    requires { place ≤ length row.now }
{
    (place == 0 || runs_left(strip, row[place - 1].seg, t))
        && (place == row.len() || !runs_left(strip, row[place].seg, t))
}

/// Where the segments of a row that are left of a segment end. The search starts at `near`.
pub fn end_of_left(strip: Strip, row: &[SegAt], near: usize, t: Seg) -> usize
    ensures within { result ≤ length row.now }
    ensures left { 0 < result → (d : SegAt)
        → RunsLeft strip.low strip.high (slice_index_or row.now (result - 1) d).seg t }
{
    let mut end = near.min(row.len());
    if !seems_end_of_left(strip, row, end, t) {
        end = row.partition_point(|s| runs_left(strip, s.seg, t));
    }
    while end > 0 && !runs_left(strip, row[end - 1].seg, t) {
        end -= 1;
    }
    end
}

/// Where the segments of a row that are right of a segment begin. The search starts at `near`.
pub fn begin_of_right(strip: Strip, row: &[SegAt], near: usize, t: Seg) -> usize
    ensures within { result ≤ length row.now }
    ensures right { result < length row.now → (d : SegAt)
        → RunsLeft strip.low strip.high t (slice_index_or row.now result d).seg }
{
    let mut begin = near.min(row.len());
    if begin < row.len() && !runs_left(strip, t, row[begin].seg) {
        begin = row.partition_point(|s| !runs_left(strip, t, s.seg));
    }
    while begin < row.len() && !runs_left(strip, t, row[begin].seg) {
        begin += 1;
    }
    begin
}
