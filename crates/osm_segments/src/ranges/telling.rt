//! Pairs of segments that are tried, and listed by their places if they conflict.
ghost use Rattle.std.specs.Prelude.{◌≡◌, ◌⊎◌, ◌<◌, ◌≤◌, ℕ, ◌++◌, Contains, IfOk, OnOk, length, slice_index_or};
ghost use Rattle.osm_segments.specs.Ranges.{AreSettled, IsGrown, IsReduced, IsSettled, IsTried, StandInRow};

use crate::pairs::pair_at;
use crate::places::Places;
use crate::ranges::rows::{SideBySide, begin_of_right, end_of_left, row_of};
use crate::ranges::strips::{SegAt, Strip, part_along};
use osm_lattice::Seg;
use std::alloc::{AllocError as OutOfMemory, Global};

/// Two places, the lesser first.
fn in_order(i: u32, j: u32) -> Places
    ensures { ((result ≡ record { first = i; second = j }) × (i < j))
        ⊎ ((result ≡ record { first = j; second = i }) × (j ≤ i)) }
{
    if i < j {
        return Places {
            first: i,
            second: j,
        };
    }
    Places {
        first: j,
        second: i,
    }
}

/// Tries the segments at two places. It gives up at a conflict after `limit` others.
pub(crate) fn try_pair(
    told: &mut Vec<Places>,
    limit: usize,
    segs: &[Seg],
    i: u32,
    j: u32,
) -> Result<(), OutOfMemory>
    ensures grown { OnOk result (IsGrown segs.now told.old.items told.new.items) }
    ensures tried { OnOk result (IsTried segs.now told.new.items i j) }
{
    let places = in_order(i, j);
    if pair_at(segs, places).is_some() {
        if told.len() >= limit {
            return Err(OutOfMemory);
        }
        told.push(places)?;
    }
    Ok(())
}

/// Tries a segment with some of a list.
fn try_some(
    told: &mut Vec<Places>,
    limit: usize,
    segs: &[Seg],
    all: &[SegAt],
    from: usize,
    to: usize,
    place: u32,
) -> Result<(), OutOfMemory>
    requires { to ≤ length all.now }
    ensures grown { OnOk result (IsGrown segs.now told.old.items told.new.items) }
    ensures tried { OnOk result ((k : ℕ) (d : SegAt) → from ≤ k → k < to
        → IsTried segs.now told.new.items (slice_index_or all.now k d).place place) }
{
    for i in from..to {
        try_pair(told, limit, segs, all[i].place, place)?;
    }
    Ok(())
}

/// Tries each two segments.
pub fn try_each(
    told: &mut Vec<Places>,
    limit: usize,
    segs: &[Seg],
    strip: Strip,
    all: &[SegAt],
) -> Result<(), OutOfMemory>
    ensures grown { OnOk result (IsGrown segs.now told.old.items told.new.items) }
    ensures settled { OnOk result (AreSettled segs.now told.new.items strip all.now) }
{
    for i in 0..all.len() {
        try_some(told, limit, segs, all, 0, i, all[i].place)?;
    }
    Ok(())
}

/// Settles a segment with those of a row, and gives the place where those left of it end.
///
/// The search for this place starts at `near`.
fn settle_with_row(
    told: &mut Vec<Places>,
    limit: usize,
    segs: &[Seg],
    strip: Strip,
    row: &[SegAt],
    near: usize,
    t: SegAt,
) -> Result<usize, OutOfMemory>
    requires { StandInRow strip row.now }
    ensures grown { IfOk result (λ place. IsGrown segs.now told.old.items told.new.items) }
    ensures settled { IfOk result (λ place. (s : SegAt) → Contains row.now s
        → IsSettled segs.now told.new.items strip s t) }
{
    let part = part_along(strip, t.seg);
    let from = end_of_left(part, row, near, t.seg);
    let to = begin_of_right(part, row, from, t.seg);
    try_some(told, limit, segs, row, from, to, t.place)?;
    Ok(from)
}

/// Settles segments with those of a row.
fn settle_all(
    told: &mut Vec<Places>,
    limit: usize,
    segs: &[Seg],
    strip: Strip,
    row: &[SegAt],
    all: &[SegAt],
) -> Result<(), OutOfMemory>
    requires { StandInRow strip row.now }
    ensures grown { OnOk result (IsGrown segs.now told.old.items told.new.items) }
    ensures settled { OnOk result ((s t : SegAt) → Contains row.now s → Contains all.now t
        → IsSettled segs.now told.new.items strip s t) }
{
    let mut near = 0;
    for &t in all {
        near = settle_with_row(told, limit, segs, strip, row, near, t)?;
    }
    Ok(())
}

/// Takes a row out of segments, settles it with the rest of them and with others, and gives the rest.
fn settle_row(
    alloc: Global,
    told: &mut Vec<Places>,
    limit: usize,
    segs: &[Seg],
    strip: Strip,
    all: &[SegAt],
    others: &[SegAt],
) -> Result<Vec<SegAt>, OutOfMemory>
    ensures grown { IfOk result (λ rest. IsGrown segs.now told.old.items told.new.items) }
    ensures shorter { IfOk result (λ rest. 0 < length all.now
        → length rest.items < length all.now) }
    ensures reduced { IfOk result (λ rest. IsReduced segs.now strip told.new.items
        (rest.items ++ others.now) (all.now ++ others.now)) }
{
    let SideBySide { row, rest } = row_of(alloc, strip, all)?;
    settle_all(told, limit, segs, strip, &row, &rest)?;
    settle_all(told, limit, segs, strip, &row, others)?;
    Ok(rest)
}

/// Settles segments, a row at a time, with each other and with others.
pub fn settle_rows(
    alloc: Global,
    told: &mut Vec<Places>,
    limit: usize,
    segs: &[Seg],
    strip: Strip,
    all: Vec<SegAt>,
    others: &[SegAt],
) -> Result<(), OutOfMemory>
    ensures grown { OnOk result (IsGrown segs.now told.old.items told.new.items) }
    ensures reduced { OnOk result (IsReduced segs.now strip told.new.items others.now
        (all.items ++ others.now)) }
{
    let mut rest = all;
    while !rest.is_empty() {
        rest = settle_row(alloc, told, limit, segs, strip, &rest, others)?;
    }
    Ok(())
}
