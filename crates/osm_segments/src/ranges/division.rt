//! Strips, halved until each segment runs through one or few are left.
//!
//! A segment that runs through a strip is put into a row there and goes no further; the others go to the halves that they reach. Two
//! segments in conflict stay together until one of them runs through a strip in which they conflict.
ghost use Rattle.std.specs.Prelude.{◌≡◌, ◌≢◌, ◌↔◌, ◌≤ℤ◌, [], Contains, IfOk, IsPermutation, List, OnOk, false, map, true};
ghost use Rattle.osm_lattice.specs.declared.loc.Loc.{Loc};
ghost use Rattle.osm_lattice.specs.declared.seg.Seg.{Seg};
ghost use Rattle.osm_segments.specs.declared.places.Places.{Places};
ghost use Rattle.osm_segments.specs.declared.ranges.strips.SegAt.{SegAt};
ghost use Rattle.osm_segments.specs.declared.ranges.strips.Strip.{Strip};
ghost use Rattle.osm_lattice.specs.Seg.{seg_cmp};
ghost use Rattle.lists.specs.Rising.{IsRising};
ghost use Rattle.osm_segments.specs.Pairs.{conflicts_of};
ghost use Rattle.osm_segments.specs.Places.{AreConflictPlaces};
ghost use Rattle.osm_segments.specs.Sweep.{EndsRise};
ghost use Rattle.osm_segments.specs.Ranges.{AreSettled, AreToldOrClear, HaveNoConflict, IsGrown, IsReduced, height, places_cmp};

use crate::counts::distinct_of;
use crate::pairs::{Pair, pair_at};
use crate::places::Places;
use crate::ranges::rows::{ByRun, in_order_across, part_by_run};
use crate::ranges::strips::{Halves, SegAt, Strip, halved, heights_of, with_places};
use crate::ranges::telling::{settle_rows, try_each};
use crate::sweep::clear::{is_clear, is_clear_by_ends};
use lists::counts_determine;
use osm_lattice::{Loc, Seg, conflicts_are_symmetric};
use std::alloc::{AllocError as OutOfMemory, Global};

/// At most this many segments are tried in pairs; a strip of more is halved.
const FEW: usize = 24;

/// Settles the segments that run through a strip, and gives the others.
fn settle_through(
    alloc: Global,
    told: &mut Vec<Places>,
    limit: usize,
    segs: &[Seg],
    strip: Strip,
    all: Vec<SegAt>,
) -> Result<Vec<SegAt>, OutOfMemory>
    ensures grown { IfOk result (λ others. IsGrown segs.now told.old.items told.new.items) }
    ensures reduced { IfOk result (λ others. IsReduced segs.now strip told.new.items others.items
        all.items) }
{
    let ByRun { through, others } = part_by_run(alloc, strip, all)?;
    let through = in_order_across(strip, through);
    settle_rows(alloc, told, limit, segs, strip, through, &others)?;
    Ok(others)
}

/// The segments, without their places.
fn segs_of(alloc: Global, all: &[SegAt]) -> Result<Vec<Seg>, OutOfMemory>
    ensures { IfOk result (λ v. v.items ≡ map (λ s. s.seg) all.now) }
{
    all.iter().map(|s| s.seg).collect(alloc)
}

/// Whether one sweep finds segments free of conflicts.
fn are_clear(alloc: Global, all: &[SegAt]) -> Result<bool, OutOfMemory>
    ensures { IfOk result (λ clear. clear ≡ true → (s t : SegAt) → Contains all.now s
        → Contains all.now t → HaveNoConflict s.seg t.seg) }
{
    conflicts_are_symmetric();
    let segs = distinct_of(segs_of(alloc, all)?);
    is_clear_by_ends(alloc, &segs)
}

/// Segments that are still to be settled: none, where one sweep finds them free of conflicts, and else all.
fn unsettled(alloc: Global, all: Vec<SegAt>) -> Result<Vec<SegAt>, OutOfMemory>
    ensures { IfOk result (λ v. (segs : List Seg) (told : List Places) (strip : Strip)
        → AreSettled segs told strip v.items → AreSettled segs told strip all.items) }
{
    match are_clear(alloc, &all) {
        Ok(true) => Ok(Vec::new(alloc)),
        Ok(false) => Ok(all),
        Err(OutOfMemory) => Err(OutOfMemory),
    }
}

/// Settles the segments of a strip. The strip is halved at heights within it.
fn settle_strip(
    alloc: Global,
    told: &mut Vec<Places>,
    limit: usize,
    segs: &[Seg],
    strip: Strip,
    heights: &[Loc],
    all: Vec<SegAt>,
) -> Result<(), OutOfMemory>
    ensures grown { OnOk result (IsGrown segs.now told.old.items told.new.items) }
    ensures settled { OnOk result (AreSettled segs.now told.new.items strip all.items) }
{
    if all.len() <= FEW {
        return try_each(told, limit, segs, strip, &all);
    }
    let others = settle_through(alloc, told, limit, segs, strip, all)?;
    if heights.is_empty() {
        return try_each(told, limit, segs, strip, &others);
    }
    let at = heights.len() / 2;
    let middle = heights[at];
    let Halves { below, above } = halved(alloc, others, middle)?;
    let lower = Strip {
        low: strip.low,
        high: middle,
    };
    let below = unsettled(alloc, below)?;
    settle_strip(alloc, told, limit, segs, lower, &heights[..at], below)?;
    let upper = Strip {
        low: middle,
        high: strip.high,
    };
    let above = unsettled(alloc, above)?;
    settle_strip(alloc, told, limit, segs, upper, &heights[at + 1..], above)
}

/// All of the plane.
fn whole_plane() -> Strip
    ensures low { (p : Loc) → height result.low ≤ℤ height p }
    ensures high { (p : Loc) → height p ≤ℤ height result.high }
{
    Strip {
        low: Loc {
            x: -1_800_000_000,
            y: -900_000_000,
        },
        high: Loc {
            x: 1_800_000_000,
            y: 900_000_000,
        },
    }
}

/// Places in order, each once.
pub(crate) fn each_once(mut told: Vec<Places>) -> Vec<Places>
    ensures kept { (p : Places) → Contains told.items p → Contains result.items p }
    ensures known { (p : Places) → Contains result.items p → Contains told.items p }
    ensures rising { IsRising places_cmp result.items }
{
    told.sort_unstable();
    told.dedup();
    told
}

/// Settles all segments of a list.
fn settle_list(
    alloc: Global,
    told: &mut Vec<Places>,
    limit: usize,
    segs: &[Seg],
) -> Result<(), OutOfMemory>
    ensures grown { OnOk result (IsGrown segs.now told.old.items told.new.items) }
    ensures told { OnOk result (AreToldOrClear segs.now told.new.items) }
{
    let heights = heights_of(alloc, segs)?;
    let all = with_places(alloc, segs)?;
    settle_strip(alloc, told, limit, segs, whole_plane(), &heights, all)
}

/// The places of all conflicting pairs among segments in strict order, in order.
pub fn conflict_places(alloc: Global, segs: &[Seg]) -> Result<Vec<Places>, OutOfMemory>
    requires { IsRising seg_cmp segs.now }
    ensures { IfOk result (λ v. AreConflictPlaces segs.now v.items) }
{
    conflicts_are_symmetric();
    counts_determine::<Pair>();
    let mut told = Vec::new(alloc);
    settle_list(alloc, &mut told, usize::MAX, segs)?;
    Ok(each_once(told))
}

/// Whether two segments of a list conflict, given as places, the lesser first.
fn is_conflict_at(segs: &[Seg], p: Places) -> bool
    ensures { result ≡ true → conflicts_of segs.now ≢ [] }
{
    if p.first >= p.second {
        return false;
    }
    pair_at(segs, p).is_some()
}

/// Whether the first of these pairs of places shows two segments of a list that conflict.
fn shows_conflict(segs: &[Seg], told: &[Places]) -> bool
    ensures { result ≡ true → conflicts_of segs.now ≢ [] }
{
    if told.is_empty() {
        return false;
    }
    is_conflict_at(segs, told[0])
}

/// Whether any two of these segments in strict order conflict. They are also given in the order of their upper ends.
///
/// The search ends with the second conflict.
///
/// Ways: segments that one sweep finds free of conflicts (sweep); all others by strips (ranges).
pub fn has_conflict(alloc: Global, segs: &[Seg], ends: &[Seg]) -> Result<bool, OutOfMemory>
    requires rising { IsRising seg_cmp segs.now }
    requires moved { IsPermutation segs.now ends.now }
    requires rise { EndsRise ends.now }
    ensures { IfOk result (λ found. (found ≡ false) ↔ (conflicts_of segs.now ≡ [])) }
{
    if is_clear(alloc, segs, ends)? {
        return Ok(false);
    }
    conflicts_are_symmetric();
    counts_determine::<Pair>();
    let mut told = Vec::new(alloc);
    let searched = settle_list(alloc, &mut told, 1, segs);
    if shows_conflict(segs, &told) {
        return Ok(true);
    }
    searched?;
    Ok(!each_once(told).is_empty())
}
