//! The segments of kept rings, from those of all.

ghost use Rattle.std.specs.Prelude.{◌≡◌, ◌+◌, ◌<◌, ◌≤◌, AllPairs, Bool, IfOk, length, slice_index_or, take, true};
ghost use Rattle.lists.specs.Rising.{count_of};
ghost use Rattle.osm_lattice.specs.declared.seg.Seg.{Seg};
ghost use Rattle.osm_lattice.specs.Seg.{seg_cmp};
ghost use Rattle.coast_sides.specs.Segments.{AreRingSegments, all_segments};

use crate::ring_segments::all_segments;
use coast_rings::CoastRing;
use osm_geom::{Seg, Segs, orders_are_exact};
use std::alloc::{AllocError as OutOfMemory, Global};

/// Segments in order.
pub(crate) fn in_order(mut segs: Vec<Seg>) -> Vec<Seg>
    ensures { (s : Seg) → count_of seg_cmp s result.items ≡ count_of seg_cmp s segs.items }
{
    segs.sort_unstable();
    segs
}

/// Whether a segment is the next of these.
fn is_next(away: &[Seg], next: usize, seg: Seg) -> bool
    ensures inside { result ≡ true → next < length away.now }
    ensures next { result ≡ true → slice_index_or away.now next seg ≡ seg }
{
    orders_are_exact();
    next < away.len() && away[next] == seg
}

/// Takes others away from segments, where they stand, and tells how many of the others were found among them: all, if both
/// lists are in order and the segments have them. Those that are left stand in their order.
pub(crate) fn take_away(segs: &mut Vec<Seg>, away: &[Seg]) -> usize
    ensures within { result ≤ length away.now }
    ensures counts { (s : Seg) → count_of seg_cmp s segs.new.items
        + count_of seg_cmp s (take result away.now) ≡ count_of seg_cmp s segs.old.items }
    ensures order { (r : Seg → Seg → Bool) → AllPairs (λ s t. r s t ≡ true) segs.old.items
        → AllPairs (λ s t. r s t ≡ true) segs.new.items }
{
    let mut found = 0;
    let mut left = 0;
    for place in 0..segs.len() {
        let seg = segs[place];
        if is_next(away, found, seg) {
            found += 1;
        } else {
            segs[left] = seg;
            left += 1;
        }
    }
    segs.truncate(left);
    found
}

/// The segments of kept rings, from those of all: the others are taken away.
///
/// Ways: all of them, if there are no others; those that are left once the others are found; all else ring by ring.
pub(crate) fn segments_kept(
    alloc: Global,
    mut segs: Vec<Seg>,
    kept: &[CoastRing],
    others: &[Seg],
) -> Result<Segs, OutOfMemory>
    requires { (s : Seg) → count_of seg_cmp s segs.items
        ≡ count_of seg_cmp s (all_segments kept.now) + count_of seg_cmp s others.now }
    ensures { IfOk result (AreRingSegments kept.now) }
{
    if take_away(&mut segs, others) == others.len() {
        return Ok(Segs::from_vec(segs));
    }
    Ok(Segs::from_vec(all_segments(alloc, kept)?))
}
