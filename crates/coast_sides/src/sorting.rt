//! Rings sorted out: kept, or left out for a conflict.

ghost use Rattle.std.specs.Prelude.{◌≡◌, ◌++◌, ◌∷◌, [], if◌then◌else◌, IfOk, OnOk, filter, not};
ghost use Rattle.std.specs.List.{list_any};
ghost use Rattle.std.specs.BTreeSet.{contains};
ghost use Rattle.osm_lattice.specs.Seg.{seg_cmp};
ghost use Rattle.coast_sides.specs.Land.{HaveNoConflicts};
ghost use Rattle.coast_sides.specs.KeptSegments.{AreKeptSegments};
ghost use Rattle.coast_sides.specs.Segments.{all_segments, segments_round};
ghost use Rattle.coast_sides.specs.Sorting.{IsSorted};

use crate::conflicting::{conflicts_and_ends, runs_along, segments_of};
use crate::cut::Cuts;
use crate::kept_segments::{EndOrder, KeptSegments};
use crate::ring_segments::all_segments;
use crate::sorted::{Pairs, Sorted};
use crate::taking_away::{in_order, segments_kept};
use coast_rings::{CoastRing, CoastRings};
use osm_geom::{Path, Seg, Segs, conflicts_are_symmetric, orders_are_exact};
use std::alloc::{AllocError as OutOfMemory, Global};
use std::collections::BTreeSet;

/// A copy of a ring.
pub(crate) fn copy_of(alloc: Global, ring: &CoastRing) -> Result<CoastRing, OutOfMemory>
    ensures { IfOk result (λ copy. copy ≡ ring.now) }
{
    let path = Path::from_vec(Vec::from_slice(alloc, ring.path.as_slice())?);
    Ok(CoastRing {
        name: ring.name,
        path,
    })
}

/// Puts a ring at the end of one of two lists.
pub(crate) fn put(
    free: &mut CoastRings,
    along: &mut CoastRings,
    ring: CoastRing,
    is_along: bool,
) -> Result<(), OutOfMemory>
    ensures free { OnOk result (free.new ≡ free.old ++ (if is_along then [] else ring ∷ [])) }
    ensures along { OnOk result (along.new ≡ along.old ++ (if is_along then ring ∷ [] else [])) }
{
    if is_along {
        along.push(ring)?;
        return Ok(());
    }
    free.push(ring)?;
    Ok(())
}

/// The rings none of whose segments is among these, and then the others.
fn parted(
    alloc: Global,
    rings: &[CoastRing],
    segs: &BTreeSet<Seg>,
) -> Result<(CoastRings, CoastRings), OutOfMemory>
    ensures free { IfOk result (λ parts. parts.0 ≡ filter (λ ring. not (list_any
        (contains seg_cmp segs.now) (segments_round ring.path))) rings.now) }
    ensures along { IfOk result (λ parts. parts.1 ≡ filter (λ ring. list_any
        (contains seg_cmp segs.now) (segments_round ring.path)) rings.now) }
{
    let mut free = CoastRings::new(alloc);
    let mut along = CoastRings::new(alloc);
    for ring in rings {
        let copy = copy_of(alloc, ring)?;
        let is_along = runs_along(segs, ring.path.as_slice());
        put(&mut free, &mut along, copy, is_along)?;
    }
    Ok((free, along))
}

/// Rings sorted out: one is left out where one of its segments conflicts with a segment of any ring, itself included, and
/// kept otherwise. Nothing cancels before segments are compared.
///
/// No two segments of kept rings conflict. It also gives these, each as often as it occurs. The order by upper ends of the segments
/// of all rings may come with them. The error is want of memory.
pub fn sort_out(alloc: Global, rings: &[CoastRing]) -> Result<(Sorted, KeptSegments), OutOfMemory>
    ensures sorted { IfOk result (λ out. IsSorted rings.now out.0) }
    ensures clear { IfOk result (λ out. HaveNoConflicts (all_segments out.0.kept)) }
    ensures segments { IfOk result (λ out. AreKeptSegments out.0.kept out.1) }
{
    orders_are_exact();
    conflicts_are_symmetric();
    let segs = in_order(all_segments(alloc, rings)?);
    let (pairs, ends) = conflicts_and_ends(alloc, Vec::from_slice(alloc, &segs)?)?;
    let conflicting = segments_of(alloc, &pairs)?;
    let (kept, left_out) = parted(alloc, rings, &conflicting)?;
    let others = in_order(all_segments(alloc, left_out.as_slice())?);
    let segs = segments_kept(alloc, segs, kept.as_slice(), &others)?;
    let by_ends = EndOrder {
        segs: Segs::from_vec(ends),
        others: Segs::from_vec(others),
    };
    let sorted = Sorted {
        kept,
        left_out,
        pairs: Pairs::from_vec(pairs),
        cuts: Cuts::new(alloc),
    };
    let segs = KeptSegments {
        segs,
        by_ends: Some(by_ends),
    };
    Ok((sorted, segs))
}
