//! Rings sorted out, their crossings cut.

ghost use Rattle.std.specs.Prelude.{◌≡◌, IfOk};
ghost use Rattle.coast_sides.specs.CutSorting.{IsCutAndSorted, NamesOfRingsRise};
ghost use Rattle.coast_sides.specs.Land.{HaveNoConflicts};
ghost use Rattle.coast_sides.specs.Rounds.{AreCutDown};
ghost use Rattle.coast_sides.specs.KeptSegments.{AreKeptSegments};
ghost use Rattle.coast_sides.specs.Segments.{all_segments};
ghost use Rattle.coast_sides.specs.Sorting.{AreConflicts};

use crate::choosing::chosen;
use crate::conflicting::{distinct_conflicts, segments_of};
use crate::kept_segments::KeptSegments;
use crate::ring_segments::all_segments;
use crate::rounds::{CutDown, cut_down};
use crate::sorted::{Pairs, Sorted};
use coast_rings::CoastRing;
use osm_geom::{Segs, conflicts_are_symmetric, orders_are_exact};
use osm_segments::Pair;
use std::alloc::{AllocError as OutOfMemory, Global};

/// The conflicts of the segments of rings, and the rings cut down at them.
fn cut_at_conflicts(alloc: Global, rings: &[CoastRing]) -> Result<(Vec<Pair>, CutDown), OutOfMemory>
    ensures pairs { IfOk result (λ found. AreConflicts (all_segments rings.now) found.0.items) }
    ensures down { IfOk result (λ found. AreCutDown rings.now found.1.left found.1.cuts) }
{
    let segs = all_segments(alloc, rings)?;
    let pairs = distinct_conflicts(alloc, segs)?;
    let crossed = segments_of(alloc, &pairs)?;
    let down = cut_down(alloc, rings, &crossed)?;
    Ok((pairs, down))
}

/// Rings sorted out, their crossings cut: shortcuts are cut into each ring until it doesn't conflict with itself. Of what is left
/// the long rings are kept before the short ones: a ring is left out where a kept ring that outranks it conflicts with it.
///
/// No two segments of kept rings conflict. It also gives these, each as often as it occurs, without their order by upper ends. The
/// conflicts that are told are those of the rings before any cut. The error is want of memory.
pub fn cut_and_sort_out(
    alloc: Global,
    rings: &[CoastRing],
) -> Result<(Sorted, KeptSegments), OutOfMemory>
    requires { NamesOfRingsRise rings.now }
    ensures sorted { IfOk result (λ out. IsCutAndSorted rings.now out.0) }
    ensures clear { IfOk result (λ out. HaveNoConflicts (all_segments out.0.kept)) }
    ensures segments { IfOk result (λ out. AreKeptSegments out.0.kept out.1) }
{
    orders_are_exact();
    conflicts_are_symmetric();
    let (pairs, down) = cut_at_conflicts(alloc, rings)?;
    let (kept, left_out) = chosen(alloc, down.left.as_slice())?;
    let segs = all_segments(alloc, kept.as_slice())?;
    let sorted = Sorted {
        kept,
        left_out,
        pairs: Pairs::from_vec(pairs),
        cuts: down.cuts,
    };
    let segs = KeptSegments {
        segs: Segs::from_vec(segs),
        by_ends: None,
    };
    Ok((sorted, segs))
}
