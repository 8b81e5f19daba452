//! What is left of segments, in the order of their upper ends.

ghost use Rattle.std.specs.Prelude.{◌≡◌, ◌++◌, ◌∷◌, [], if◌then◌else◌, IfOk, IfSome, IsPermutation, List, OnOk, filter, min, not};
ghost use Rattle.std.specs.List.Sorted.{IsSorted};
ghost use Rattle.lists.specs.Rising.{IsRising, count_of};
ghost use Rattle.osm_lattice.specs.declared.seg.Seg.{Seg};
ghost use Rattle.osm_lattice.specs.Seg.{seg_cmp};
ghost use Rattle.osm_segments.specs.Counts.{AreSurvivors};
ghost use Rattle.osm_segments.specs.Repeats.{AreRepeats, segs_of};
ghost use Rattle.osm_segments.specs.Sweep.{AreByEnds, EndsRise};
ghost use Rattle.coast_sides.specs.KeptSegments.{AreByEndsAmong, is_left};

use crate::kept_segments::EndOrder;
use crate::taking_away::take_away;
use lists::is_among;
use osm_geom::{Seg, orders_are_exact};
use osm_segments::{Cancelled, Repeat, distinct_of};
use std::alloc::{AllocError as OutOfMemory, Global};

/// Segments in the order of their upper ends, and those of one upper end in the order of their lower ones.
///
/// So a part of a list stands in the same order as the whole.
pub(crate) fn in_end_order(mut segs: Vec<Seg>) -> Vec<Seg>
    ensures moved { IsPermutation segs.items result.items }
    ensures rise { EndsRise result.items }
{
    orders_are_exact();
    segs.sort_unstable_by(|s, t| s.b.cmp(&t.b).then(s.a.cmp(&t.a)));
    segs
}

/// The segments that occur repeatedly.
fn repeated_segs(alloc: Global, repeats: &[Repeat]) -> Result<Vec<Seg>, OutOfMemory>
    ensures { IfOk result (λ v. v.items ≡ segs_of repeats.now) }
{
    repeats.iter().map(|repeat| repeat.seg).collect(alloc)
}

/// The segments that occur repeatedly, and then others.
fn repeats_and_others(
    alloc: Global,
    repeats: &[Repeat],
    others: &[Seg],
) -> Result<Vec<Seg>, OutOfMemory>
    ensures { IfOk result (λ v. v.items ≡ segs_of repeats.now ++ others.now) }
{
    let mut segs = repeated_segs(alloc, repeats)?;
    segs.extend_from_slice(others)?;
    Ok(segs)
}

/// Adds a segment that isn't among those that are left, which are in order.
fn add_gone(gone: &mut Vec<Seg>, left: &[Seg], seg: Seg) -> Result<(), OutOfMemory>
    requires { IsSorted seg_cmp left.now }
    ensures { OnOk result (gone.new.items ≡ gone.old.items
        ++ (if not (is_left left.now seg) then seg ∷ [] else [])) }
{
    if !is_among(left, &seg) {
        gone.push(seg)?;
    }
    Ok(())
}

/// Those of some segments that aren't among those that are left, which are in order.
fn gone_of(alloc: Global, segs: &[Seg], left: &[Seg]) -> Result<Vec<Seg>, OutOfMemory>
    requires { IsSorted seg_cmp left.now }
    ensures { IfOk result (λ v. v.items ≡ filter (λ s. not (is_left left.now s)) segs.now) }
{
    let mut gone = Vec::new(alloc);
    for &seg in segs {
        add_gone(&mut gone, left, seg)?;
    }
    Ok(gone)
}

/// The segments that occur repeatedly or are among the others, and aren't left: each once, in the order of their upper ends.
fn gone_by_ends(alloc: Global, left: &Cancelled, others: &[Seg]) -> Result<Vec<Seg>, OutOfMemory>
    requires { IsRising seg_cmp left.now.survivors.items }
    ensures { IfOk result (λ v. (s : Seg) → count_of seg_cmp s v.items
        ≡ min 1 (count_of seg_cmp s (filter (λ t. not (is_left left.now.survivors.items t))
        (segs_of left.now.repeats.items ++ others.now)))) }
{
    let segs = repeats_and_others(alloc, &left.repeats, others)?;
    let gone = gone_of(alloc, &segs, &left.survivors)?;
    Ok(in_end_order(distinct_of(gone)))
}

/// What is left, in an order in which it stands among others; None if these aren't all found there.
fn left_among(
    alloc: Global,
    left: &Cancelled,
    order: EndOrder,
) -> Result<Option<Vec<Seg>>, OutOfMemory>
    requires { IsRising seg_cmp left.now.survivors.items }
    ensures { IfOk result (λ found. IfSome found (λ ends. (segs : List Seg)
        → AreSurvivors segs left.now.survivors.items → AreRepeats segs left.now.repeats.items
        → AreByEndsAmong segs order → AreByEnds left.now.survivors.items ends.items)) }
{
    orders_are_exact();
    let gone = gone_by_ends(alloc, left, order.others.as_slice())?;
    let mut ends = order.segs.into_vec();
    if take_away(&mut ends, &gone) == gone.len() {
        return Ok(Some(ends));
    }
    Ok(None)
}

/// What is left, in the order of upper ends, if it is known in which order it stands among others.
fn left_if_known(
    alloc: Global,
    left: &Cancelled,
    order: Option<EndOrder>,
) -> Result<Option<Vec<Seg>>, OutOfMemory>
    requires { IsRising seg_cmp left.now.survivors.items }
    ensures { IfOk result (λ found. IfSome found (λ ends. (segs : List Seg)
        → AreSurvivors segs left.now.survivors.items → AreRepeats segs left.now.repeats.items
        → IfSome order (AreByEndsAmong segs) → AreByEnds left.now.survivors.items ends.items)) }
{
    match order {
        Some(order) => left_among(alloc, left, order),
        None => Ok(None),
    }
}

/// What is left, in the order of upper ends.
///
/// Ways: by the order in which it stands among others, of which those that aren't left are taken away; all else by sorting.
pub(crate) fn left_by_ends(
    alloc: Global,
    left: &Cancelled,
    order: Option<EndOrder>,
) -> Result<Vec<Seg>, OutOfMemory>
    requires { IsRising seg_cmp left.now.survivors.items }
    ensures { IfOk result (λ ends. (segs : List Seg)
        → AreSurvivors segs left.now.survivors.items → AreRepeats segs left.now.repeats.items
        → IfSome order (AreByEndsAmong segs) → AreByEnds left.now.survivors.items ends.items) }
{
    if let Some(ends) = left_if_known(alloc, left, order)? {
        return Ok(ends);
    }
    let ends = Vec::from_slice(alloc, &left.survivors)?;
    Ok(in_end_order(ends))
}
