//! The segments that conflict, to be looked up.

ghost use Rattle.std.specs.Prelude.{◌≡◌, ◌||◌, IfOk, OnOk, min};
ghost use Rattle.std.specs.List.{list_any};
ghost use Rattle.std.specs.Option.{option_to_list};
ghost use Rattle.std.specs.BTreeSet.{contains};
ghost use Rattle.lists.specs.Rising.{count_of};
ghost use Rattle.osm_lattice.specs.declared.seg.Seg.{Seg};
ghost use Rattle.osm_lattice.specs.Seg.{seg_cmp, segment_between};
ghost use Rattle.osm_segments.specs.Sweep.{EndsRise};
ghost use Rattle.coast_sides.specs.Segments.{segments_round};
ghost use Rattle.coast_sides.specs.Sorting.{AreConflicts, is_in_pair};

use crate::end_order::in_end_order;
use crate::ring_segments::next_round;
use osm_geom::{Loc, Seg};
use osm_segments::{Pair, conflicts, conflicts_along, distinct_of};
use std::alloc::{AllocError as OutOfMemory, Global};
use std::collections::BTreeSet;

/// The conflicts of segments, each of which is taken once.
pub(crate) fn distinct_conflicts(alloc: Global, segs: Vec<Seg>) -> Result<Vec<Pair>, OutOfMemory>
    ensures { IfOk result (λ v. AreConflicts segs.items v.items) }
{
    conflicts(alloc, &distinct_of(segs))
}

/// The same, and the segments, each once, in the order of their upper ends.
pub(crate) fn conflicts_and_ends(
    alloc: Global,
    segs: Vec<Seg>,
) -> Result<(Vec<Pair>, Vec<Seg>), OutOfMemory>
    ensures pairs { IfOk result (λ found. AreConflicts segs.items found.0.items) }
    ensures once { IfOk result (λ found. (s : Seg) → count_of seg_cmp s found.1.items
        ≡ min 1 (count_of seg_cmp s segs.items)) }
    ensures rise { IfOk result (λ found. EndsRise found.1.items) }
{
    let once = distinct_of(segs);
    let ends = in_end_order(Vec::from_slice(alloc, &once)?);
    let pairs = conflicts_along(alloc, &once, &ends)?;
    Ok((pairs, ends))
}

/// Adds both segments of a pair.
fn add_pair(segs: &mut BTreeSet<Seg>, pair: &Pair) -> Result<(), OutOfMemory>
    ensures { OnOk result ((s : Seg) → contains seg_cmp segs.new s
        ≡ (contains seg_cmp segs.old s || is_in_pair s pair.now)) }
{
    segs.insert(pair.first)?;
    segs.insert(pair.second)?;
    Ok(())
}

/// The segments of pairs.
pub(crate) fn segments_of(alloc: Global, pairs: &[Pair]) -> Result<BTreeSet<Seg>, OutOfMemory>
    ensures { IfOk result (λ segs. (s : Seg) → contains seg_cmp segs s
        ≡ list_any (is_in_pair s) pairs.now) }
{
    let mut segs = BTreeSet::new(alloc);
    for pair in pairs {
        add_pair(&mut segs, pair)?;
    }
    Ok(segs)
}

/// Whether some of these segments is in the set.
pub(crate) fn any_among(segs: &BTreeSet<Seg>, some: &[Seg]) -> bool
    ensures { result ≡ list_any (contains seg_cmp segs.now) some.now }
{
    some.iter().any(|seg| segs.contains(seg))
}

/// Whether the segment between two locations is among these, if they have one.
fn is_step_among(segs: &BTreeSet<Seg>, from: Loc, to: Loc) -> bool
    ensures { result ≡ list_any (contains seg_cmp segs.now)
        (option_to_list (segment_between from to)) }
{
    match Seg::new(from, to) {
        Some(seg) => segs.contains(&seg),
        None => false,
    }
}

/// Whether some segment of a closed line is among these.
pub(crate) fn runs_along(segs: &BTreeSet<Seg>, path: &[Loc]) -> bool
    ensures { result ≡ list_any (contains seg_cmp segs.now) (segments_round path.now) }
{
    for place in 0..path.len() {
        if is_step_among(segs, path[place], path[next_round(place, path.len())]) {
            return true;
        }
    }
    false
}
