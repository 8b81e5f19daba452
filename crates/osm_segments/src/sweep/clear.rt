//! Whether segments are free of conflicts, or are so without few of them, by one sweep upwards.
ghost use Rattle.std.specs.Prelude.{◌≡◌, ◌≤◌, [], IfOk, IfSome, IsPermutation, length, true};
ghost use Rattle.osm_lattice.specs.Seg.{seg_cmp};
ghost use Rattle.lists.specs.Rising.{IsRising};
ghost use Rattle.osm_segments.specs.Pairs.{conflicts_of};
ghost use Rattle.osm_segments.specs.Sweep.{AreInTheWay, EndsRise};

use crate::sweep::steps::{by_ends, enter, follow, leave, make_way, next_enters};
use chunked_list::ChunkedList;
use osm_lattice::Seg;
use std::alloc::{AllocError as OutOfMemory, Global};

/// At most so many segments are set aside, and tried with all.
const FEW: usize = 255;

/// Segments without which the others, of those in strict order, have no conflict. None if one sweep upwards finds more than `most`.
///
/// Each segment enters between those of the status that are left and right of its lower end; it is in the way if it doesn't fit
/// there. It leaves at its upper end, or another that begins there takes its place. If the two next to one that leaves conflict,
/// the one behind it is in the way. Only segments that become neighbours are tried. The segments are also given in the order of
/// their upper ends.
pub fn in_the_way(
    alloc: Global,
    segs: &[Seg],
    ends: &[Seg],
    most: usize,
) -> Result<Option<Vec<Seg>>, OutOfMemory>
    requires rising { IsRising seg_cmp segs.now }
    requires moved { IsPermutation segs.now ends.now }
    requires rise { EndsRise ends.now }
    ensures others { IfOk result (λ found. IfSome found (λ v. AreInTheWay segs.now v.items)) }
    ensures few { IfOk result (λ found. IfSome found (λ v. length v.items ≤ most)) }
{
    let mut status = ChunkedList::new(alloc);
    let mut aside = Vec::new(alloc);
    let mut next = 0;
    let mut left = 0;
    while left < ends.len() && aside.len() <= most {
        if next_enters(segs, next, ends[left]) {
            if !enter(&mut status, segs[next])? {
                aside.push(segs[next])?;
            }
            next += 1;
        } else if follow(&mut status, segs, next, ends, left) {
            next += 1;
            left += 1;
        } else if leave(&mut status, ends[left]) {
            left += 1;
        } else if aside.contains(&ends[left]) {
            left += 1;
        } else if let Some(behind) = make_way(&mut status, ends[left]) {
            aside.push(behind)?;
        } else {
            return Ok(None);
        }
    }
    if aside.len() > most || next != segs.len() || !status.is_empty() {
        return Ok(None);
    }
    Ok(Some(aside))
}

/// Whether one sweep upwards finds segments in strict order free of conflicts. They are also given in the order of their upper ends.
pub fn is_clear(alloc: Global, segs: &[Seg], ends: &[Seg]) -> Result<bool, OutOfMemory>
    requires rising { IsRising seg_cmp segs.now }
    requires moved { IsPermutation segs.now ends.now }
    requires rise { EndsRise ends.now }
    ensures { IfOk result (λ clear. clear ≡ true → conflicts_of segs.now ≡ []) }
{
    let found = in_the_way(alloc, segs, ends, 0)?;
    Ok(found.is_some())
}

/// The same of segments that aren't given in the order of their upper ends. Their list in that order goes once the sweep has ended.
pub fn is_clear_by_ends(alloc: Global, segs: &[Seg]) -> Result<bool, OutOfMemory>
    requires { IsRising seg_cmp segs.now }
    ensures { IfOk result (λ clear. clear ≡ true → conflicts_of segs.now ≡ []) }
{
    let ends = by_ends(alloc, segs)?;
    is_clear(alloc, segs, &ends)
}

/// Few segments without which the others, of those in strict order, have no conflict, if one sweep finds them. The segments are also
/// given in the order of their upper ends.
pub fn few_in_the_way_along(
    alloc: Global,
    segs: &[Seg],
    ends: &[Seg],
) -> Result<Option<Vec<Seg>>, OutOfMemory>
    requires rising { IsRising seg_cmp segs.now }
    requires moved { IsPermutation segs.now ends.now }
    requires rise { EndsRise ends.now }
    ensures { IfOk result (λ found. IfSome found (λ v. AreInTheWay segs.now v.items)) }
{
    in_the_way(alloc, segs, ends, FEW)
}

/// The same of segments that aren't given in the order of their upper ends. Their list in that order goes once the sweep has ended.
pub fn few_in_the_way(alloc: Global, segs: &[Seg]) -> Result<Option<Vec<Seg>>, OutOfMemory>
    requires { IsRising seg_cmp segs.now }
    ensures { IfOk result (λ found. IfSome found (λ v. AreInTheWay segs.now v.items)) }
{
    let ends = by_ends(alloc, segs)?;
    few_in_the_way_along(alloc, segs, &ends)
}
