//! What counting shows about a list of segments: survivors, repeats, and nodes at which an odd number end.

ghost use Rattle.std.specs.Prelude.{◌≡◌, ◌++◌, ◌-◌, IfOk, OnOk, map};
ghost use Rattle.std.specs.List.Sorted.{IsSorted};
ghost use Rattle.std.specs.Ordering.{is_lt};
ghost use Rattle.lists.specs.Rising.{count_of};
ghost use Rattle.osm_lattice.specs.declared.seg.Seg.{Seg};
ghost use Rattle.osm_lattice.specs.Seg.{seg_cmp};
ghost use Rattle.osm_segments.specs.Counts.{AreSurvivors, AreDistinct, AreOddNodes};
ghost use Rattle.osm_segments.specs.Repeats.{AreRepeats, repeat_of};

use lists::{Tally, distinct_items, distinct_items_of, odd_items, odd_items_of, repeated_items};
use osm_lattice::{Loc, Seg};
use std::alloc::{AllocError as OutOfMemory, Global};

/// A segment of a list, and how often it occurs there.
#[derive(Clone, Copy, Debug, PartialEq, Eq)]
pub struct Repeat {
    pub seg: Seg,
    pub times: u64,
}

/// What cancelling makes of a list of segments.
#[derive(Drop)]
pub struct Cancelled {
    /// The segments that occur an odd number of times, each once, in strict order.
    pub survivors: Vec<Seg>,
    /// Those that occur at least twice, each once, in strict order.
    pub repeats: Vec<Repeat>,
}

/// The segments that occur an odd number of times in a list, each once, in strict order.
pub fn survivors(alloc: Global, segs: &[Seg]) -> Result<Vec<Seg>, OutOfMemory>
    ensures { IfOk result (λ v. AreSurvivors segs.now v.items) }
{
    odd_items(alloc, segs)
}

/// The segments of a list, each once, in strict order.
pub fn distinct(alloc: Global, segs: &[Seg]) -> Result<Vec<Seg>, OutOfMemory>
    ensures { IfOk result (λ v. AreDistinct segs.now v.items) }
{
    distinct_items(alloc, segs)
}

/// What `distinct` gives of a list that isn't needed any more, where it stands.
pub fn distinct_of(segs: Vec<Seg>) -> Vec<Seg>
    ensures { AreDistinct segs.items result.items }
{
    distinct_items_of(segs)
}

fn repeats_of(alloc: Global, tallies: &[Tally<Seg>]) -> Result<Vec<Repeat>, OutOfMemory>
    ensures { IfOk result (λ v. v.items ≡ map repeat_of tallies.now) }
{
    tallies
        .iter()
        .map(|t| Repeat {
            seg: t.item,
            times: t.times,
        })
        .collect(alloc)
}

/// The segments that occur at least twice in a list, each once and with its number, in strict order.
pub fn repeated(alloc: Global, segs: &[Seg]) -> Result<Vec<Repeat>, OutOfMemory>
    ensures { IfOk result (λ v. AreRepeats segs.now v.items) }
{
    let tallies = repeated_items(alloc, segs)?;
    repeats_of(alloc, &tallies)
}

fn comes_before(s: Seg, t: Seg) -> bool
    ensures { result ≡ is_lt (seg_cmp s t) }
{
    s < t
}

/// The segments of a list in order that equal the one before them.
fn equal_to_last(alloc: Global, sorted: &[Seg]) -> Result<Vec<Seg>, OutOfMemory>
    requires { IsSorted seg_cmp sorted.now }
    ensures { IfOk result (λ v. (s : Seg) → count_of seg_cmp s v.items
        ≡ count_of seg_cmp s sorted.now - 1) }
{
    let mut equal = Vec::new(alloc);
    for place in 1..sorted.len() {
        if !comes_before(sorted[place - 1], sorted[place]) {
            equal.push(sorted[place])?;
        }
    }
    Ok(equal)
}

/// The repeats of a list in order. Only those that occur at least twice are counted.
fn repeats_along(alloc: Global, sorted: &[Seg]) -> Result<Vec<Repeat>, OutOfMemory>
    requires { IsSorted seg_cmp sorted.now }
    ensures { IfOk result (λ v. AreRepeats sorted.now v.items) }
{
    let mut copies = equal_to_last(alloc, sorted)?;
    if copies.is_empty() {
        return Ok(Vec::new(alloc));
    }
    let once = distinct(alloc, &copies)?;
    copies.extend_from_slice(&once)?;
    repeated(alloc, &copies)
}

/// The segments of a list in order.
fn in_order(mut segs: Vec<Seg>) -> Vec<Seg>
    ensures counts { (s : Seg) → count_of seg_cmp s result.items ≡ count_of seg_cmp s segs.items }
    ensures order { IsSorted seg_cmp result.items }
{
    segs.sort_unstable();
    segs
}

/// What `cancel` gives of segments that aren't needed any more, where they stand.
pub fn cancel_of(alloc: Global, segs: Vec<Seg>) -> Result<Cancelled, OutOfMemory>
    ensures survivors { IfOk result (λ c. AreSurvivors segs.items c.survivors.items) }
    ensures repeats { IfOk result (λ c. AreRepeats segs.items c.repeats.items) }
{
    let sorted = in_order(segs);
    let repeats = repeats_along(alloc, &sorted)?;
    let survivors = odd_items_of(sorted)?;
    Ok(Cancelled { survivors, repeats })
}

/// Cancels the segments of a list that occur there repeatedly: gives what survives and what was repeated.
pub fn cancel(alloc: Global, segs: &[Seg]) -> Result<Cancelled, OutOfMemory>
    ensures survivors { IfOk result (λ c. AreSurvivors segs.now c.survivors.items) }
    ensures repeats { IfOk result (λ c. AreRepeats segs.now c.repeats.items) }
{
    cancel_of(alloc, Vec::from_slice(alloc, segs)?)
}

/// Adds the lesser end of each segment.
fn add_lesser_ends(ends: &mut Vec<Loc>, segs: &[Seg]) -> Result<(), OutOfMemory>
    ensures { OnOk result (ends.new.items ≡ ends.old.items ++ map (λ s. s.a) segs.now) }
{
    for seg in segs {
        ends.push(seg.a)?;
    }
    Ok(())
}

/// Adds the greater end of each segment.
fn add_greater_ends(ends: &mut Vec<Loc>, segs: &[Seg]) -> Result<(), OutOfMemory>
    ensures { OnOk result (ends.new.items ≡ ends.old.items ++ map (λ s. s.b) segs.now) }
{
    for seg in segs {
        ends.push(seg.b)?;
    }
    Ok(())
}

/// Both ends of each segment: all lesser ones, which are in order if the segments are, and then all greater ones.
fn ends(alloc: Global, segs: &[Seg]) -> Result<Vec<Loc>, OutOfMemory>
    ensures { IfOk result (λ v. v.items ≡ map (λ s. s.a) segs.now ++ map (λ s. s.b) segs.now) }
{
    let mut ends = Vec::with_capacity(alloc, 2 * segs.len())?;
    add_lesser_ends(&mut ends, segs)?;
    add_greater_ends(&mut ends, segs)?;
    Ok(ends)
}

/// The locations at which an odd number of segments end, in strict order.
pub fn odd_nodes(alloc: Global, segs: &[Seg]) -> Result<Vec<Loc>, OutOfMemory>
    ensures { IfOk result (λ v. AreOddNodes segs.now v.items) }
{
    odd_items_of(ends(alloc, segs)?)
}
