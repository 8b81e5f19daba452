//! Strips of the tilted plane between two heights, and the segments that run through them.
ghost use Rattle.std.specs.Prelude.{◌≡◌, ◌⊎◌, ◌≤ℤ◌, ◌<◌, ℕ, Contains, IfOk, length, slice_index_or};
ghost use Rattle.std.specs.Ordering.{is_lt};
ghost use Rattle.osm_lattice.specs.Loc.{loc_cmp};
ghost use Rattle.osm_segments.specs.Ranges.{height};

use osm_lattice::{Loc, Seg};
use std::alloc::{AllocError as OutOfMemory, Global};

/// A segment and its place in a list.
#[derive(Clone, Copy, Debug, PartialEq, Eq)]
pub struct SegAt {
    pub seg: Seg,
    pub place: u32,
}

/// The plane from the height of one location up to that of another.
#[derive(Clone, Copy, Debug, PartialEq, Eq)]
pub struct Strip {
    pub low: Loc,
    pub high: Loc,
}

/// The later of two locations.
fn later(p: Loc, q: Loc) -> Loc
    ensures { (result ≡ p) ⊎ (result ≡ q) }
{
    if p < q { q } else { p }
}

/// The earlier of two locations.
fn earlier(p: Loc, q: Loc) -> Loc
    ensures { (result ≡ p) ⊎ (result ≡ q) }
{
    if p < q { p } else { q }
}

/// The part of a strip in which a segment runs.
pub fn part_along(strip: Strip, s: Seg) -> Strip
    ensures low { (result.low ≡ strip.low) ⊎ (result.low ≡ s.a) }
    ensures high { (result.high ≡ strip.high) ⊎ (result.high ≡ s.b) }
{
    Strip {
        low: later(strip.low, s.a),
        high: earlier(strip.high, s.b),
    }
}

/// Whether a segment runs through a strip from its lower to its upper height.
pub fn runs_through(strip: Strip, s: Seg) -> bool {
    s.a <= strip.low && strip.high <= s.b
}

fn is_lower(p: Loc, q: Loc) -> bool
    ensures { result ≡ is_lt (loc_cmp p q) }
{
    p < q
}

/// The segments of a list with their places.
pub fn with_places(alloc: Global, segs: &[Seg]) -> Result<Vec<SegAt>, OutOfMemory>
    ensures long { IfOk result (λ v. length v.items ≡ length segs.now) }
    ensures each { IfOk result (λ v. (k : ℕ) (d : SegAt) → k < length segs.now
        → slice_index_or v.items k d ≡ record { seg = slice_index_or segs.now k d.seg; place = k }) }
{
    let mut all = Vec::with_capacity(alloc, segs.len())?;
    for i in 0..segs.len() {
        let Ok(place) = u32::try_from(i) else {
            return Err(OutOfMemory);
        };
        all.push(SegAt {
            seg: segs[i],
            place,
        })?;
    }
    Ok(all)
}

/// How many reach below a height. Only the room for them rests on it.
fn count_below(all: &[SegAt], middle: Loc) -> usize {
    all.iter().filter(|s| is_lower(s.seg.a, middle)).count()
}

/// Those that reach below a height.
fn reaching_below(alloc: Global, all: &[SegAt], middle: Loc) -> Result<Vec<SegAt>, OutOfMemory>
    ensures { IfOk result (λ v. (s : SegAt) → Contains all.now s
        → Contains v.items s ⊎ (height middle ≤ℤ height s.seg.a)) }
{
    let mut below = Vec::with_capacity(alloc, count_below(all, middle))?;
    for &s in all {
        if is_lower(s.seg.a, middle) {
            below.push(s)?;
        }
    }
    Ok(below)
}

/// Those that reach above a height. The others leave the list.
fn reaching_above(mut all: Vec<SegAt>, middle: Loc) -> Vec<SegAt>
    ensures { (s : SegAt) → Contains all.items s
        → Contains result.items s ⊎ (height s.seg.b ≤ℤ height middle) }
{
    all.retain(|s| is_lower(middle, s.seg.b));
    all.shrink_to_fit();
    all
}

/// Segments that reach below a height, and those that reach above it.
#[derive(Drop)]
pub struct Halves {
    pub below: Vec<SegAt>,
    pub above: Vec<SegAt>,
}

/// The segments of a list that reach below a height, and those that reach above it.
pub fn halved(alloc: Global, all: Vec<SegAt>, middle: Loc) -> Result<Halves, OutOfMemory>
    ensures below { IfOk result (λ h. (s : SegAt) → Contains all.items s
        → Contains h.below.items s ⊎ (height middle ≤ℤ height s.seg.a)) }
    ensures above { IfOk result (λ h. (s : SegAt) → Contains all.items s
        → Contains h.above.items s ⊎ (height s.seg.b ≤ℤ height middle)) }
{
    let below = reaching_below(alloc, &all, middle)?;
    let above = reaching_above(all, middle);
    Ok(Halves { below, above })
}

/// The heights at which segments begin or end, each once and in order.
///
/// Only speed depends on them.
pub fn heights_of(alloc: Global, segs: &[Seg]) -> Result<Vec<Loc>, OutOfMemory> {
    let mut heights = Vec::with_capacity(alloc, 2 * segs.len())?;
    for s in segs {
        heights.push(s.a)?;
        heights.push(s.b)?;
    }
    heights.sort_unstable();
    heights.dedup();
    heights.shrink_to_fit();
    Ok(heights)
}
