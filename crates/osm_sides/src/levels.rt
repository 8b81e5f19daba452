//! The level parts of segments: a horizontal one as a whole, of any other the upper end alone.
//! A sweep has no status for these.

ghost use Rattle.std.specs.Prelude.{◌≡◌, IfOk, IsPermutation, List, map, nat_le, nat_lt};
ghost use Rattle.std.specs.List.{count_by};
ghost use Rattle.std.specs.List.Sorted.{IsSorted};
ghost use Rattle.std.specs.Ordering.{nat_cmp};
ghost use Rattle.osm_lattice.specs.declared.seg.Seg.{Seg};
ghost use Rattle.osm_sides.specs.PointSteps.{AreLevels, is_level_on, level_from, place_number};

use crate::sides::is_horizontal;
use osm_geom::{Loc, Seg};
use std::alloc::{AllocError as OutOfMemory, Global};

/// Where the level parts of segments begin, and where they end, as numbers that grow in the order of locations.
#[derive(Drop)]
pub(crate) struct Levels {
    pub(crate) begins: Vec<u64>,
    pub(crate) ends: Vec<u64>,
}

/// A number that grows in the order of locations.
fn place_number(p: Loc) -> u64
    ensures { result ≡ place_number p }
{
    let row = (p.y + 900_000_000) as u64;
    let column = (i64::from(p.x) + 1_800_000_000) as u64;
    row * 4_294_967_296 + column
}

/// Where the level part of a segment begins.
fn level_from(s: &Seg) -> Loc
    ensures { result ≡ level_from s.now }
{
    if is_horizontal(*s) { s.a } else { s.b }
}

/// Where level parts begin, in order.
fn begins_of(alloc: Global, segs: &[Seg]) -> Result<Vec<u64>, OutOfMemory>
    ensures are { IfOk result (λ v.
        IsPermutation (map (λ s. place_number (level_from s)) segs.now) v.items) }
    ensures rise { IfOk result (λ v. IsSorted nat_cmp v.items) }
{
    let mut begins: Vec<u64> = segs
        .iter()
        .map(|s| place_number(level_from(s)))
        .collect(alloc)?;
    begins.sort_unstable();
    Ok(begins)
}

/// Where level parts end, in order.
fn ends_of(alloc: Global, segs: &[Seg]) -> Result<Vec<u64>, OutOfMemory>
    ensures are { IfOk result (λ v.
        IsPermutation (map (λ (s : Seg). place_number s.b) segs.now) v.items) }
    ensures rise { IfOk result (λ v. IsSorted nat_cmp v.items) }
{
    let mut ends: Vec<u64> = segs.iter().map(|s| place_number(s.b)).collect(alloc)?;
    ends.sort_unstable();
    Ok(ends)
}

/// How many of some numbers are at most another, if they are in order.
fn count_up_to(numbers: &[u64], most: u64) -> usize
    ensures { IsSorted nat_cmp numbers.now
        → count_by (λ n. nat_le n most) numbers.now ≡ result }
{
    numbers.partition_point(|number| *number <= most)
}

/// How many of some numbers are below another, if they are in order.
fn count_below(numbers: &[u64], bound: u64) -> usize
    ensures { IsSorted nat_cmp numbers.now
        → count_by (λ n. nat_lt n bound) numbers.now ≡ result }
{
    numbers.partition_point(|number| *number < bound)
}

impl Levels {
    /// The level parts of these segments.
    pub(crate) fn of(alloc: Global, segs: &[Seg]) -> Result<Levels, OutOfMemory>
        ensures { IfOk result (AreLevels segs.now) }
    {
        let begins = begins_of(alloc, segs)?;
        let ends = ends_of(alloc, segs)?;
        Ok(Levels { begins, ends })
    }

    /// Whether `p` is on the level part of a segment: more of them begin by `p` than end before it.
    pub(crate) fn has(&self, p: Loc) -> bool
        ensures { (segs : List Seg) → AreLevels segs self.now
            → result ≡ nat_lt 0 (count_by (is_level_on p) segs) }
    {
        let place = place_number(p);
        let begun = count_up_to(&self.begins, place);
        let ended = count_below(&self.ends, place);
        begun > ended
    }
}
