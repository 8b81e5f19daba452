//! Few segments that are in the way of a sweep, tried with all.
ghost use Rattle.std.specs.Prelude.{◌≡◌, ◌<◌, ◌≤◌, ℕ, Contains, List, IfOk, None, OnOk, length, slice_index_or, true};
ghost use Rattle.std.specs.List.Sorted.{IsSorted};
ghost use Rattle.osm_lattice.specs.declared.seg.Seg.{Seg};
ghost use Rattle.osm_lattice.specs.Seg.{seg_cmp};
ghost use Rattle.lists.specs.Rising.{IsRising};
ghost use Rattle.osm_segments.specs.declared.places.Places.{Places};
ghost use Rattle.osm_segments.specs.Places.{AreConflictPlaces, pair_at};
ghost use Rattle.osm_segments.specs.Ranges.{AreToldOrClear, IsGrown, IsTried};
ghost use Rattle.osm_segments.specs.Sweep.{AreInTheWay, IsNotBefore};

use crate::pairs::Pair;
use crate::places::Places;
use crate::ranges::division::each_once;
use crate::ranges::telling::try_pair;
use crate::sweep::steps::{is_before, next_enters};
use lists::{counts_determine, is_among};
use osm_lattice::{Loc, Seg, are_apart, conflicts_are_symmetric};
use std::alloc::{AllocError as OutOfMemory, Global};

/// So many segments are looked at together: a segment that begins above all of them, or ends below, is tried with none.
const PART: u32 = 64;

/// Whether the segments at two places lie apart.
fn are_apart_at(segs: &[Seg], i: u32, j: u32) -> bool
    ensures { result ≡ true → pair_at segs.now (record { first = i; second = j }) ≡ None }
{
    let first = i as usize;
    let second = j as usize;
    if first >= segs.len() || second >= segs.len() {
        return false;
    }
    are_apart(segs[first], segs[second])
}

/// Tries the segments at two places, unless they lie apart.
fn try_near(told: &mut Vec<Places>, segs: &[Seg], i: u32, j: u32) -> Result<(), OutOfMemory>
    ensures grown { OnOk result (IsGrown segs.now told.old.items told.new.items) }
    ensures tried { OnOk result (IsTried segs.now told.new.items i j) }
{
    if are_apart_at(segs, i, j) {
        return Ok(());
    }
    try_pair(told, usize::MAX, segs, i, j)
}

/// The latest upper end of segments from one place up to another.
fn latest_end(segs: &[Seg], from: u32, to: u32) -> Loc
    requires some { from < to }
    requires within { to ≤ length segs.now }
    ensures { (j : ℕ) (d : Seg) → from ≤ j → j < to
        → IsNotBefore (slice_index_or segs.now j d).b result }
{
    let mut latest = segs[from as usize].b;
    for j in from..to {
        let end = segs[j as usize].b;
        if is_before(latest, end) {
            latest = end;
        }
    }
    latest
}

/// Whether the segment at a place lies above others or below them. They stand from one place up to another, and `latest` is the latest of
/// their upper ends.
fn is_beside(segs: &[Seg], i: u32, from: u32, to: u32, latest: Loc) -> bool
    requires rising { IsRising seg_cmp segs.now }
    requires within { to ≤ length segs.now }
    requires latest { (j : ℕ) (d : Seg) → from ≤ j → j < to
        → IsNotBefore (slice_index_or segs.now j d).b latest }
    ensures { result ≡ true → (told : List Places) (j : ℕ) → from ≤ j → j < to
        → IsTried segs.now told i j }
{
    let place = i as usize;
    if place >= segs.len() {
        return false;
    }
    if !is_before(segs[place].a, latest) {
        return true;
    }
    !next_enters(segs, from as usize, segs[place])
}

/// Tries the segment at a place with those from another place up to a third.
fn try_part(
    told: &mut Vec<Places>,
    segs: &[Seg],
    i: u32,
    from: u32,
    to: u32,
) -> Result<(), OutOfMemory>
    ensures grown { OnOk result (IsGrown segs.now told.old.items told.new.items) }
    ensures tried { OnOk result ((j : ℕ) → from ≤ j → j < to
        → IsTried segs.now told.new.items i j) }
{
    for j in from..to {
        try_near(told, segs, i, j)?;
    }
    Ok(())
}

/// Tries the segments at few places with those from one place up to another.
fn try_with_few(
    told: &mut Vec<Places>,
    segs: &[Seg],
    few: &[u32],
    from: u32,
    to: u32,
) -> Result<(), OutOfMemory>
    requires rising { IsRising seg_cmp segs.now }
    requires some { from < to }
    requires within { to ≤ length segs.now }
    ensures grown { OnOk result (IsGrown segs.now told.old.items told.new.items) }
    ensures tried { OnOk result ((i j : ℕ) → Contains few.now i → from ≤ j → j < to
        → IsTried segs.now told.new.items i j) }
{
    let latest = latest_end(segs, from, to);
    for &i in few {
        if !is_beside(segs, i, from, to, latest) {
            try_part(told, segs, i, from, to)?;
        }
    }
    Ok(())
}

/// Tries the segments at few places with all.
fn try_few(told: &mut Vec<Places>, segs: &[Seg], few: &[u32], count: u32) -> Result<(), OutOfMemory>
    requires rising { IsRising seg_cmp segs.now }
    requires count { count ≡ length segs.now }
    ensures grown { OnOk result (IsGrown segs.now told.old.items told.new.items) }
    ensures tried { OnOk result ((i j : ℕ) → Contains few.now i → j < count
        → IsTried segs.now told.new.items i j) }
{
    let mut from = 0;
    while from < count {
        let to = from + PART.min(count - from);
        try_with_few(told, segs, few, from, to)?;
        from = to;
    }
    Ok(())
}

/// The places of segments that are among others, which are in order, of those before a place.
fn places_among(
    alloc: Global,
    segs: &[Seg],
    aside: &[Seg],
    count: u32,
) -> Result<Vec<u32>, OutOfMemory>
    requires count { count ≡ length segs.now }
    requires order { IsSorted seg_cmp aside.now }
    ensures { IfOk result (λ few. (i : ℕ) (d : Seg) → i < count
        → Contains aside.now (slice_index_or segs.now i d) → Contains few.items i) }
{
    let mut few = Vec::new(alloc);
    for i in 0..count {
        if is_among(aside, &segs[i as usize]) {
            few.push(i)?;
        }
    }
    Ok(few)
}

/// Tries segments that are in the way with all, and lists the places of those that conflict.
fn settle_few(
    alloc: Global,
    told: &mut Vec<Places>,
    segs: &[Seg],
    mut aside: Vec<Seg>,
) -> Result<(), OutOfMemory>
    requires rising { IsRising seg_cmp segs.now }
    requires others { AreInTheWay segs.now aside.items }
    ensures grown { OnOk result (IsGrown segs.now told.old.items told.new.items) }
    ensures told { OnOk result (AreToldOrClear segs.now told.new.items) }
{
    let Ok(count) = u32::try_from(segs.len()) else {
        return Err(OutOfMemory);
    };
    aside.sort_unstable();
    let few = places_among(alloc, segs, &aside, count)?;
    try_few(told, segs, &few, count)
}

/// The places of all conflicting pairs among segments in strict order, in order, by few of them that are in the way.
pub fn conflict_places(
    alloc: Global,
    segs: &[Seg],
    aside: Vec<Seg>,
) -> Result<Vec<Places>, OutOfMemory>
    requires rising { IsRising seg_cmp segs.now }
    requires others { AreInTheWay segs.now aside.items }
    ensures { IfOk result (λ v. AreConflictPlaces segs.now v.items) }
{
    conflicts_are_symmetric();
    counts_determine::<Pair>();
    let mut told = Vec::new(alloc);
    settle_few(alloc, &mut told, segs, aside)?;
    Ok(each_once(told))
}
