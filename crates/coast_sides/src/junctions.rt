//! Junctions: the nodes at which a ring may go over from running along edges to running against them.

ghost use Rattle.std.specs.Prelude.{◌≡◌, ◌+◌, ◌<◌, ◌≤◌, ◌++◌, ℕ, Contains, IfOk, IfSome, IsPermutation, None, OnOk, cond, length, true};
ghost use Rattle.std.specs.List.Sorted.{IsSorted};
ghost use Rattle.std.specs.Ordering.{is_eq};
ghost use Rattle.lists.specs.Rising.{count_of};
ghost use Rattle.osm_lattice.specs.declared.loc.Loc.{Loc};
ghost use Rattle.osm_lattice.specs.Loc.{loc_cmp};
ghost use Rattle.osm_segments.specs.Counts.{ends_of};
ghost use Rattle.osm_segments.specs.Repeats.{segs_of};
ghost use Rattle.coast_sides.specs.Junctions.{HasPassed, IsNext, is_one_of};

use osm_geom::{Loc, Seg, orders_are_exact};
use osm_segments::{Cancelled, Repeat};
use std::alloc::{AllocError as OutOfMemory, Global};

/// Ends of segments that are passed in order.
#[derive(Drop)]
pub struct Passing {
    /// The location of the last one.
    pub last: Loc,
    /// How many were there, or 2 if more were.
    pub times: u8,
    /// The locations at which more than two were.
    pub busy: Vec<Loc>,
}

/// Passes an end. Where it comes before the last one, which no ends in order do, its location counts as a busy one.
fn pass(passing: &mut Passing, end: Loc) -> Result<(), OutOfMemory>
    ensures { OnOk result ((passed : Loc → ℕ) → HasPassed passed passing.old
        → HasPassed (λ p. passed p + cond (is_eq (loc_cmp end p)) 1 0) passing.new) }
{
    orders_are_exact();
    if passing.last < end {
        passing.last = end;
        passing.times = 1;
    } else if passing.last == end && passing.times < 2 {
        passing.times += 1;
    } else {
        passing.busy.push(end)?;
    }
    Ok(())
}

/// An end, and how many lower and upper ends are passed with it.
#[derive(Clone, Copy)]
struct Next {
    end: Loc,
    lower: usize,
    upper: usize,
}

/// The next end, if one is left: a lower end of the first segments, or an upper one of the others.
fn next_end(lows: &[Seg], lower: usize, highs: &[Seg], upper: usize) -> Option<Next>
    requires lower { lower ≤ length lows.now }
    requires upper { upper ≤ length highs.now }
    ensures some { IfSome result (IsNext lows.now lower highs.now upper) }
    ensures none { result ≡ None → (lower ≡ length lows.now) × (upper ≡ length highs.now) }
{
    if lower < lows.len() && (upper >= highs.len() || lows[lower].a <= highs[upper].b) {
        return Some(Next {
            end: lows[lower].a,
            lower: lower + 1,
            upper,
        });
    }
    if upper < highs.len() {
        return Some(Next {
            end: highs[upper].b,
            lower,
            upper: upper + 1,
        });
    }
    None
}

/// The locations at which more than two segments end. The segments are also given in the order of their upper ends.
///
/// Only speed rests on both orders: where they aren't kept, there may be other locations among these.
fn busy_nodes(alloc: Global, segs: &[Seg], ends: &[Seg]) -> Result<Vec<Loc>, OutOfMemory>
    requires { IsPermutation segs.now ends.now }
    ensures { IfOk result (λ nodes. (p : Loc) → 2 < count_of loc_cmp p (ends_of segs.now)
        → is_one_of nodes.items p ≡ true) }
{
    let Some(first) = segs.first() else {
        return Ok(Vec::new(alloc));
    };
    let mut passing = Passing {
        last: first.a,
        times: 0,
        busy: Vec::new(alloc),
    };
    let mut lower = 0;
    let mut upper = 0;
    while let Some(next) = next_end(segs, lower, ends, upper) {
        pass(&mut passing, next.end)?;
        lower = next.lower;
        upper = next.upper;
    }
    Ok(passing.busy)
}

/// Adds both ends of segments that occur repeatedly.
fn add_ends(nodes: &mut Vec<Loc>, repeats: &[Repeat]) -> Result<(), OutOfMemory>
    ensures { OnOk result (nodes.new.items ≡ nodes.old.items ++ ends_of (segs_of repeats.now)) }
{
    for repeat in repeats {
        nodes.push(repeat.seg.a)?;
        nodes.push(repeat.seg.b)?;
    }
    Ok(())
}

/// The locations at which more than two survivors end, or a segment that occurs repeatedly, in order. Survivors are also given in
/// the order of their upper ends.
pub(crate) fn junctions(
    alloc: Global,
    left: &Cancelled,
    ends: &[Seg],
) -> Result<Vec<Loc>, OutOfMemory>
    requires { IsPermutation left.now.survivors.items ends.now }
    ensures order { IfOk result (λ nodes. IsSorted loc_cmp nodes.items) }
    ensures busy { IfOk result (λ nodes. (p : Loc)
        → 2 < count_of loc_cmp p (ends_of left.now.survivors.items)
        → is_one_of nodes.items p ≡ true) }
    ensures repeated { IfOk result (λ nodes. (p : Loc)
        → Contains (ends_of (segs_of left.now.repeats.items)) p
        → is_one_of nodes.items p ≡ true) }
{
    let mut nodes = busy_nodes(alloc, &left.survivors, ends)?;
    add_ends(&mut nodes, &left.repeats)?;
    nodes.sort_unstable();
    Ok(nodes)
}
