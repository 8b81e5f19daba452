//! The segments of coastline rings.

ghost use Rattle.std.specs.Prelude.{◌≡◌, ◌<◌, ◌+◌, ◌++◌, if◌then◌else◌, nat_lt, IfOk, OnOk};
ghost use Rattle.std.specs.Option.{option_to_list};
ghost use Rattle.osm_lattice.specs.Seg.{segment_between};
ghost use Rattle.coast_rings.specs.declared.ring.CoastRing.{CoastRing};
ghost use Rattle.coast_sides.specs.Segments.{all_segments, segments_round};
ghost use Rattle.coast_sides.specs.Laws.{CancellingKeepsEven};

use coast_rings::CoastRing;
use osm_geom::{Loc, Seg, orders_are_exact};
use std::alloc::{AllocError as OutOfMemory, Global};

/// A law: what is left of closed lines once pairs are cancelled is even at each location.
pub fn closed_lines_are_even()
    ensures { CancellingKeepsEven }
{
    orders_are_exact();
}

/// Adds the segment of a step.
pub(crate) fn add_step(segs: &mut Vec<Seg>, from: Loc, to: Loc) -> Result<(), OutOfMemory>
    ensures { OnOk result (segs.new.items ≡ segs.old.items
        ++ option_to_list (segment_between from to)) }
{
    if let Some(seg) = Seg::new(from, to) {
        segs.push(seg)?;
    }
    Ok(())
}

/// The place after this one, going round.
pub(crate) fn next_round(place: usize, places: usize) -> usize
    requires { place < places }
    ensures value { result ≡ (if nat_lt (place + 1) places then place + 1 else 0) }
    ensures inside { result < places }
{
    if place + 1 < places { place + 1 } else { 0 }
}

/// Adds the segments of a closed line.
fn add_round(segs: &mut Vec<Seg>, path: &[Loc]) -> Result<(), OutOfMemory>
    ensures { OnOk result (segs.new.items ≡ segs.old.items ++ segments_round path.now) }
{
    for place in 0..path.len() {
        add_step(segs, path[place], path[next_round(place, path.len())])?;
    }
    Ok(())
}

/// The segments of a closed line.
pub(crate) fn segments_round(alloc: Global, path: &[Loc]) -> Result<Vec<Seg>, OutOfMemory>
    ensures { IfOk result (λ v. v.items ≡ segments_round path.now) }
{
    let mut segs = Vec::with_capacity(alloc, path.len())?;
    add_round(&mut segs, path)?;
    Ok(segs)
}

/// How many locations rings have.
fn location_count(rings: &[CoastRing]) -> usize {
    let mut count: usize = 0;
    for ring in rings {
        count = count.saturating_add(ring.path.as_slice().len());
    }
    count
}

/// The segments of rings, one ring after the other: from each location to the next, and from the last to
/// the first.
pub(crate) fn all_segments(alloc: Global, rings: &[CoastRing]) -> Result<Vec<Seg>, OutOfMemory>
    ensures { IfOk result (λ v. v.items ≡ all_segments rings.now) }
{
    let mut segs = Vec::with_capacity(alloc, location_count(rings))?;
    for ring in rings {
        add_round(&mut segs, ring.path.as_slice())?;
    }
    Ok(segs)
}
