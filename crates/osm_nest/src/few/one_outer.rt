//! Rings of which exactly one is outer, as in most areas: it directly encloses each of the others.
ghost use Rattle.std.specs.Prelude.{◌≡◌, ◌≤◌, IfOk, IfSome, length, true};
ghost use Rattle.osm_nest.specs.OneOuter.{AreInnerBetween, IsFirstOuter, IsOnlyOuter, enclosers_under};
ghost use Rattle.osm_nest.specs.RingLists.{AreRings};

use crate::outer::is_outer;
use osm_rings::Ring;
use std::alloc::{AllocError as OutOfMemory, Global};

/// The place of the first outer ring.
fn first_outer(rings: &[Ring]) -> Option<usize>
    requires { AreRings rings.now }
    ensures { IfSome result (IsFirstOuter rings.now) }
{
    for place in 0..rings.len() {
        if is_outer(&rings[place]) {
            return Some(place);
        }
    }
    None
}

/// Whether no ring from a place on is outer.
fn are_inner_from(rings: &[Ring], from: usize) -> bool
    requires rings { AreRings rings.now }
    requires from { from ≤ length rings.now }
    ensures { result ≡ true → AreInnerBetween rings.now from (length rings.now) }
{
    for place in from..rings.len() {
        if is_outer(&rings[place]) {
            return false;
        }
    }
    true
}

/// The place of the outer ring, if there is exactly one. A single ring is outer, as nothing encloses it.
pub(crate) fn only_outer(rings: &[Ring]) -> Option<usize>
    requires { AreRings rings.now }
    ensures { IfSome result (IsOnlyOuter rings.now) }
{
    if rings.len() == 1 {
        return Some(0);
    }
    let place = first_outer(rings)?;
    if are_inner_from(rings, place + 1) {
        return Some(place);
    }
    None
}

/// For each inner one of this many rings the place of the only outer one; for the outer one None.
pub(crate) fn inside_one(
    alloc: Global,
    count: usize,
    only: usize,
) -> Result<Vec<Option<usize>>, OutOfMemory>
    ensures { IfOk result (λ enclosers. enclosers.items ≡ enclosers_under only 0 count) }
{
    let mut enclosers = Vec::with_capacity(alloc, count)?;
    for place in 0..count {
        enclosers.push((place != only).then_some(only))?;
    }
    Ok(enclosers)
}
