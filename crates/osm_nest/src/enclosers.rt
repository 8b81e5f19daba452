//! Which ring directly encloses which.
ghost use Rattle.std.specs.Prelude.{◌<◌, IfOk, length};
ghost use Rattle.osm_nest.specs.Anchors.{AreAnchors};
ghost use Rattle.osm_nest.specs.Enclosers.{AreDirectEnclosers, IsDirectEncloser};
ghost use Rattle.osm_nest.specs.RingLists.{AreRings};
ghost use Rattle.osm_nest.specs.SweptEdges.{KnownEnclosersAreRight};

use crate::few::search::searched_encloser;
use crate::ring_anchors::{Anchors, find_anchors};
use crate::sweep::enclosers::{none_known, swept_enclosers};
use osm_rings::Ring;
use std::alloc::{AllocError as OutOfMemory, Global};

/// For each inner ring the place of the outer ring that directly encloses it; for an outer ring None.
///
/// Ways: up to 8 inner rings by a search (few); all others by a sweep (sweep), or by the search (few) if the sweep doesn't
/// find it.
pub(crate) fn direct_enclosers(
    alloc: Global,
    rings: &[Ring],
) -> Result<Vec<Option<usize>>, OutOfMemory>
    requires { AreRings rings.now }
    ensures { IfOk result (λ enclosers. AreDirectEnclosers rings.now enclosers.items) }
{
    let anchors = find_anchors(alloc, rings)?;
    let known = known_enclosers(alloc, rings, &anchors)?;
    let mut enclosers = Vec::with_capacity(alloc, rings.len())?;
    for place in 0..rings.len() {
        enclosers.push(direct_encloser(rings, &anchors, &known, place))?;
    }
    Ok(enclosers)
}

/// For at most this many inner rings the plain search over all edges is faster than a sweep.
const FEW: usize = 8;

/// Whether few of the rings are inner.
fn are_few_inner(anchors: &Anchors) -> bool {
    anchors.outer.iter().filter(|outer| !**outer).count() <= FEW
}

/// The place of the direct encloser of each ring, if it was found for all rings at once.
fn known_enclosers(
    alloc: Global,
    rings: &[Ring],
    anchors: &Anchors,
) -> Result<Vec<Option<usize>>, OutOfMemory>
    requires rings { AreRings rings.now }
    requires anchors { AreAnchors rings.now anchors.now }
    ensures { IfOk result (λ known. KnownEnclosersAreRight rings.now known.items) }
{
    if are_few_inner(anchors) {
        return none_known(alloc, rings);
    }
    swept_enclosers(alloc, rings, anchors)
}

/// The known direct encloser, or else the one that the plain search finds.
fn direct_encloser(
    rings: &[Ring],
    anchors: &Anchors,
    known: &[Option<usize>],
    place: usize,
) -> Option<usize>
    requires rings { AreRings rings.now }
    requires anchors { AreAnchors rings.now anchors.now }
    requires known { KnownEnclosersAreRight rings.now known.now }
    requires inside { place < length rings.now }
    ensures { IsDirectEncloser rings.now place result }
{
    match known[place] {
        Some(encloser) => Some(encloser),
        None => searched_encloser(rings, anchors, place),
    }
}
