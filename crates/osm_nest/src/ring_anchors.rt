//! The anchors of a list of rings, each found once.
ghost use Rattle.std.specs.Prelude.{IfOk};
ghost use Rattle.osm_nest.specs.Anchors.{AreAnchors};
ghost use Rattle.osm_nest.specs.RingLists.{AreRings};

use crate::outer::{anchor, is_rising};
use crate::sweep::ring_edge::RingEdge;
use osm_rings::Ring;
use std::alloc::{AllocError as OutOfMemory, Global};

/// The anchor of each ring, at its place, and whether the ring is outer.
#[derive(Drop)]
pub(crate) struct Anchors<'a> {
    pub edges: Vec<RingEdge<'a>>,
    pub outer: Vec<bool>,
}

/// The anchors of rings.
pub(crate) fn find_anchors<'a>(alloc: Global, rings: &'a [Ring]) -> Result<Anchors<'a>, OutOfMemory>
    requires { AreRings rings.now }
    ensures { IfOk result (AreAnchors rings.now) }
{
    let mut edges = Vec::with_capacity(alloc, rings.len())?;
    let mut outer = Vec::with_capacity(alloc, rings.len())?;
    for (place, ring) in rings.iter().enumerate() {
        let edge = anchor(ring);
        edges.push(RingEdge::of(edge, place))?;
        outer.push(!is_rising(edge))?;
    }
    Ok(Anchors { edges, outer })
}
