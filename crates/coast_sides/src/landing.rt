//! Land: what is left of the rings, directed.

ghost use Rattle.std.specs.Prelude.{◌≡◌, [], IfOk, List};
ghost use Rattle.lists.specs.Rising.{IsRising};
ghost use Rattle.osm_lattice.specs.Seg.{seg_cmp};
ghost use Rattle.osm_lattice.specs.declared.seg.Seg.{Seg};
ghost use Rattle.osm_segments.specs.Counts.{AreSurvivors};
ghost use Rattle.osm_segments.specs.Pairs.{conflicts_of};
ghost use Rattle.osm_segments.specs.Repeats.{AreRepeats};
ghost use Rattle.osm_segments.specs.Sweep.{AreByEnds};
ghost use Rattle.osm_segments.specs.Counts.{HasEvenNodes};
ghost use Rattle.coast_rings.specs.declared.ring.CoastRing.{CoastRing};
ghost use Rattle.coast_sides.specs.KeptSegments.{AreKeptSegments};
ghost use Rattle.coast_sides.specs.Segments.{all_segments};
ghost use Rattle.coast_sides.specs.Land.{HaveNoConflicts, IsLand};
ghost use Rattle.coast_sides.specs.RingLand.{IsLandOf};

use crate::end_order::left_by_ends;
use crate::junctions::junctions;
use crate::kept_segments::KeptSegments;
use crate::land_parts::{Land, Repeats};
use crate::ring_segments::closed_lines_are_even;
use crate::wrong_ways::wrong_ways;
use coast_rings::CoastRing;
use osm_geom::in_plane::lattice::lattice_edges_are_whole;
use osm_geom::{Edges, Seg, orders_are_exact};
use osm_segments::{Outline, cancel_of};
use osm_sides::direct;
use std::alloc::{AllocError as OutOfMemory, Global};

/// The edges of land: what is left of segments, directed so that land is on the left. It is also given in the order of upper ends.
fn land_edges(alloc: Global, left: Vec<Seg>, ends: Vec<Seg>) -> Result<Edges, OutOfMemory>
    requires ends { AreByEnds left.items ends.items }
    requires rising { IsRising seg_cmp left.items }
    requires clear { conflicts_of left.items ≡ [] }
    requires even { HasEvenNodes left.items }
    ensures { IfOk result (λ edges. (segs : List Seg) → AreSurvivors segs left.items
        → IsLand segs edges) }
{
    orders_are_exact();
    let edges = direct(alloc, Outline::sorted(left, ends))?;
    Ok(Edges::from_vec(edges))
}

/// Land of kept rings: what is left of their segments once pairs are cancelled, directed so that land is on the left.
///
/// It also says which of their segments occur at least twice, and which rings run the wrong way. No two segments of the
/// rings conflict, as `sort_out` ensures for those that it keeps; and it gives their segments, too. Fails only if memory runs
/// out.
pub fn land(alloc: Global, kept: &[CoastRing], segs: KeptSegments) -> Result<Land, OutOfMemory>
    requires clear { HaveNoConflicts (all_segments kept.now) }
    requires segments { AreKeptSegments kept.now segs }
    ensures { IfOk result (λ land. IsLandOf kept.now land) }
{
    closed_lines_are_even();
    lattice_edges_are_whole();
    orders_are_exact();
    let KeptSegments { segs, by_ends } = segs;
    let left = cancel_of(alloc, segs.into_vec())?;
    let ends = left_by_ends(alloc, &left, by_ends)?;
    let junctions = junctions(alloc, &left, &ends)?;
    let edges = land_edges(alloc, left.survivors, ends)?;
    let wrong_way = wrong_ways(alloc, edges.as_slice(), &junctions, kept)?;
    Ok(Land {
        edges,
        repeats: Repeats::from_vec(left.repeats),
        wrong_way,
    })
}
