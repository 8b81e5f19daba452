//! Water: what is left of land and the sides of the world, directed.

ghost use Rattle.std.specs.Prelude.{◌≡◌, ◌<◌, ◌++◌, All, IfOk, OnOk, length};
ghost use Rattle.std.specs.Option.{option_to_list};
ghost use Rattle.osm_geom.specs.WholeSegment.{IsWholeSegment};
ghost use Rattle.osm_segments.specs.Counts.{HasEvenNodes};
ghost use Rattle.osm_geom.specs.InPlane.Sided.{IsSided};
ghost use Rattle.coast_sides.specs.Land.{HaveNoConflicts};
ghost use Rattle.coast_sides.specs.Water.{AreSides, IsWater, pieces, segment_of_carrier, segments_under};

use crate::ring_segments::add_step;
use crate::side_nodes::{WorldSide, side_nodes};
use crate::water_laws::{water_is_clear, water_is_even};
use osm_geom::in_plane::lattice::lattice_edges_are_whole;
use osm_geom::{Carrier, Edge, Edges, Loc, Seg, conflicts_are_symmetric, orders_are_exact};
use osm_segments::{Outline, survivors};
use osm_sides::direct;
use std::alloc::{AllocError as OutOfMemory, Global};

/// Adds the segments between neighbouring nodes.
fn add_pieces(segs: &mut Vec<Seg>, nodes: &[Loc]) -> Result<(), OutOfMemory>
    requires { 0 < length nodes.now }
    ensures { OnOk result (segs.new.items ≡ segs.old.items ++ pieces nodes.now) }
{
    for place in 0..nodes.len() - 1 {
        add_step(segs, nodes[place], nodes[place + 1])?;
    }
    Ok(())
}

/// The sides of the world, cut at the nodes of land.
fn world_sides(alloc: Global, land: &[Seg]) -> Result<Vec<Seg>, OutOfMemory>
    ensures { IfOk result (λ v. AreSides land.now v.items) }
{
    let south = side_nodes(alloc, WorldSide::South, land)?;
    let east = side_nodes(alloc, WorldSide::East, land)?;
    let north = side_nodes(alloc, WorldSide::North, land)?;
    let west = side_nodes(alloc, WorldSide::West, land)?;
    let mut sides = Vec::new(alloc);
    add_pieces(&mut sides, &south)?;
    add_pieces(&mut sides, &east)?;
    add_pieces(&mut sides, &north)?;
    add_pieces(&mut sides, &west)?;
    Ok(sides)
}

/// Adds the segment along which an edge runs.
fn add_segment(segs: &mut Vec<Seg>, edge: &Edge) -> Result<(), OutOfMemory>
    ensures { OnOk result (segs.new.items ≡ segs.old.items
        ++ option_to_list (segment_of_carrier edge.now.carrier)) }
{
    match edge.carrier {
        Carrier::OfSeg(seg) => {
            segs.push(seg)?;
            Ok(())
        }
        Carrier::Vertical(_) | Carrier::Horizontal(_) => Ok(()),
    }
}

/// The segments along which edges run.
fn segments_under(alloc: Global, edges: &[Edge]) -> Result<Vec<Seg>, OutOfMemory>
    ensures { IfOk result (λ v. v.items ≡ segments_under edges.now) }
{
    let mut segs = Vec::with_capacity(alloc, edges.len())?;
    for edge in edges {
        add_segment(&mut segs, edge)?;
    }
    Ok(segs)
}

/// The edges of water about segments of land that have no conflicts and are even at each location.
fn water_edges(alloc: Global, land: Vec<Seg>) -> Result<Edges, OutOfMemory>
    requires clear { HaveNoConflicts land.items }
    requires even { HasEvenNodes land.items }
    ensures { IfOk result (λ edges. IsWater land.items edges) }
{
    orders_are_exact();
    water_is_clear();
    water_is_even();
    let sides = world_sides(alloc, &land)?;
    let mut segs = land;
    segs.extend_from_slice(&sides)?;
    let left = survivors(alloc, &segs)?;
    let edges = direct(alloc, Outline::new(left))?;
    Ok(Edges::from_vec(edges))
}

/// Water: what is left of land's segments together with the sides of the world's rectangle.
///
/// It is directed so that water is on the left. Each side is cut at every node of land on it. If there is no land, water is
/// the world. The edges of land are sided, each along a whole segment, as `land` gives them. Fails only if memory runs out.
pub fn water(alloc: Global, land: &Edges) -> Result<Edges, OutOfMemory>
    requires whole { All IsWholeSegment land.now }
    requires sided { IsSided land.now }
    ensures { IfOk result (λ edges. IsWater (segments_under land.now) edges) }
{
    orders_are_exact();
    conflicts_are_symmetric();
    lattice_edges_are_whole();
    let segs = segments_under(alloc, land.as_slice())?;
    water_edges(alloc, segs)
}
