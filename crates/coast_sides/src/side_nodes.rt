//! The nodes at which the sides of the world are cut.

ghost use Rattle.std.specs.Prelude.{◌≡◌, ◌++◌, ◌∷◌, [], IfOk, OnOk, filter};
ghost use Rattle.osm_segments.specs.Counts.{ends_of};
ghost use Rattle.coast_sides.specs.Water.{IsSide};
ghost use Rattle.coast_sides.specs.WorldSides.{greater_corner, lesser_corner, on_side};

use lists::distinct_items;
use osm_geom::{Loc, Seg, orders_are_exact};
use std::alloc::{AllocError as OutOfMemory, Global};

/// A side of the world's rectangle.
#[derive(Clone, Copy)]
pub enum WorldSide {
    South,
    East,
    North,
    West,
}

fn is_on(side: WorldSide, p: Loc) -> bool
    ensures { result ≡ on_side side p }
{
    match side {
        WorldSide::South => p.y == -900_000_000,
        WorldSide::East => p.x == 1_800_000_000,
        WorldSide::North => p.y == 900_000_000,
        WorldSide::West => p.x == -1_800_000_000,
    }
}

fn lesser_corner(side: WorldSide) -> Loc
    ensures { result ≡ lesser_corner side }
{
    orders_are_exact();
    let x = match side {
        WorldSide::East => 1_800_000_000,
        WorldSide::South | WorldSide::North | WorldSide::West => -1_800_000_000,
    };
    let y = match side {
        WorldSide::North => 900_000_000,
        WorldSide::South | WorldSide::East | WorldSide::West => -900_000_000,
    };
    Loc { x, y }
}

fn greater_corner(side: WorldSide) -> Loc
    ensures { result ≡ greater_corner side }
{
    orders_are_exact();
    let x = match side {
        WorldSide::West => -1_800_000_000,
        WorldSide::South | WorldSide::East | WorldSide::North => 1_800_000_000,
    };
    let y = match side {
        WorldSide::South => -900_000_000,
        WorldSide::East | WorldSide::North | WorldSide::West => 900_000_000,
    };
    Loc { x, y }
}

/// Adds a location if it is on the side.
fn add_if_on(nodes: &mut Vec<Loc>, side: WorldSide, p: Loc) -> Result<(), OutOfMemory>
    ensures { OnOk result (nodes.new.items ≡ nodes.old.items ++ filter (on_side side) (p ∷ [])) }
{
    if is_on(side, p) {
        nodes.push(p)?;
    }
    Ok(())
}

/// Adds the ends of segments that are on the side.
fn add_ends(nodes: &mut Vec<Loc>, side: WorldSide, land: &[Seg]) -> Result<(), OutOfMemory>
    ensures { OnOk result (nodes.new.items ≡ nodes.old.items
        ++ filter (on_side side) (ends_of land.now)) }
{
    for seg in land {
        add_if_on(nodes, side, seg.a)?;
        add_if_on(nodes, side, seg.b)?;
    }
    Ok(())
}

/// The nodes at which a side of the world is cut: its corners, and each node of land on it, in order.
pub fn side_nodes(alloc: Global, side: WorldSide, land: &[Seg]) -> Result<Vec<Loc>, OutOfMemory>
    ensures { IfOk result (λ v. IsSide (on_side side) (lesser_corner side) (greater_corner side)
        land.now v.items) }
{
    orders_are_exact();
    let mut nodes = Vec::new(alloc);
    nodes.push(lesser_corner(side))?;
    nodes.push(greater_corner(side))?;
    add_ends(&mut nodes, side, land)?;
    distinct_items(alloc, &nodes)
}
