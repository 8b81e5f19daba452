//! What lies around the cells or consists of all of them: the coast and the forest.

ghost use Rattle.std.specs.Prelude.{◌≡◌, ◌≤◌, ◌*◌, ◌+◌, ◌++◌, IfOk, OnOk, [], map};
ghost use Rattle.osm_sample.specs.Numbers.{numbers};
ghost use Rattle.osm_sample.specs.Objects.{cells_end, coast_node_objects, coast_way, forest, lower_left, lower_right, upper_node, way_member};

use crate::cells::cell_count;
use crate::nodes::node_at;
use crate::ways::{add_way, closed_way, multipolygon, one_tag};
use osm_elements::{Members, Object};
use std::alloc::{AllocError as OutOfMemory, Global};

/// The number of the cells' nodes; those of the coast come after them.
fn cells_end(n: u32) -> u32
    requires { n ≤ 100 }
    ensures value { result ≡ cells_end n }
    ensures few { result ≤ 80_000 }
{
    8 * cell_count(n)
}

/// A node of the upper side of the coast, from right to left, alternately nearer to the cells and farther from them.
fn upper_node(alloc: Global, n: u32, s: u32) -> Object
    requires few { n ≤ 100 }
    requires here { s ≤ 1_000 }
    ensures { result ≡ upper_node n s }
{
    let side = 10_000 * n + 10_000;
    let x = i64::from(side) - i64::from(5_000 * s);
    let y = i64::from(side + 5_000 * (s % 2));
    node_at(alloc, cells_end(n) + 3 + s, x, y)
}

/// Adds the nodes of the coast's upper side.
fn add_upper_nodes(alloc: Global, objects: &mut Vec<Object>, n: u32) -> Result<(), OutOfMemory>
    requires { n ≤ 100 }
    ensures { OnOk result (objects.new.items
        ≡ objects.old.items ++ map (upper_node n) (numbers (2 * n + 5))) }
{
    for s in 0..2 * n + 5 {
        objects.push(upper_node(alloc, n, s))?;
    }
    Ok(())
}

/// The lower left node of the coast.
fn lower_left(alloc: Global, n: u32) -> Object
    requires { n ≤ 100 }
    ensures { result ≡ lower_left n }
{
    node_at(alloc, cells_end(n) + 1, -10_000, -10_000)
}

/// The lower right node of the coast.
fn lower_right(alloc: Global, n: u32) -> Object
    requires { n ≤ 100 }
    ensures { result ≡ lower_right n }
{
    let x = i64::from(10_000 * n + 10_000);
    node_at(alloc, cells_end(n) + 2, x, -10_000)
}

/// Adds the nodes of the coast.
pub(crate) fn add_coast_nodes(
    alloc: Global,
    objects: &mut Vec<Object>,
    n: u32,
) -> Result<(), OutOfMemory>
    requires { n ≤ 100 }
    ensures { OnOk result (objects.new.items ≡ objects.old.items ++ coast_node_objects n) }
{
    objects.push(lower_left(alloc, n))?;
    objects.push(lower_right(alloc, n))?;
    add_upper_nodes(alloc, objects, n)?;
    Ok(())
}

/// The way through all nodes of the coast.
pub(crate) fn coast_way(alloc: Global, n: u32) -> Result<Object, OutOfMemory>
    requires { n ≤ 100 }
    ensures { IfOk result (λ way. way ≡ coast_way n) }
{
    let tags = one_tag(alloc, "natural", "coastline")?;
    closed_way(
        alloc,
        2 * cell_count(n) + 1,
        tags,
        cells_end(n) + 1,
        2 * n + 7,
    )
}

/// The relation of all ways of cells: all cells without their holes.
pub(crate) fn forest(alloc: Global, n: u32) -> Result<Object, OutOfMemory>
    requires { n ≤ 100 }
    ensures { IfOk result (λ relation. relation ≡ forest n) }
{
    let mut members = Members::new(alloc);
    for i in 0..2 * cell_count(n) {
        add_way(&mut members, i + 1, "")?;
    }
    multipolygon(alloc, cell_count(n) + 1, "forest", members)
}
