//! The cells: a square of them, counted from 0, row by row, each with a hole.

ghost use Rattle.std.specs.Prelude.{◌≡◌, ◌≤◌, ◌<◌, ◌*◌, ◌++◌, IfOk, OnOk, map};
ghost use Rattle.std.specs.List.{flat_map};
ghost use Rattle.osm_sample.specs.Numbers.{numbers};
ghost use Rattle.osm_sample.specs.Objects.{cell_nodes, cell_relation, cell_ways, corner_node, square_nodes};

use crate::nodes::node_at;
use crate::ways::{add_way, closed_way, multipolygon};
use osm_elements::{Members, Object, Tags};
use std::alloc::{AllocError as OutOfMemory, Global};

/// The number of the cells.
pub(crate) fn cell_count(n: u32) -> u32
    requires { n ≤ 100 }
    ensures value { result ≡ n * n }
    ensures few { result ≤ 10_000 }
{
    n * n
}

/// A node of a cell, `right` and `up` from its lower left corner, in units of 1e-7 degree.
fn corner_node(alloc: Global, n: u32, k: u32, id: u32, right: u32, up: u32) -> Object
    requires some { 1 ≤ n }
    requires few { k < 10_000 }
    requires near_right { right ≤ 8_000 }
    requires near_up { up ≤ 8_000 }
    ensures { result ≡ corner_node n k id right up }
{
    let x = 10_000 * (k % n) + right;
    let y = 10_000 * (k / n) + up;
    node_at(alloc, id, i64::from(x), i64::from(y))
}

/// Adds the corners of a square within a cell.
fn add_square(
    alloc: Global,
    objects: &mut Vec<Object>,
    n: u32,
    k: u32,
    first: u32,
    low: u32,
    high: u32,
) -> Result<(), OutOfMemory>
    requires some { 1 ≤ n }
    requires few { k < 10_000 }
    requires first { first ≤ 100_000 }
    requires low { low ≤ 8_000 }
    requires high { high ≤ 8_000 }
    ensures { OnOk result (objects.new.items
        ≡ objects.old.items ++ square_nodes n k first low high) }
{
    objects.push(corner_node(alloc, n, k, first, low, low))?;
    objects.push(corner_node(alloc, n, k, first + 1, high, low))?;
    objects.push(corner_node(alloc, n, k, first + 2, high, high))?;
    objects.push(corner_node(alloc, n, k, first + 3, low, high))?;
    Ok(())
}

/// Adds the nodes of a cell and of its hole.
fn add_nodes_of(alloc: Global, objects: &mut Vec<Object>, n: u32, k: u32) -> Result<(), OutOfMemory>
    requires some { 1 ≤ n }
    requires few { k < 10_000 }
    ensures { OnOk result (objects.new.items ≡ objects.old.items ++ cell_nodes n k) }
{
    add_square(alloc, objects, n, k, 8 * k + 1, 0, 8_000)?;
    add_square(alloc, objects, n, k, 8 * k + 5, 2_000, 6_000)
}

/// Adds the nodes of all cells.
pub(crate) fn add_cell_nodes(
    alloc: Global,
    objects: &mut Vec<Object>,
    n: u32,
) -> Result<(), OutOfMemory>
    requires some { 1 ≤ n }
    requires few { n ≤ 100 }
    ensures { OnOk result (objects.new.items
        ≡ objects.old.items ++ flat_map (cell_nodes n) (numbers (n * n))) }
{
    for k in 0..cell_count(n) {
        add_nodes_of(alloc, objects, n, k)?;
    }
    Ok(())
}

/// Adds the way around a cell and the way around its hole.
fn add_ways_of(alloc: Global, objects: &mut Vec<Object>, k: u32) -> Result<(), OutOfMemory>
    requires few { k < 10_000 }
    ensures { OnOk result (objects.new.items ≡ objects.old.items ++ cell_ways k) }
{
    let tags = Tags::new(alloc);
    objects.push(closed_way(alloc, 2 * k + 1, tags, 8 * k + 1, 4)?)?;
    let tags = Tags::new(alloc);
    objects.push(closed_way(alloc, 2 * k + 2, tags, 8 * k + 5, 4)?)?;
    Ok(())
}

/// Adds the ways of all cells.
pub(crate) fn add_cell_ways(
    alloc: Global,
    objects: &mut Vec<Object>,
    n: u32,
) -> Result<(), OutOfMemory>
    requires { n ≤ 100 }
    ensures { OnOk result (objects.new.items
        ≡ objects.old.items ++ flat_map cell_ways (numbers (n * n))) }
{
    for k in 0..cell_count(n) {
        add_ways_of(alloc, objects, k)?;
    }
    Ok(())
}

/// The relation of a cell.
fn cell_relation(alloc: Global, k: u32) -> Result<Object, OutOfMemory>
    requires { k < 10_000 }
    ensures { IfOk result (λ relation. relation ≡ cell_relation k) }
{
    let mut members = Members::new(alloc);
    add_way(&mut members, 2 * k + 1, "outer")?;
    add_way(&mut members, 2 * k + 2, "inner")?;
    multipolygon(alloc, k + 1, "grass", members)
}

/// Adds the relations of all cells.
pub(crate) fn add_cell_relations(
    alloc: Global,
    objects: &mut Vec<Object>,
    n: u32,
) -> Result<(), OutOfMemory>
    requires { n ≤ 100 }
    ensures { OnOk result (objects.new.items
        ≡ objects.old.items ++ map cell_relation (numbers (n * n))) }
{
    for k in 0..cell_count(n) {
        objects.push(cell_relation(alloc, k)?)?;
    }
    Ok(())
}
