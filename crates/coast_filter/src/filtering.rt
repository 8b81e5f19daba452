//! The coast written.

ghost use Rattle.std.specs.Prelude.{◌≡◌, ◌++◌, IfOk, OnOk};
ghost use Rattle.std.specs.List.{flat_map};
ghost use Rattle.std.specs.List.Sorted.{IsSorted};
ghost use Rattle.std.specs.Ordering.{int_cmp};
ghost use Rattle.opl_writer.specs.Written.{objects_text};
ghost use Rattle.coast_filter.specs.ByIds.{among, node_text, way_line_by_id};
ghost use Rattle.coast_filter.specs.CoastPart.{coast_part};
ghost use Rattle.coast_filter.specs.Laws.{TellsCoastOf};
ghost use Rattle.opl_writer.specs.ReadBack.Laws.{AreSpelled};

use crate::laws::coast_text_tells_the_coast;
use crate::names::names_of;
use lists::is_among;
use opl_writer::read_back::spelled_objects_can_be_written;
use opl_writer::{put_node, put_way};
use osm_objects::Store;
use std::alloc::{AllocError as OutOfMemory, Global};

/// Adds the line of the node of this id.
fn put_held_node(text: &mut Vec<u8>, store: &Store, id: i64) -> Result<(), OutOfMemory>
    ensures { OnOk result (text.new.items ≡ text.old.items ++ node_text store.now id) }
{
    match store.node(id) {
        Some(node) => put_node(text, id, node.tags, node.place),
        None => Ok(()),
    }
}

/// Adds the line of the way of this id.
fn put_held_way(text: &mut Vec<u8>, store: &Store, id: i64) -> Result<(), OutOfMemory>
    ensures { OnOk result (text.new.items ≡ text.old.items ++ way_line_by_id store.now id) }
{
    match store.way(id) {
        Some(way) => put_way(text, id, way.tags, way.refs),
        None => Ok(()),
    }
}

/// Adds the lines of the nodes that are among these names, which are in order.
fn put_named(
    text: &mut Vec<u8>,
    store: &Store,
    names: &[i64],
    nodes: &[i64],
) -> Result<(), OutOfMemory>
    requires { IsSorted int_cmp names.now }
    ensures { OnOk result (text.new.items
        ≡ text.old.items ++ flat_map (node_text store.now) (among names.now nodes.now)) }
{
    for &node in nodes {
        if is_among(names, &node) {
            put_held_node(text, store, node)?;
        }
    }
    Ok(())
}

/// Adds the lines of ways.
fn put_ways(text: &mut Vec<u8>, store: &Store, ways: &[i64]) -> Result<(), OutOfMemory>
    ensures { OnOk result (text.new.items
        ≡ text.old.items ++ flat_map (way_line_by_id store.now) ways.now) }
{
    for &way in ways {
        put_held_way(text, store, way)?;
    }
    Ok(())
}

/// The lines of the coast of a store.
fn coast_lines(alloc: Global, store: &Store) -> Result<Vec<u8>, OutOfMemory>
    ensures text { IfOk result (λ text. text.items ≡ objects_text (coast_part store.now)) }
{
    // By law: an object's kind and id find this object.
    store.one_of_each();
    let ways = store.coast_ways(alloc)?;
    let names = names_of(alloc, store, &ways)?;
    let nodes = store.nodes(alloc)?;
    let mut text = Vec::new(alloc);
    put_named(&mut text, store, &names, &nodes)?;
    put_ways(&mut text, store, &ways)?;
    Ok(text)
}

/// The coast of a store as OPL: its coast ways and the nodes that they name.
///
/// First comes a line for each node that a reference of a coast way names, in input order. Then comes a line for each
/// coast way, in input order. A coast way is one tagged `natural=coastline` (OpenStreetMap wiki,
/// Tag:natural=coastline).
///
/// Tags are kept, and so are nodes without a location and references' own locations. A reference that has its own
/// location still names its node. If there is no coast, there are no bytes. Fails only if memory runs out.
pub fn filter(alloc: Global, store: &Store) -> Result<Vec<u8>, OutOfMemory>
    ensures text { IfOk result (λ text. text.items ≡ objects_text (coast_part store.now)) }
    // The text tells the coast part of the objects and nothing else, if lines spell them, as those of an input do.
    // Nothing is wrong with it but that a line may be too long, and it has their coast input.
    ensures coast { AreSpelled store.now → IfOk result (λ text. TellsCoastOf store.now text.items) }
{
    // By law: the objects of a store are live and apart.
    // So they can be written if lines spell them, and what is written is read back.
    store.one_of_each();
    spelled_objects_can_be_written();
    coast_text_tells_the_coast();
    coast_lines(alloc, store)
}
