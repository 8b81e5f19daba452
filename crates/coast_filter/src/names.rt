//! The nodes that ways name.

ghost use Rattle.std.specs.Prelude.{◌≡◌, ◌++◌, IfOk, OnOk};
ghost use Rattle.std.specs.List.{flat_map};
ghost use Rattle.std.specs.List.Sorted.{IsSorted};
ghost use Rattle.std.specs.Ordering.{int_cmp};
ghost use Rattle.coast_filter.specs.ByIds.{HaveSame, way_nodes};
ghost use Rattle.coast_filter.specs.CoastPart.{nodes_named};

use osm_elements::Refs;
use osm_objects::Store;
use std::alloc::{AllocError as OutOfMemory, Global};

/// Adds the nodes that references name.
fn add_names(names: &mut Vec<i64>, refs: &Refs) -> Result<(), OutOfMemory>
    ensures { OnOk result (names.new.items ≡ names.old.items ++ nodes_named refs.now) }
{
    for reference in refs.iter() {
        names.push(reference.node)?;
    }
    Ok(())
}

/// Adds the nodes that references of the way of this id name.
fn add_names_of(names: &mut Vec<i64>, store: &Store, way: i64) -> Result<(), OutOfMemory>
    ensures { OnOk result (names.new.items ≡ names.old.items ++ way_nodes store.now way) }
{
    match store.way(way) {
        Some(found) => add_names(names, found.refs),
        None => Ok(()),
    }
}

/// The nodes that references of the ways of these ids name, one way after the other.
fn all_names(alloc: Global, store: &Store, ways: &[i64]) -> Result<Vec<i64>, OutOfMemory>
    ensures { IfOk result (λ names. names.items ≡ flat_map (way_nodes store.now) ways.now) }
{
    let mut names = Vec::new(alloc);
    for &way in ways {
        add_names_of(&mut names, store, way)?;
    }
    Ok(names)
}

/// The nodes that references of the ways of these ids name, in order of their ids.
pub(crate) fn names_of(alloc: Global, store: &Store, ways: &[i64]) -> Result<Vec<i64>, OutOfMemory>
    ensures same { IfOk result (λ names.
        HaveSame names.items (flat_map (way_nodes store.now) ways.now)) }
    ensures sorted { IfOk result (λ names. IsSorted int_cmp names.items) }
{
    let mut names = all_names(alloc, store, ways)?;
    names.sort_unstable();
    Ok(names)
}
