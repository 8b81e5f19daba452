//! The objects of the sample input, in order, and a store of them.

ghost use Rattle.std.specs.Prelude.{◌≡◌, ◌≤◌, IfOk, OnOk, filter};
ghost use Rattle.osm_objects.specs.Object.{is_live};
ghost use Rattle.osm_objects.specs.Objects.{with_object};
ghost use Rattle.osm_sample.specs.Input.{sample_objects};

use crate::cells::{add_cell_nodes, add_cell_relations, add_cell_ways};
use crate::coast::{add_coast_nodes, coast_way, forest};
use osm_elements::Object;
use osm_objects::{AddError, Store};
use std::alloc::{AllocError as OutOfMemory, Global};

/// The objects of the sample of `count` times `count` cells.
pub(crate) fn sample_objects(alloc: Global, count: u8) -> Result<Vec<Object>, OutOfMemory>
    requires some { 1 ≤ count }
    requires few { count ≤ 100 }
    ensures { IfOk result (λ objects. objects.items ≡ sample_objects count) }
{
    let n = u32::from(count);
    let mut objects = Vec::new(alloc);
    add_cell_nodes(alloc, &mut objects, n)?;
    add_coast_nodes(alloc, &mut objects, n)?;
    add_cell_ways(alloc, &mut objects, n)?;
    objects.push(coast_way(alloc, n)?)?;
    add_cell_relations(alloc, &mut objects, n)?;
    objects.push(forest(alloc, n)?)?;
    Ok(objects)
}

/// Adds an object that isn't there yet.
fn add(store: &mut Store, object: Object) -> Result<(), OutOfMemory>
    ensures { OnOk result (store.new ≡ with_object store.old object) }
{
    // No two objects of the sample have one kind and id, by the law that it is read. So it fails only if memory runs out.
    match store.add(object) {
        Ok(()) => Ok(()),
        Err(AddError::Duplicate { .. } | AddError::OutOfMemory) => Err(OutOfMemory),
    }
}

/// A store of the live ones of these objects.
fn store_of(alloc: Global, objects: Vec<Object>) -> Result<Store, OutOfMemory>
    ensures { IfOk result (λ store. store ≡ filter is_live objects.items) }
{
    let mut store = Store::new(alloc);
    for object in objects {
        add(&mut store, object)?;
    }
    Ok(store)
}

/// A store that holds the objects of the sample of `count` times `count` cells. Fails only if memory runs out.
pub fn sample_store(alloc: Global, count: u8) -> Result<Store, OutOfMemory>
    requires some { 1 ≤ count }
    requires few { count ≤ 100 }
    ensures { IfOk result (λ store. store ≡ sample_objects count) }
{
    store_of(alloc, sample_objects(alloc, count)?)
}
