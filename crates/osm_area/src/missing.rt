//! What a candidate lacks: member ways, and locations of their references.

ghost use Rattle.std.specs.Prelude.{◌≡◌, ◌++◌, IfOk, OnOk};
ghost use Rattle.std.specs.List.{flat_map};
ghost use Rattle.lists.specs.Once.{each_once};
ghost use Rattle.osm_area.specs.Missing.{same_ref, nodes_missing, way_missing};

use lists::each_once;
use osm_elements::{ObjectKind, ObjectRef, Refs};
use osm_objects::Store;
use std::alloc::{AllocError as OutOfMemory, Global};

/// Adds the node of each reference that has no location.
fn add_missing_nodes(
    missing: &mut Vec<ObjectRef>,
    store: &Store,
    refs: &Refs,
) -> Result<(), OutOfMemory>
    ensures { OnOk result (missing.new.items
        ≡ missing.old.items ++ nodes_missing store.now refs.now) }
{
    for reference in refs.iter() {
        if store.place_of(&reference).is_none() {
            let kind = ObjectKind::Node;
            let id = reference.node;
            missing.push(ObjectRef { kind, id })?;
        }
    }
    Ok(())
}

/// Adds what a way lacks.
fn add_missing(missing: &mut Vec<ObjectRef>, store: &Store, way: i64) -> Result<(), OutOfMemory>
    ensures { OnOk result (missing.new.items ≡ missing.old.items ++ way_missing store.now way) }
{
    match store.way(way) {
        Some(found) => add_missing_nodes(missing, store, found.refs),
        None => {
            let kind = ObjectKind::Way;
            missing.push(ObjectRef { kind, id: way })?;
            Ok(())
        }
    }
}

/// What ways lack, one way after the other.
fn all_missing(alloc: Global, store: &Store, ways: &[i64]) -> Result<Vec<ObjectRef>, OutOfMemory>
    ensures { IfOk result (λ v. v.items ≡ flat_map (way_missing store.now) ways.now) }
{
    let mut missing = Vec::new(alloc);
    for &way in ways {
        add_missing(&mut missing, store, way)?;
    }
    Ok(missing)
}

/// What ways lack, one way after the other, each thing once, at its first place.
#[tactic(auto, using(crate::proofs::RefLemmas::each_once_refs))]
pub fn missing(alloc: Global, store: &Store, ways: &[i64]) -> Result<Vec<ObjectRef>, OutOfMemory>
    ensures { IfOk result (λ v. v.items
        ≡ each_once same_ref (flat_map (way_missing store.now) ways.now)) }
{
    let all = all_missing(alloc, store, ways)?;
    each_once(alloc, &all)
}
