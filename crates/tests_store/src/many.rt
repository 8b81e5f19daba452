//! A store of many ways and relations.

use crate::reading::{RELATION, WAY, at, refusal};
use osm_elements::{Members, Object, ObjectRef, Ref, Refs, Tags};
use osm_objects::Store;
use std::alloc::Global;
use std::test::Fail;

/// A way of one reference, to the node of its id.
fn way(alloc: Global, id: i64) -> Result<Object, Fail> {
    let mut refs = Refs::new(alloc);
    refs.push(Ref { node: id, at: None })?;
    Ok(Object::Way {
        id,
        live: true,
        tags: Tags::new(alloc),
        refs,
    })
}

/// A relation of one member, the way of its id.
fn relation(alloc: Global, id: i64) -> Result<Object, Fail> {
    let mut members = Members::new(alloc);
    members.push(at(WAY, id), "outer")?;
    Ok(Object::Relation {
        id,
        live: true,
        tags: Tags::new(alloc),
        members,
    })
}

/// A way or a relation that names its own id.
fn named_within(alloc: Global, of: ObjectRef) -> Result<Object, Fail> {
    if of.kind == WAY {
        way(alloc, of.id)
    } else {
        relation(alloc, of.id)
    }
}

/// Adds ways and then relations, their ids so far apart; whether none is refused.
fn takes_all(alloc: Global, store: &mut Store, step: i64) -> Result<bool, Fail> {
    for kind in [WAY, RELATION] {
        for count in -20_000_i64..30_000 {
            let object = named_within(alloc, at(kind, count.wrapping_mul(step)))?;
            if refusal(store.add(object))?.is_some() {
                return Ok(false);
            }
        }
    }
    Ok(true)
}

/// Whether the way and the relation of this id are found, and are those of it, and no node is.
fn finds_both(store: &Store, id: i64) -> bool {
    let way = store.way(id).and_then(|way| way.refs.first());
    let relation = store
        .relation(id)
        .and_then(|relation| relation.members.iter().next());
    way.is_some_and(|reference| reference.node == id)
        && relation.is_some_and(|member| member.id == id)
        && store.node(id).is_none()
}

#[test]
fn each_of_many_is_found(rt: HostRuntime) -> Result<(), Fail> {
    for step in [1_i64, 37, 4096] {
        let mut store = Store::new(rt.alloc());
        assert!(rt; takes_all(rt.alloc(), &mut store, step)?, "step {step}");
        for count in -20_000_i64..30_000 {
            let id = count.wrapping_mul(step);
            assert!(rt; finds_both(&store, id), "way and relation {id}");
        }
        for id in [i64::MIN, i64::MAX, 30_000_i64.wrapping_mul(step)] {
            assert!(rt; store.way(id).is_none() && store.relation(id).is_none());
        }
    }
    Ok(())
}
