//! Objects that a store lends, and nodes in order of the input.

use crate::reading::{are_tags, degrees, store_of};
use osm_lattice::Loc;
use osm_objects::Store;
use std::alloc::Global;
use std::test::Fail;

const NODES: &str = "n5 x0 y0
w9 Ta=b Nn5,n7
n7
n3 x1 y1
n8 Tplace=village,name=x x2 y2
n6 x3 y3
n4 dD x4 y4
r5 Ta=b Mw9@outer
n-9 Ta=b
n10 x5 y5";

/// Whether the nodes of lines are these, in this order.
fn are_nodes(alloc: Global, lines: &str, ids: &[i64]) -> Result<bool, Fail> {
    let store = store_of(alloc, lines)?;
    Ok(store.nodes(alloc)?.as_slice() == ids)
}

#[test]
fn nodes_in_input_order(rt: HostRuntime) -> Result<(), Fail> {
    for (text, ids) in [
        (NODES, [5, 7, 3, 8, 6, -9, 10].as_slice()),
        ("", [].as_slice()),
        ("w1 Nn1\nn1 x0 y0", [1].as_slice()),
        ("n2 Ta=b\nn1 x0 y0\nn3 x0 y0", [2, 1, 3].as_slice()),
    ] {
        assert!(rt; are_nodes(rt.alloc(), text, ids)?, "{text}");
    }
    Ok(())
}

/// Whether a node of these tags and this location is lent.
fn lends_node(
    alloc: Global,
    store: &Store,
    id: i64,
    tags: &str,
    place: Option<Loc>,
) -> Result<bool, Fail> {
    match store.node(id) {
        Some(node) => Ok(are_tags(alloc, node.tags, tags)? && node.place == place),
        None => Ok(false),
    }
}

#[test]
fn a_node_is_lent(rt: HostRuntime) -> Result<(), Fail> {
    let store = store_of(rt.alloc(), NODES)?;
    for (id, tags, place) in [
        (5, "", degrees(0, 0)),
        (7, "", None),
        (3, "", degrees(1, 1)),
        (8, "place=village name=x ", degrees(2, 2)),
        (-9, "a=b ", None),
        (10, "", degrees(5, 5)),
    ] {
        assert!(rt; lends_node(rt.alloc(), &store, id, tags, place)?, "of {id}");
    }
    for id in [4, 9, 1] {
        assert!(rt; store.node(id).is_none(), "no node {id}");
    }
    Ok(())
}

/// Whether a way of these tags and nodes is lent.
fn lends_way(
    alloc: Global,
    store: &Store,
    id: i64,
    tags: &str,
    nodes: [i64; 2],
) -> Result<bool, Fail> {
    match store.way(id) {
        Some(way) => {
            let named = way.refs.iter().map(|reference| reference.node);
            Ok(named.eq(nodes) && are_tags(alloc, way.tags, tags)?)
        }
        None => Ok(false),
    }
}

#[test]
fn a_way_is_lent(rt: HostRuntime) -> Result<(), Fail> {
    let store = store_of(rt.alloc(), "n7\nw9 Ta=b,c=d Nn7,n8")?;
    assert!(rt; store.way(7).is_none());
    assert!(rt; lends_way(rt.alloc(), &store, 9, "a=b c=d ", [7, 8])?);
    Ok(())
}

/// Whether a relation of these tags and one member of this id is lent.
fn lends_relation(
    alloc: Global,
    store: &Store,
    id: i64,
    tags: &str,
    member: i64,
) -> Result<bool, Fail> {
    match store.relation(id) {
        Some(relation) => {
            let first = relation.members.iter().next().map(|member| member.id);
            Ok(
                first == Some(member)
                    && relation.members.len() == 1
                    && are_tags(alloc, relation.tags, tags)?,
            )
        }
        None => Ok(false),
    }
}

#[test]
fn a_relation_is_lent(rt: HostRuntime) -> Result<(), Fail> {
    let store = store_of(rt.alloc(), "w7\nr5 Ttype=route Mw-3@outer")?;
    assert!(rt; store.relation(7).is_none());
    assert!(rt; lends_relation(rt.alloc(), &store, 5, "type=route ", -3)?);
    Ok(())
}
