//! Nodes that have a location and no tags. Most objects of an input are such nodes, so each takes little room.

ghost use Rattle.std.specs.Prelude.{◌≡◌, ◌++◌, ◌∷◌, [], None, Some, true, IsTrue, IfSome, OnOk, OnErr, find, map, option_map};
ghost use Rattle.std.specs.Ordering.{int_eq};
ghost use Rattle.osm_objects.specs.Objects.{object_at};
ghost use Rattle.osm_objects.specs.declared.plain.PlainNode.{PlainNode};
ghost use Rattle.osm_objects.specs.Plain.{node_from, nodes_from, HaveRisingIds};

use osm_elements::{Object, ObjectKind, ObjectRef};
use osm_lattice::Loc;
use std::alloc::AllocError as OutOfMemory;
use std::cmp::Ordering;

/// A live node that has a location and no tags.
#[derive(Clone, Copy, Debug)]
pub(crate) struct PlainNode {
    pub(crate) id: i64,
    pub(crate) place: Loc,
}

/// The object as such a node, if it is one.
pub(crate) fn plain_node(object: &Object) -> Option<PlainNode>
    ensures { IfSome result (λ n. node_from n ≡ object.now) }
{
    match object {
        Object::Node {
            id,
            live,
            tags,
            place: Some(place),
        } if *live && tags.is_empty() => Some(PlainNode {
            id: *id,
            place: *place,
        }),
        Object::Node { .. } | Object::Way { .. } | Object::Relation { .. } => None,
    }
}

/// Whether the node's id is above those of all of these.
pub(crate) fn is_above(nodes: &[PlainNode], node: &PlainNode) -> bool
    requires { HaveRisingIds nodes.now }
    ensures { result ≡ true → HaveRisingIds (nodes.now ++ node.now ∷ []) }
{
    match nodes.last() {
        Some(last) => last.id < node.id,
        None => true,
    }
}

/// Adds the ids of these nodes.
pub(crate) fn push_ids(ids: &mut Vec<i64>, nodes: &[PlainNode]) -> Result<(), OutOfMemory>
    ensures { OnOk result (ids.new.items
        ≡ ids.old.items ++ map (λ (n : PlainNode). n.id) nodes.now) }
{
    for node in nodes {
        ids.push(node.id)?;
    }
    Ok(())
}

/// The node of this kind and id among nodes whose ids rise.
pub(crate) fn node_of(nodes: &[PlainNode], of: ObjectRef) -> Option<PlainNode>
    requires { HaveRisingIds nodes.now }
    ensures { option_map node_from result ≡ object_at (nodes_from nodes.now) of }
{
    if of.kind != ObjectKind::Node {
        return None;
    }
    by_id(nodes, of)
}

/// Whether the id is above those of all of these nodes, like that of a node that is added in order.
fn lies_above(nodes: &[PlainNode], of: ObjectRef) -> bool
    requires { HaveRisingIds nodes.now }
    ensures { result ≡ true → find (λ n. int_eq of.id n.id) nodes.now ≡ None }
{
    match nodes.last() {
        Some(last) => last.id < of.id,
        None => true,
    }
}

/// The place that the id would have if ids rose evenly. Only the speed of the search depends on it.
fn likely_place(nodes: &[PlainNode], of: ObjectRef) -> usize {
    let (Some(first), Some(last)) = (nodes.first(), nodes.last()) else {
        return 0;
    };
    let whole = last.id.wrapping_sub(first.id).unsigned_abs();
    let part = of.id.wrapping_sub(first.id).unsigned_abs();
    let steps = nodes.len() as u64 - 1;
    (part.wrapping_mul(steps) / whole.max(1)) as usize
}

/// The node at a place, if it has this id.
fn node_at(nodes: &[PlainNode], place: usize, of: ObjectRef) -> Option<PlainNode>
    requires { HaveRisingIds nodes.now }
    ensures { IfSome result (λ node. find (λ n. int_eq of.id n.id) nodes.now ≡ Some node) }
{
    match nodes.get(place) {
        Some(node) if node.id == of.id => Some(*node),
        _ => None,
    }
}

/// The node of this id among nodes whose ids rise.
///
/// Ways: ids above all others; those at the place that they would have if ids rose evenly; all others by binary search.
fn by_id(nodes: &[PlainNode], of: ObjectRef) -> Option<PlainNode>
    requires { HaveRisingIds nodes.now }
    ensures { result ≡ find (λ n. int_eq of.id n.id) nodes.now }
{
    if lies_above(nodes, of) {
        return None;
    }
    let likely = node_at(nodes, likely_place(nodes, of), of);
    if likely.is_some() {
        return likely;
    }
    by_halves(nodes, of)
}

/// The same by binary search.
fn by_halves(nodes: &[PlainNode], of: ObjectRef) -> Option<PlainNode>
    requires { HaveRisingIds nodes.now }
    ensures { result ≡ find (λ n. int_eq of.id n.id) nodes.now }
{
    let mut rest = nodes;
    while !rest.is_empty() {
        let (before, from) = rest.split_at(rest.len() / 2);
        let (node, behind) = from.split_first()?;
        match of.id.cmp(&node.id) {
            Ordering::Less => rest = before,
            Ordering::Equal => return Some(*node),
            Ordering::Greater => rest = behind,
        }
    }
    None
}
