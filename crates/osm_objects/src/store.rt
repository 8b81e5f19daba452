//! The store of objects.

ghost use Rattle.std.specs.Prelude.{◌≡◌, ◌++◌, ◌∷◌, [], true, All, Contains, IsTrue, IfOk, OnOk, OnErr, IfErr, IfSome, IsSome, None, Some, option_map, false};
ghost use Rattle.std.specs.List.{IsDistinct};
ghost use Rattle.std.specs.Ordering.{int_eq};
ghost use Rattle.osm_objects.specs.Object.{id_of, is_live, ref_of};
ghost use Rattle.osm_objects.specs.Objects.{object_at, location_of, place_of, node_of, way_of, relation_of, with_object, is_duplicate, AreApart};
ghost use Rattle.osm_objects.specs.declared.choice.Choice.{Choice};
ghost use Rattle.osm_objects.specs.Candidates.{area_tags, is_candidate, candidates, without_lists};
ghost use Rattle.osm_objects.specs.CoastWays.{coast_ways};
ghost use Rattle.osm_objects.specs.Nodes.{node_ids};
ghost use Rattle.osm_objects.specs.AddErrors.{Refuses};
ghost use Rattle.osm_objects.specs.Views.{node_seen, way_seen, relation_seen};
ghost use Rattle.osm_objects.specs.Held.{live_ref};
ghost use Rattle.osm_objects.specs.Found.{object_found};
ghost use Rattle.osm_objects.specs.Others.{object_held};

use crate::choice::Choice;
use crate::error::AddError;
use crate::found::Found;
use crate::growing::push_last;
use crate::held::Placed;
use crate::others::Others;
use crate::plain::{PlainNode, is_above, node_of, plain_node, push_ids};
use crate::view::{NodeView, RelationView, WayView};
use osm_elements::{Object, ObjectKind, ObjectRef, Ref, Tags};
use osm_lattice::Loc;
use std::alloc::{AllocError as OutOfMemory, Global};
use std::marker::Model;
use std::mem;

/// The live objects of an input. Contracts see it as their list, in the order in which they were added.
#[derive(Drop)]
pub struct Store {
    // Nodes that have a location and no tags, as long as their ids rise, as they do in a sorted input.
    nodes: Vec<PlainNode>,
    // All others, the three kinds in one list, since candidates come in input order across them.
    others: Others,
    // How many of the nodes came after the last of the others.
    since: u64,
    // No tags, lent as those of a node that has none.
    no_tags: Tags,
}

impl Model for Store {
    ghost use Rattle.std.specs.Prelude.{◌≡◌, List, []};
    ghost use Rattle.osm_elements.specs.declared.object.Object.{Object};
    ghost use Rattle.osm_objects.specs.Objects.{AreApart};
    ghost use Rattle.osm_objects.specs.Held.{others_from};
    ghost use Rattle.osm_objects.specs.Merged.{merged, Fit};
    ghost use Rattle.osm_objects.specs.Plain.{nodes_from, HaveRisingIds};

    ghost Value = { List Object };

    ghost view = { λ s. merged (nodes_from s.nodes.items) (others_from s.others) };

    ghost invariant = { λ s. HaveRisingIds s.nodes.items
        × Fit (nodes_from s.nodes.items) (others_from s.others) s.since
        × AreApart (merged (nodes_from s.nodes.items) (others_from s.others))
        × (s.no_tags ≡ []) };
}

/// The kind and id of an object that is live.
fn live_ref(object: &Object) -> Option<ObjectRef>
    ensures { result ≡ live_ref object.now }
{
    match object {
        Object::Node { id, live, .. } if *live => Some(ObjectRef {
            kind: ObjectKind::Node,
            id: *id,
        }),
        Object::Way { id, live, .. } if *live => Some(ObjectRef {
            kind: ObjectKind::Way,
            id: *id,
        }),
        Object::Relation { id, live, .. } if *live => Some(ObjectRef {
            kind: ObjectKind::Relation,
            id: *id,
        }),
        Object::Node { .. } | Object::Way { .. } | Object::Relation { .. } => None,
    }
}

/// Adds the id of a node, and nothing for another object.
fn push_id(ids: &mut Vec<i64>, placed: &Placed) -> Result<(), OutOfMemory>
    ensures { OnOk result (ids.new.items
        ≡ ids.old.items ++ node_ids (object_held placed.now ∷ [])) }
{
    if placed.held.is_node() {
        ids.push(placed.id)?;
    }
    Ok(())
}

impl Store {
    /// A store that holds nothing. Making it takes no memory.
    pub fn new(alloc: Global) -> Store
        ensures { result ≡ [] }
    {
        Store {
            nodes: Vec::new(alloc),
            others: Others::new(alloc),
            since: 0,
            no_tags: Tags::new(alloc),
        }
    }

    /// Adds an object at the end. A deleted one (`dD` in OPL) changes nothing and is never refused.
    ///
    /// A live object whose kind and id are held already is refused as `Duplicate`. After a refusal, or if memory runs out,
    /// the store is unchanged.
    pub fn add(&mut self, object: Object) -> Result<(), AddError>
        ensures added { OnOk result (self.new ≡ with_object self.old object) }
        ensures fresh { OnOk result (is_duplicate self.old object ≡ false) }
        ensures unchanged { OnErr result (self.new ≡ self.old) }
        ensures refusal { IfErr result (Refuses self.old object) }
    {
        match self.add_lent(&object) {
            Ok(Some(id)) => self.add_other(id, object)?,
            Ok(None) => {}
            Err(error) => {
                mem::drop(object);
                return Err(error);
            }
        }
        Ok(())
    }

    /// Adds an object, if nothing of it has to be kept but a plain node. Of any other it gives the id.
    ///
    /// In this case the store is unchanged, as after an `Err`.
    fn add_lent(&mut self, object: &Object) -> Result<Option<i64>, AddError>
        ensures added { IfOk result (λ left. left ≡ None
            → self.new ≡ with_object self.old object.now) }
        ensures left { IfOk result (λ left. IfSome left (λ _. self.new ≡ self.old)) }
        ensures live { IfOk result (λ left. IfSome left (λ _. is_live object.now ≡ true)) }
        ensures id { IfOk result (λ left. IfSome left (λ id. id ≡ id_of object.now)) }
        ensures fresh { OnOk result (is_duplicate self.old object.now ≡ false) }
        ensures unchanged { OnErr result (self.new ≡ self.old) }
        ensures refusal { IfErr result (Refuses self.old object.now) }
    {
        let Some(of) = live_ref(object) else {
            return Ok(None);
        };
        if self.find(of).is_held() {
            return Err(AddError::Duplicate {
                kind: of.kind,
                id: of.id,
            });
        }
        if self.add_plain(object)? {
            return Ok(None);
        }
        Ok(Some(of.id))
    }

    /// Adds a live object whose kind and id aren't held to the plain nodes, and says so, if it is one and their ids still rise.
    ///
    /// Otherwise, or after an `Err`, the store is unchanged.
    fn add_plain(&mut self, object: &Object) -> Result<bool, OutOfMemory>
        requires { object_at self.old (ref_of object.now) ≡ None }
        ensures added { IfOk result (λ is. is ≡ true → self.new ≡ self.old ++ object.now ∷ []) }
        ensures as_before { IfOk result (λ is. is ≡ false → self.new ≡ self.old) }
        ensures unchanged { OnErr result (self.new ≡ self.old) }
    {
        let Some(node) = plain_node(object) else {
            return Ok(false);
        };
        if !is_above(self.nodes.as_slice(), &node) {
            return Ok(false);
        }
        push_last(&mut self.nodes, node)?;
        self.since += 1;
        Ok(true)
    }

    /// Adds a live object whose kind and id aren't held to the others. After an `Err` the store is unchanged.
    fn add_other(&mut self, id: i64, object: Object) -> Result<(), OutOfMemory>
        requires live { is_live object ≡ true }
        requires id { id ≡ id_of object }
        requires fresh { is_duplicate self.old object ≡ false }
        ensures added { OnOk result (self.new ≡ self.old ++ object ∷ []) }
        ensures unchanged { OnErr result (self.new ≡ self.old) }
    {
        let placed = Placed::new(*self.nodes.allocator(), id, self.since, object)?;
        self.others.push(placed)?;
        self.since = 0;
        Ok(())
    }

    /// A law: all objects of a store are live, no two have one kind and id, and a look-up of its kind and id finds each.
    ///
    /// So a candidate's kind and id find a candidate. The candidates of every choice are among those of the choice that
    /// keeps the untagged and has no lists of keys.
    pub fn one_of_each(&self)
        ensures live { All (λ o. IsTrue (is_live o)) self.now }
        ensures apart { AreApart self.now }
        ensures found { All (λ o. object_at self.now (ref_of o) ≡ Some o) self.now }
        ensures candidates { (choice : Choice)
            → All (λ of. option_map (is_candidate choice) (object_at self.now of) ≡ Some true)
            (candidates choice self.now) }
        ensures widest { (choice : Choice)
            → All (Contains (candidates (without_lists true) self.now)) (candidates choice self.now) }
    {
        // The invariant of the type says this.
        let _ = &self.others;
    }

    /// Where an object is held.
    ///
    /// Ways: plain nodes in their list; all others in theirs.
    fn find(&self, of: ObjectRef) -> Found<'_>
        ensures { object_found of.id result ≡ object_at self.now of }
    {
        if let Some(node) = node_of(self.nodes.as_slice(), of) {
            return Found::Plain(node);
        }
        match self.others.find(of) {
            Some(placed) => Found::Other(&placed.held),
            None => Found::Nowhere,
        }
    }

    /// The location of a node. None exactly if no node of this id is held, or it has no location.
    pub fn location(&self, id: i64) -> Option<Loc>
        ensures { result ≡ location_of self.now id }
    {
        let kind = ObjectKind::Node;
        self.find(ObjectRef { kind, id }).place()
    }

    /// The location of a reference: its own if it has one, and otherwise that of its node.
    ///
    /// None exactly if there is neither. It takes no memory.
    pub fn place_of(&self, reference: &Ref) -> Option<Loc>
        ensures { result ≡ place_of self.now reference.now }
    {
        match reference.at {
            Some(place) => Some(place),
            None => self.location(reference.node),
        }
    }

    /// The node of this id. None exactly if none is held. It takes no memory.
    pub fn node(&self, id: i64) -> Option<NodeView<'_>>
        ensures { option_map node_seen result ≡ node_of self.now id }
    {
        let kind = ObjectKind::Node;
        self.find(ObjectRef { kind, id }).node(&self.no_tags)
    }

    /// The way of this id. None exactly if none is held.
    pub fn way(&self, id: i64) -> Option<WayView<'_>>
        ensures { option_map way_seen result ≡ way_of self.now id }
    {
        let kind = ObjectKind::Way;
        self.find(ObjectRef { kind, id }).way()
    }

    /// The relation of this id. None exactly if none is held.
    pub fn relation(&self, id: i64) -> Option<RelationView<'_>>
        ensures { option_map relation_seen result ≡ relation_of self.now id }
    {
        let kind = ObjectKind::Relation;
        self.find(ObjectRef { kind, id }).relation()
    }

    /// The objects that may have an area, in input order.
    ///
    /// They are closed ways that are areas by the choice, and relations tagged `type=multipolygon` or `type=boundary`
    /// (OpenStreetMap wiki, Relation:multipolygon). An object whose area would have no tag is among them only if the choice
    /// keeps those.
    pub fn candidates(&self, alloc: Global, choice: &Choice) -> Result<Vec<ObjectRef>, OutOfMemory>
        ensures list { IfOk result (λ list. list.items ≡ candidates choice.now self.now) }
        ensures held { IfOk result (λ list. All (λ of. IsSome (object_at self.now of)) list.items) }
    {
        let others = self.others.as_slice();
        // There is room for all at once: a growing list would leave holes, and unused room takes no memory.
        let mut list = Vec::with_capacity(alloc, others.len())?;
        for placed in others {
            if placed.held.is_candidate(choice) {
                list.push(placed.of())?;
            }
        }
        Ok(list)
    }

    /// The ids of the nodes, in input order.
    pub fn nodes(&self, alloc: Global) -> Result<Vec<i64>, OutOfMemory>
        ensures { IfOk result (λ ids. ids.items ≡ node_ids self.now) }
    {
        let mut ids = Vec::with_capacity(alloc, self.nodes.len())?;
        let mut plain = self.nodes.as_slice();
        let others = self.others.as_slice();
        for placed in others {
            let (before, behind) = plain.split_at(placed.gap as usize);
            push_ids(&mut ids, before)?;
            push_id(&mut ids, placed)?;
            plain = behind;
        }
        push_ids(&mut ids, plain)?;
        Ok(ids)
    }

    /// The ids of the ways tagged `natural=coastline`, in input order.
    pub fn coast_ways(&self, alloc: Global) -> Result<Vec<i64>, OutOfMemory>
        ensures list { IfOk result (λ list. list.items ≡ coast_ways self.now) }
        ensures distinct { IsDistinct int_eq (coast_ways self.now) }
    {
        let mut list = Vec::new(alloc);
        let others = self.others.as_slice();
        for placed in others {
            if placed.held.is_coast_way() {
                list.push(placed.id)?;
            }
        }
        Ok(list)
    }

    /// A copy of the tags of an area: those of its way or relation, in order, without a relation's `type`.
    pub fn area_tags(&self, alloc: Global, of: ObjectRef) -> Result<Tags, OutOfMemory>
        requires { IsSome (object_at self.now of) }
        ensures { IfOk result (λ tags. Some tags ≡ option_map area_tags (object_at self.now of)) }
    {
        self.find(of).area_tags(alloc)
    }
}
