//! What the store keeps of an object, besides its kind and id.

ghost use Rattle.std.specs.Prelude.{◌≡◌, [], ℤ, nat_lt, nat_le, length, IsTrue, IfOk, option_map};
ghost use Rattle.osm_objects.specs.Object.{is_live, id_of, kind_of};
ghost use Rattle.osm_objects.specs.Objects.{place_in, node_in, way_in, relation_in};
ghost use Rattle.osm_objects.specs.Candidates.{is_closed, node_named, may_have_area, area_tags, is_candidate};
ghost use Rattle.osm_objects.specs.CoastWays.{is_coast_way};
ghost use Rattle.osm_objects.specs.Held.{object_from};
ghost use Rattle.osm_objects.specs.Nodes.{is_node};
ghost use Rattle.osm_objects.specs.Views.{node_seen, way_seen, relation_seen};

use crate::choice::Choice;
use crate::tags::{copy_without, has_other_key, is_tagged};
use crate::view::{NodeView, RelationView, WayView};
use osm_elements::{Members, Object, ObjectKind, ObjectRef, Ref, Refs, Tags};
use osm_lattice::Loc;
use std::alloc::{AllocError as OutOfMemory, Global};

/// A node that has tags.
#[derive(Drop)]
pub(crate) struct TaggedNode {
    pub(crate) tags: Tags,
    pub(crate) place: Option<Loc>,
}

/// A way.
#[derive(Drop)]
pub(crate) struct HeldWay {
    pub(crate) tags: Tags,
    pub(crate) refs: Refs,
}

/// A relation.
#[derive(Drop)]
pub(crate) struct HeldRelation {
    pub(crate) tags: Tags,
    pub(crate) members: Members,
}

/// An object without its kind and id.
///
/// Most are nodes without tags. So only these are stored in the entry itself, and an entry is no larger than they need.
#[derive(Drop)]
pub(crate) enum Held {
    Plain(Option<Loc>),
    Tagged(Box<TaggedNode>),
    Way(Box<HeldWay>),
    Relation(Box<HeldRelation>),
}

/// An object that isn't a plain node, with how many plain nodes are between it and the other such object before it.
///
/// So the order of all objects is kept.
#[derive(Drop)]
pub(crate) struct Placed {
    pub(crate) id: i64,
    pub(crate) gap: u64,
    pub(crate) held: Held,
}

impl Placed {
    ghost use Rattle.std.specs.Ordering.{is_lt};
    ghost use Rattle.osm_objects.specs.Others.{object_held, ref_held, ref_cmp, is_held_at};

    /// A live object of this id, after this many plain nodes.
    pub(crate) fn new(
        alloc: Global,
        id: i64,
        gap: u64,
        object: Object,
    ) -> Result<Placed, OutOfMemory>
        requires live { IsTrue (is_live object) }
        requires id { id ≡ id_of object }
        ensures gap { IfOk result (λ p. p.gap ≡ gap) }
        ensures object { IfOk result (λ p. object_held p ≡ object) }
    {
        let held = Held::of(alloc, object)?;
        Ok(Placed { id, gap, held })
    }

    /// Whether it has this kind and id.
    pub(crate) fn is_at(&self, of: ObjectRef) -> bool
        ensures { result ≡ is_held_at of self.now }
    {
        self.of() == of
    }

    /// Whether its kind and id come before these in a sorted input.
    pub(crate) fn is_below(&self, of: ObjectRef) -> bool
        ensures { result ≡ is_lt (ref_cmp (ref_held self.now) of) }
    {
        self.of().cmp(&of).is_lt()
    }

    /// Its kind and id.
    pub(crate) fn of(&self) -> ObjectRef
        ensures { result ≡ ref_held self.now }
    {
        ObjectRef {
            kind: self.held.kind(),
            id: self.id,
        }
    }
}

impl Held {
    /// What is kept of a live object.
    pub(crate) fn of(alloc: Global, object: Object) -> Result<Held, OutOfMemory>
        requires { IsTrue (is_live object) }
        ensures { IfOk result (λ h. object_from (id_of object) h ≡ object) }
    {
        match object {
            Object::Node { tags, place, .. } if tags.is_empty() => { Ok(Held::Plain(place)) }
            Object::Node { tags, place, .. } => {
                Ok(Held::Tagged(Box::new(alloc, TaggedNode { tags, place })?))
            }
            Object::Way { tags, refs, .. } => {
                Ok(Held::Way(Box::new(alloc, HeldWay { tags, refs })?))
            }
            Object::Relation { tags, members, .. } => {
                Ok(Held::Relation(Box::new(alloc, HeldRelation { tags, members })?))
            }
        }
    }

    /// The kind of the object.
    pub(crate) fn kind(&self) -> ObjectKind
        ensures { (id : ℤ) → result ≡ kind_of (object_from id self.now) }
    {
        match self {
            Held::Plain(_) | Held::Tagged(_) => ObjectKind::Node,
            Held::Way(_) => ObjectKind::Way,
            Held::Relation(_) => ObjectKind::Relation,
        }
    }

    /// Whether it may have an area, tagged or not.
    #[tactic(auto, unfolding(crate::specs::Candidates::may_have_area))]
    fn may_have_area(&self, choice: &Choice) -> bool
        ensures { (id : ℤ) → result ≡ may_have_area choice.now (object_from id self.now) }
    {
        match self {
            Held::Plain(_) | Held::Tagged(_) => false,
            Held::Way(way) => {
                has_four(&way.refs) && is_closed(&way.refs) && choice.is_area_way(&way.tags)
            }
            Held::Relation(relation) => {
                is_tagged(&relation.tags, "type", "multipolygon")
                    || is_tagged(&relation.tags, "type", "boundary")
            }
        }
    }

    /// Whether its area has tags.
    #[tactic(auto, using(crate::proofs::TagLemmas::any_left), unfolding(crate::specs::Candidates::area_tags))]
    fn has_area_tags(&self) -> bool
        ensures { (id : ℤ) → result ≡ nat_lt 0 (length (area_tags (object_from id self.now))) }
    {
        match self {
            Held::Plain(_) | Held::Tagged(_) => false,
            Held::Way(way) => !way.tags.is_empty(),
            Held::Relation(relation) => has_other_key(&relation.tags, "type"),
        }
    }

    /// Whether it is a candidate by this choice. Tags are tested first, since testing a way's references passes all of them.
    #[tactic(auto, unfolding(crate::specs::Candidates::is_candidate))]
    pub(crate) fn is_candidate(&self, choice: &Choice) -> bool
        ensures { (id : ℤ) → result ≡ is_candidate choice.now (object_from id self.now) }
    {
        (choice.keep_untagged || self.has_area_tags()) && self.may_have_area(choice)
    }

    /// Whether it is a way of the coast.
    #[tactic(auto, unfolding(crate::specs::CoastWays::is_coast_way))]
    pub(crate) fn is_coast_way(&self) -> bool
        ensures { (id : ℤ) → result ≡ is_coast_way (object_from id self.now) }
    {
        match self {
            Held::Way(way) => is_tagged(&way.tags, "natural", "coastline"),
            Held::Plain(_) | Held::Tagged(_) | Held::Relation(_) => false,
        }
    }

    /// A copy of its area's tags.
    #[tactic(auto, unfolding(crate::specs::Candidates::area_tags))]
    pub(crate) fn area_tags(&self, alloc: Global) -> Result<Tags, OutOfMemory>
        ensures { (id : ℤ) → IfOk result (λ tags. tags ≡ area_tags (object_from id self.now)) }
    {
        match self {
            Held::Plain(_) | Held::Tagged(_) => Ok(Tags::new(alloc)),
            Held::Way(way) => way.tags.copy(alloc),
            Held::Relation(relation) => copy_without(alloc, &relation.tags, "type"),
        }
    }

    /// The location, if it is a node that has one.
    pub(crate) fn place(&self) -> Option<Loc>
        ensures { (id : ℤ) → result ≡ place_in (object_from id self.now) }
    {
        match self {
            Held::Plain(place) => *place,
            Held::Tagged(node) => node.place,
            Held::Way(_) | Held::Relation(_) => None,
        }
    }

    /// Whether it is a node.
    pub(crate) fn is_node(&self) -> bool
        ensures { (id : ℤ) → result ≡ is_node (object_from id self.now) }
    {
        match self {
            Held::Plain(_) | Held::Tagged(_) => true,
            Held::Way(_) | Held::Relation(_) => false,
        }
    }

    /// The node, if it is one. If it has no tags, `no_tags` are lent.
    pub(crate) fn node<'a>(&'a self, no_tags: &'a Tags) -> Option<NodeView<'a>>
        requires { no_tags.now ≡ [] }
        ensures { (id : ℤ) → option_map node_seen result ≡ node_in (object_from id self.now) }
    {
        match self {
            Held::Plain(place) => Some(NodeView {
                tags: no_tags,
                place: *place,
            }),
            Held::Tagged(node) => Some(NodeView {
                tags: &node.tags,
                place: node.place,
            }),
            Held::Way(_) | Held::Relation(_) => None,
        }
    }

    /// The way, if it is one.
    pub(crate) fn way(&self) -> Option<WayView<'_>>
        ensures { (id : ℤ) → option_map way_seen result ≡ way_in (object_from id self.now) }
    {
        match self {
            Held::Way(way) => Some(WayView {
                tags: &way.tags,
                refs: &way.refs,
            }),
            Held::Plain(_) | Held::Tagged(_) | Held::Relation(_) => None,
        }
    }

    /// The relation, if it is one.
    pub(crate) fn relation(&self) -> Option<RelationView<'_>>
        ensures { (id : ℤ)
            → option_map relation_seen result ≡ relation_in (object_from id self.now) }
    {
        match self {
            Held::Relation(relation) => Some(RelationView {
                tags: &relation.tags,
                members: &relation.members,
            }),
            Held::Plain(_) | Held::Tagged(_) | Held::Way(_) => None,
        }
    }
}

/// The node of a reference, if there is one.
fn node_named(reference: Option<Ref>) -> Option<i64>
    ensures { result ≡ node_named reference }
{
    reference.map(|reference| reference.node)
}

/// Whether there are at least four references. It passes only these four.
fn has_four(refs: &Refs) -> bool
    ensures { result ≡ nat_le 4 (length refs.now) }
{
    refs.get(3).is_some()
}

/// Whether there is a reference, and the last is to the node of the first. Their own locations don't matter.
fn is_closed(refs: &Refs) -> bool
    ensures { result ≡ is_closed refs.now }
{
    !refs.is_empty() && node_named(refs.first()) == node_named(refs.last())
}
