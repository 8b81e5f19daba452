//! What the store finds under a kind and id.

ghost use Rattle.std.specs.Prelude.{◌≡◌, [], ℤ, Some, IsSome, IfOk, option_map, is_some};
ghost use Rattle.std.specs.Option.{option_and_then};
ghost use Rattle.osm_objects.specs.Objects.{place_in, node_in, way_in, relation_in};
ghost use Rattle.osm_objects.specs.Candidates.{area_tags};
ghost use Rattle.osm_objects.specs.Found.{object_found};
ghost use Rattle.osm_objects.specs.Views.{node_seen, way_seen, relation_seen};

use crate::held::Held;
use crate::plain::PlainNode;
use crate::view::{NodeView, RelationView, WayView};
use osm_elements::Tags;
use osm_lattice::Loc;
use std::alloc::{AllocError as OutOfMemory, Global};

/// Where an object is held.
#[derive(Clone, Copy)]
pub(crate) enum Found<'a> {
    Nowhere,
    /// Among the nodes with a location and without tags.
    Plain(PlainNode),
    /// Among all others.
    Other(&'a Held),
}

impl<'a> Found<'a> {
    /// Whether anything was found.
    pub(crate) fn is_held(&self) -> bool
        ensures { (id : ℤ) → result ≡ is_some (object_found id self.now) }
    {
        !matches!(self, Found::Nowhere)
    }

    /// The location of what was found.
    pub(crate) fn place(&self) -> Option<Loc>
        ensures { (id : ℤ) → result ≡ option_and_then place_in (object_found id self.now) }
    {
        match self {
            Found::Nowhere => None,
            Found::Plain(node) => Some(node.place),
            Found::Other(held) => held.place(),
        }
    }

    /// The node that was found. If it has no tags, `no_tags` are lent.
    pub(crate) fn node(&self, no_tags: &'a Tags) -> Option<NodeView<'a>>
        requires { no_tags.now ≡ [] }
        ensures { (id : ℤ)
            → option_map node_seen result ≡ option_and_then node_in (object_found id self.now) }
    {
        match self {
            Found::Nowhere => None,
            Found::Plain(node) => Some(NodeView {
                tags: no_tags,
                place: Some(node.place),
            }),
            Found::Other(held) => held.node(no_tags),
        }
    }

    /// The way that was found.
    pub(crate) fn way(&self) -> Option<WayView<'a>>
        ensures { (id : ℤ)
            → option_map way_seen result ≡ option_and_then way_in (object_found id self.now) }
    {
        match self {
            Found::Other(held) => held.way(),
            Found::Nowhere | Found::Plain(_) => None,
        }
    }

    /// The relation that was found.
    pub(crate) fn relation(&self) -> Option<RelationView<'a>>
        ensures { (id : ℤ)
            → option_map relation_seen result
            ≡ option_and_then relation_in (object_found id self.now) }
    {
        match self {
            Found::Other(held) => held.relation(),
            Found::Nowhere | Found::Plain(_) => None,
        }
    }

    /// A copy of its area's tags.
    #[tactic(auto, unfolding(crate::specs::Candidates::area_tags))]
    pub(crate) fn area_tags(&self, alloc: Global) -> Result<Tags, OutOfMemory>
        ensures { (id : ℤ)
            → IsSome (object_found id self.now)
            → IfOk result (λ tags. Some tags ≡ option_map area_tags (object_found id self.now)) }
    {
        match self {
            Found::Other(held) => held.area_tags(alloc),
            Found::Nowhere | Found::Plain(_) => Ok(Tags::new(alloc)),
        }
    }
}
