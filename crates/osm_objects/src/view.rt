//! What the store lends.

use osm_elements::{Members, Refs, Tags};
use osm_lattice::Loc;

/// A node that is held: its tags, and its location if it has one.
#[derive(Clone, Copy)]
pub struct NodeView<'a> {
    pub tags: &'a Tags,
    pub place: Option<Loc>,
}

/// A way that is held: its tags, and its references to the nodes that it passes, in order.
#[derive(Clone, Copy)]
pub struct WayView<'a> {
    pub tags: &'a Tags,
    pub refs: &'a Refs,
}

/// A relation that is held: its tags, `type` among them, and its members in order.
#[derive(Clone, Copy)]
pub struct RelationView<'a> {
    pub tags: &'a Tags,
    pub members: &'a Members,
}
