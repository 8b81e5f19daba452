//! The objects of OPL lines: nodes, ways and relations with their tags.

use crate::members::Members;
use crate::refs::Refs;
use crate::tags::Tags;
use crate::text::Text;
use osm_lattice::Loc;

/// The kinds of OpenStreetMap objects.
#[derive(Clone, Copy, Debug, PartialEq, Eq, PartialOrd, Ord, Hash)]
pub enum ObjectKind {
    Node,
    Way,
    Relation,
}

/// An object by its kind and id: different kinds have separate ids. The order is that of a sorted input.
#[derive(Clone, Copy, Debug, PartialEq, Eq, PartialOrd, Ord, Hash)]
pub struct ObjectRef {
    pub kind: ObjectKind,
    pub id: i64,
}

/// A tag, such as `building=yes`.
#[derive(Debug, Drop)]
pub struct Tag {
    pub key: Text,
    pub value: Text,
}

/// A reference of a way to a node.
#[derive(Clone, Copy, Debug, PartialEq, Eq)]
pub struct Ref {
    /// The node's id.
    pub node: i64,
    /// The location that the reference itself carries, if it carries one.
    pub at: Option<Loc>,
}

/// A member of a relation, with its role, which may be empty.
#[derive(Debug, Drop)]
pub struct Member {
    pub kind: ObjectKind,
    pub id: i64,
    pub role: Text,
}

/// A node, way or relation. One that isn't live was deleted.
#[derive(Debug, Drop)]
pub enum Object {
    Node {
        id: i64,
        live: bool,
        tags: Tags,
        /// None if x or y isn't given or is empty.
        place: Option<Loc>,
    },
    Way {
        id: i64,
        live: bool,
        tags: Tags,
        refs: Refs,
    },
    Relation {
        id: i64,
        live: bool,
        tags: Tags,
        members: Members,
    },
}
