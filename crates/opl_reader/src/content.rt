//! What the fields of a line say of its object.

ghost use Rattle.std.specs.Prelude.{◌≡◌};
ghost use Rattle.opl_reader.specs.Fields.{nothing, object_of};

use crate::place::location_from;
use osm_elements::{Latitude, Longitude, Members, Object, ObjectKind, Refs, Tags};
use std::alloc::Global;

/// What the fields so far say. A field that isn't there is empty, and an object without a flag is live.
#[derive(Debug, Drop)]
pub struct Content {
    pub live: bool,
    pub x: Option<Longitude>,
    pub y: Option<Latitude>,
    pub tags: Tags,
    pub refs: Refs,
    pub members: Members,
}

impl Content {
    /// What is known before the first field.
    pub fn new(alloc: Global) -> Content
        ensures { result ≡ nothing }
    {
        Content {
            live: true,
            x: None,
            y: None,
            tags: Tags::new(alloc),
            refs: Refs::new(alloc),
            members: Members::new(alloc),
        }
    }
}

/// The object with this content.
#[inline(always)]
pub fn object_of(kind: ObjectKind, id: i64, content: Content) -> Object
    ensures { result ≡ object_of kind id content }
{
    let live = content.live;
    let tags = content.tags;
    match kind {
        ObjectKind::Node => Object::Node {
            id,
            live,
            tags,
            place: location_from(content.x, content.y),
        },
        ObjectKind::Way => Object::Way {
            id,
            live,
            tags,
            refs: content.refs,
        },
        ObjectKind::Relation => Object::Relation {
            id,
            live,
            tags,
            members: content.members,
        },
    }
}
