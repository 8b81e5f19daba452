//! Ids of areas.

ghost use Rattle.std.specs.Prelude.{◌≡◌};
ghost use Rattle.osm_objects.specs.AreaIds.{area_id};

use osm_elements::{ObjectKind, ObjectRef};

/// What the feature of an area is named by.
#[derive(Clone, Copy, Debug, PartialEq, Eq)]
pub enum UniqueId {
    /// Its place in the output, from 1.
    Counter,
    /// The id of its area, which gives the kind and the id of the object.
    TypeId,
}

/// The greatest magnitude of an object's id: twice it and one more still fits an `i64`.
const MOST_ID: u64 = (1 << 62) - 1;

/// The id of an object's area: twice the id for a way, and one more than that for a relation.
///
/// Both apply to the magnitude, with the sign kept. None comes exactly for a node and for an id beyond +-(2^62 - 1).
#[tactic(auto, unfolding(crate::specs::AreaIds::area_id))]
pub fn area_id(of: ObjectRef) -> Option<i64>
    ensures { result ≡ area_id of }
{
    if of.id.unsigned_abs() > MOST_ID {
        return None;
    }
    match of.kind {
        ObjectKind::Node => None,
        ObjectKind::Way => Some(2 * of.id),
        ObjectKind::Relation if of.id < 0 => Some(2 * of.id - 1),
        ObjectKind::Relation => Some(2 * of.id + 1),
    }
}
