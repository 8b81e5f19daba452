//! The ways that a candidate consists of.

ghost use Rattle.std.specs.Prelude.{◌≡◌, IfOk};
ghost use Rattle.osm_objects.specs.Object.{same_kind};
ghost use Rattle.osm_area.specs.MemberWays.{ways_among, named_ways};
ghost use Rattle.osm_elements.specs.declared.object.ObjectKind.TheVariants.{Way};

use osm_elements::{Members, ObjectKind, ObjectRef};
use osm_objects::Store;
use std::alloc::{AllocError as OutOfMemory, Global};

/// Whether a kind is that of ways.
pub fn is_way(kind: ObjectKind) -> bool
    ensures { result ≡ same_kind kind Way }
{
    match kind {
        ObjectKind::Way => true,
        ObjectKind::Node | ObjectKind::Relation => false,
    }
}

/// The ways among members, in order.
fn ways_among(alloc: Global, members: &Members) -> Result<Vec<i64>, OutOfMemory>
    ensures { IfOk result (λ v. v.items ≡ ways_among members.now) }
{
    let mut ways = Vec::with_capacity(alloc, members.len())?;
    let mut rest = members.iter();
    while let Some(member) = rest.next() {
        if is_way(member.kind) {
            ways.push(member.id)?;
        }
    }
    Ok(ways)
}

/// The ways that a candidate names, in order: a way names itself, and a relation its way members of every role.
pub fn named_ways(
    alloc: Global,
    store: &Store,
    candidate: ObjectRef,
) -> Result<Vec<i64>, OutOfMemory>
    ensures { IfOk result (λ v. v.items ≡ named_ways store.now candidate) }
{
    match candidate.kind {
        ObjectKind::Node => Ok(Vec::new(alloc)),
        ObjectKind::Way => Vec::from_slice(alloc, &[candidate.id]),
        ObjectKind::Relation => match store.relation(candidate.id) {
            Some(relation) => ways_among(alloc, relation.members),
            None => Ok(Vec::new(alloc)),
        },
    }
}
