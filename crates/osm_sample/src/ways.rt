//! Ways and relations of the sample, each by itself.

ghost use Rattle.std.specs.Prelude.{◌≡◌, ◌≤◌, ◌+◌, ◌++◌, IfOk, OnOk, map, [], ◌∷◌};
ghost use Rattle.osm_sample.specs.Numbers.{numbers};
ghost use Rattle.osm_sample.specs.Objects.{closed_refs, closed_way, multipolygon, ref_to, tag_of, way_member};

use osm_elements::{Members, Object, ObjectKind, ObjectRef, Ref, Refs, Tags};
use std::alloc::{AllocError as OutOfMemory, Global};

/// A reference to a node.
fn ref_to(id: u32) -> Ref
    ensures { result ≡ ref_to id }
{
    Ref {
        node: i64::from(id),
        at: None,
    }
}

/// References to nodes whose ids follow one another, and to the first of them again.
fn closed_refs(alloc: Global, first: u32, count: u32) -> Result<Refs, OutOfMemory>
    requires { first + count ≤ 1_000_000 }
    ensures { IfOk result (λ refs. refs ≡ closed_refs first count) }
{
    let mut refs = Refs::new(alloc);
    for i in 0..count {
        refs.push(ref_to(first + i))?;
    }
    refs.push(ref_to(first))?;
    Ok(refs)
}

/// A way through nodes whose ids follow one another, back to the first of them.
pub(crate) fn closed_way(
    alloc: Global,
    id: u32,
    tags: Tags,
    first: u32,
    count: u32,
) -> Result<Object, OutOfMemory>
    requires { first + count ≤ 1_000_000 }
    ensures { IfOk result (λ way. way ≡ closed_way id tags first count) }
{
    Ok(Object::Way {
        id: i64::from(id),
        live: true,
        tags,
        refs: closed_refs(alloc, first, count)?,
    })
}

/// One tag.
pub(crate) fn one_tag(alloc: Global, key: &str, value: &str) -> Result<Tags, OutOfMemory>
    ensures { IfOk result (λ tags. tags ≡ tag_of key.now value.now ∷ []) }
{
    let mut tags = Tags::new(alloc);
    tags.push(key, value)?;
    Ok(tags)
}

/// Adds a way as a member with a role, which may be empty.
pub(crate) fn add_way(members: &mut Members, id: u32, role: &str) -> Result<(), OutOfMemory>
    ensures { OnOk result (members.new ≡ members.old ++ way_member id role.now ∷ []) }
{
    let target = ObjectRef {
        kind: ObjectKind::Way,
        id: i64::from(id),
    };
    members.push(target, role)
}

/// A multipolygon with a use of its land.
pub(crate) fn multipolygon(
    alloc: Global,
    id: u32,
    landuse: &str,
    members: Members,
) -> Result<Object, OutOfMemory>
    ensures { IfOk result (λ relation. relation ≡ multipolygon id landuse.now members) }
{
    let mut tags = one_tag(alloc, "type", "multipolygon")?;
    tags.push("landuse", landuse)?;
    Ok(Object::Relation {
        id: i64::from(id),
        live: true,
        tags,
        members,
    })
}
