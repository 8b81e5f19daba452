//! Ids of features.
ghost use Rattle.std.specs.Prelude.{◌≡◌, ◌++◌, OnOk, OnErr};
ghost use Rattle.osm_notation.specs.Kept.{KeepsFront};
ghost use Rattle.osm_text.specs.Feature.{id_before};
ghost use Rattle.osm_text.specs.GeoJson.{id_member};
ghost use Rattle.osm_text.specs.Id.{feature_id, id_text};

use osm_elements::ObjectRef;
use osm_notation::put_number;
use osm_objects::{UniqueId, area_id};
use std::alloc::AllocError as OutOfMemory;

/// What a feature is named by.
#[derive(Clone, Copy, Debug, PartialEq, Eq)]
pub enum FeatureId {
    /// The place of the feature in the output, from 1.
    Counter(u64),
    /// The id of the feature's area, printed after the letter `a`.
    ///
    /// It is twice the magnitude of the id for a way, and twice that and 1 for a relation, with the sign of the id.
    Area(i64),
}

impl FeatureId {
    /// The id of the feature of a candidate's area, at this place in the output, from 1. None where features get none, and where
    /// the area has none.
    pub fn of(ids: Option<UniqueId>, counter: u64, candidate: ObjectRef) -> Option<FeatureId>
        ensures { result ≡ feature_id ids counter candidate }
    {
        match ids {
            Some(UniqueId::Counter) => Some(FeatureId::Counter(counter)),
            Some(UniqueId::TypeId) => area_id(candidate).map(FeatureId::Area),
            None => None,
        }
    }
}

/// Adds an id.
fn put_id(text: &mut Vec<u8>, id: FeatureId) -> Result<(), OutOfMemory>
    ensures text { OnOk result (text.new.items ≡ text.old.items ++ id_text id) }
    ensures kept { OnErr result (KeepsFront text.old.items text.new.items) }
{
    match id {
        FeatureId::Counter(number) => put_number(text, number),
        FeatureId::Area(id) => {
            text.push(b'a')?;
            put_number(text, id)
        }
    }
}

/// Adds the id and a space, where there is an id.
pub(crate) fn put_id_before(text: &mut Vec<u8>, id: Option<FeatureId>) -> Result<(), OutOfMemory>
    ensures text { OnOk result (text.new.items ≡ text.old.items ++ id_before id) }
    ensures kept { OnErr result (KeepsFront text.old.items text.new.items) }
{
    let Some(id) = id else {
        return Ok(());
    };
    put_id(text, id)?;
    text.push(b' ')?;
    Ok(())
}

/// Adds the member of the id and a comma, where there is an id.
pub(crate) fn put_id_member(text: &mut Vec<u8>, id: Option<FeatureId>) -> Result<(), OutOfMemory>
    ensures text { OnOk result (text.new.items ≡ text.old.items ++ id_member id) }
    ensures kept { OnErr result (KeepsFront text.old.items text.new.items) }
{
    let Some(id) = id else {
        return Ok(());
    };
    let (before, after) = match id {
        FeatureId::Counter(_) => ("\"id\":", ","),
        FeatureId::Area(_) => ("\"id\":\"", "\","),
    };
    text.extend_from_slice(before.as_bytes())?;
    put_id(text, id)?;
    text.extend_from_slice(after.as_bytes())?;
    Ok(())
}
