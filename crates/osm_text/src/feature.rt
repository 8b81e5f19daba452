//! Features of the formats text and GeoJSON.

ghost use Rattle.std.specs.Prelude.{◌≡◌, ◌++◌, codes, map, IfOk, OnOk, OnErr};
ghost use Rattle.osm_notation.specs.Kept.{KeepsFront};
ghost use Rattle.osm_text.specs.Paths.{paths_of};
ghost use Rattle.osm_text.specs.Feature.{tags_text, feature_text};
ghost use Rattle.osm_text.specs.GeoJson.{feature_json, id_member, multipolygon_json};

use crate::feature_id::{FeatureId, put_id_before, put_id_member};
use crate::notation::{Notation, put_polygons};
use crate::properties::put_properties;
use osm_elements::Tags;
use osm_nest::Polygons;
use osm_notation::put_tag;
use std::alloc::{AllocError as OutOfMemory, Global};

/// Room for the text of an ordinary feature, so that it seldom grows.
const FIRST_ROOM: usize = 1_024;

/// Adds tags, the first behind a space and each other behind a comma.
fn put_tags(text: &mut Vec<u8>, tags: &Tags) -> Result<(), OutOfMemory>
    ensures text { OnOk result (text.new.items ≡ text.old.items ++ tags_text tags.now) }
    ensures kept { OnErr result (KeepsFront text.old.items text.new.items) }
{
    let mut byte = b' ';
    let mut rest = tags.iter();
    while let Some(tag) = rest.next() {
        text.push(byte)?;
        put_tag(text, &tag)?;
        byte = b',';
    }
    Ok(())
}

/// Adds the feature of the format text: a line with the id, the polygons in well-known text, the tags, and LF.
///
/// A space follows the id, and another precedes the tags. The id and its space are left out if there is no id, and so are
/// the tags with theirs if there are no tags. Each ring runs through the locations that its edges leave, the first again at
/// the end. By law these are all its points if its edges run along whole segments. Coordinates are in degrees.
///
/// Fails only if memory runs out. Then what was there before stays in front, and a part of the feature may follow it.
pub fn put_feature_text(
    text: &mut Vec<u8>,
    polygons: &Polygons,
    tags: &Tags,
    id: Option<FeatureId>,
) -> Result<(), OutOfMemory>
    ensures text { OnOk result (text.new.items
        ≡ text.old.items ++ feature_text id (paths_of polygons.now) tags.now) }
    ensures kept { OnErr result (KeepsFront text.old.items text.new.items) }
{
    put_id_before(text, id)?;
    text.extend_from_slice(b"MULTIPOLYGON")?;
    put_polygons(text, Notation::WellKnown, polygons.as_slice())?;
    put_tags(text, tags)?;
    text.push(b'\n')?;
    Ok(())
}

/// The same by itself.
pub fn feature_text(
    alloc: Global,
    polygons: &Polygons,
    tags: &Tags,
    id: Option<FeatureId>,
) -> Result<Vec<u8>, OutOfMemory>
    ensures { IfOk result (λ text. text.items ≡ feature_text id (paths_of polygons.now) tags.now) }
{
    let mut text = Vec::with_capacity(alloc, FIRST_ROOM)?;
    put_feature_text(&mut text, polygons, tags, id)?;
    Ok(text)
}

/// Adds a feature of GeoJSON up to its coordinates.
fn put_geometry(
    text: &mut Vec<u8>,
    polygons: &Polygons,
    id: Option<FeatureId>,
) -> Result<(), OutOfMemory>
    ensures text { OnOk result (text.new.items ≡ text.old.items
        ++ codes "{\"type\":\"Feature\"," ++ id_member id
        ++ codes "\"geometry\":{\"type\":\"MultiPolygon\",\"coordinates\":"
        ++ multipolygon_json (paths_of polygons.now)) }
    ensures kept { OnErr result (KeepsFront text.old.items text.new.items) }
{
    text.extend_from_slice(b"{\"type\":\"Feature\",")?;
    put_id_member(text, id)?;
    text.extend_from_slice(b"\"geometry\":{\"type\":\"MultiPolygon\",\"coordinates\":")?;
    put_polygons(text, Notation::Json, polygons.as_slice())
}

/// Adds the feature of GeoJSON (RFC 7946), without what parts features and without LF.
///
/// Each ring runs through the locations that its edges leave, the first again at the end (by law all its points where
/// its edges run along whole segments). Coordinates are in degrees. The
/// properties are the tags as strings, their keys rising by their bytes, of equal keys the first alone. The error is
/// want of memory: what was there still stands in front, and a part of the feature may stand behind it.
pub fn put_feature_json(
    alloc: Global,
    text: &mut Vec<u8>,
    polygons: &Polygons,
    tags: &Tags,
    id: Option<FeatureId>,
) -> Result<(), OutOfMemory>
    ensures text { OnOk result (text.new.items
        ≡ text.old.items ++ feature_json id (paths_of polygons.now) tags.now) }
    ensures kept { OnErr result (KeepsFront text.old.items text.new.items) }
{
    put_geometry(text, polygons, id)?;
    text.extend_from_slice(b"},\"properties\":")?;
    put_properties(alloc, text, tags)?;
    text.push(b'}')?;
    Ok(())
}

/// The same by itself.
pub fn feature_json(
    alloc: Global,
    polygons: &Polygons,
    tags: &Tags,
    id: Option<FeatureId>,
) -> Result<Vec<u8>, OutOfMemory>
    ensures { IfOk result (λ text. text.items ≡ feature_json id (paths_of polygons.now) tags.now) }
{
    let mut text = Vec::with_capacity(alloc, FIRST_ROOM)?;
    put_feature_json(alloc, &mut text, polygons, tags, id)?;
    Ok(text)
}
