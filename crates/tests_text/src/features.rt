//! Features against the values of the formats.

use crate::shapes::{Sides, polygon_of};
use osm_elements::Tags;
use osm_nest::Polygons;
use osm_text::{FeatureId, feature_json, feature_text};
use std::alloc::Global;
use std::test::Fail;

/// A square, and a hole in it.
const HOLED: (Sides, Option<Sides>) = ([0, 0, 40, 40], Some([10, 10, 20, 20]));

/// A square.
const SQUARE: (Sides, Option<Sides>) = ([0, 0, 10, 10], None);

/// Rectangles, each with a hole where there is one.
fn polygons_of(alloc: Global, list: &[(Sides, Option<Sides>)]) -> Result<Polygons, Fail> {
    let mut polygons = Polygons::new(alloc);
    for &(outer, hole) in list {
        polygons.push(polygon_of(alloc, outer, hole)?)?;
    }
    Ok(polygons)
}

/// Tags parted by bars, each a key, `=` and a value.
fn tags_of(alloc: Global, tags: &str) -> Result<Tags, Fail> {
    let mut list = Tags::new(alloc);
    for tag in tags.split('|') {
        if let Some((key, value)) = tag.split_once('=') {
            list.push(key, value)?;
        }
    }
    Ok(list)
}

/// Whether a feature is this line in text.
fn prints_text(
    alloc: Global,
    shapes: &[(Sides, Option<Sides>)],
    tags: &str,
    id: Option<FeatureId>,
    line: &str,
) -> Result<bool, Fail> {
    let polygons = polygons_of(alloc, shapes)?;
    let tags = tags_of(alloc, tags)?;
    let text = feature_text(alloc, &polygons, &tags, id)?;
    Ok(text.as_slice() == line.as_bytes())
}

/// Whether a feature is this object in GeoJSON.
fn prints_json(
    alloc: Global,
    shapes: &[(Sides, Option<Sides>)],
    tags: &str,
    id: Option<FeatureId>,
    object: &str,
) -> Result<bool, Fail> {
    let polygons = polygons_of(alloc, shapes)?;
    let tags = tags_of(alloc, tags)?;
    let json = feature_json(alloc, &polygons, &tags, id)?;
    Ok(json.as_slice() == object.as_bytes())
}

#[test]
fn square_with_a_hole(rt: HostRuntime) -> Result<(), Fail> {
    let (tags, id) = ("landuse=forest", Some(FeatureId::Area(11)));
    let line = "a11 MULTIPOLYGON(((0 0,4 0,4 4,0 4,0 0),(1 1,1 2,2 2,2 1,1 1))) landuse=forest\n";
    assert!(rt; prints_text(rt.alloc(), &[HOLED], tags, id, line)?);
    let object =
        "{\"type\":\"Feature\",\"id\":\"a11\",\"geometry\":{\"type\":\"MultiPolygon\",\"coordinates\":[[[[0,0],[4,0],[4,4],[0,4],[0,0]],[[1,1],[1,2],[2,2],[2,1],[1,1]]]]},\"properties\":{\"landuse\":\"forest\"}}";
    assert!(rt; prints_json(rt.alloc(), &[HOLED], tags, id, object)?);
    Ok(())
}

#[test]
fn two_polygons_with_holes(rt: HostRuntime) -> Result<(), Fail> {
    let east = ([50, -5, 55, 5], Some([51, 0, 52, 1]));
    let id = Some(FeatureId::Area(-6));
    let line =
        "a-6 MULTIPOLYGON(((5 -0.5,5.5 -0.5,5.5 0.5,5 0.5,5 -0.5),(5.1 0,5.1 0.1,5.2 0.1,5.2 0,5.1 0)),((0 0,4 0,4 4,0 4,0 0),(1 1,1 2,2 2,2 1,1 1)))\n";
    assert!(rt; prints_text(rt.alloc(), &[east, HOLED], "", id, line)?);
    let object =
        "{\"type\":\"Feature\",\"id\":\"a-6\",\"geometry\":{\"type\":\"MultiPolygon\",\"coordinates\":[[[[5,-0.5],[5.5,-0.5],[5.5,0.5],[5,0.5],[5,-0.5]],[[5.1,0],[5.1,0.1],[5.2,0.1],[5.2,0],[5.1,0]]],[[[0,0],[4,0],[4,4],[0,4],[0,0]],[[1,1],[1,2],[2,2],[2,1],[1,1]]]]},\"properties\":{}}";
    assert!(rt; prints_json(rt.alloc(), &[east, HOLED], "", id, object)?);
    Ok(())
}

#[test]
fn village(rt: HostRuntime) -> Result<(), Fail> {
    let shape = ([100, 500, 101, 501], None);
    let tags = "boundary=administrative|admin_level=8";
    let object =
        "{\"type\":\"Feature\",\"id\":1,\"geometry\":{\"type\":\"MultiPolygon\",\"coordinates\":[[[[10,50],[10.1,50],[10.1,50.1],[10,50.1],[10,50]]]]},\"properties\":{\"admin_level\":\"8\",\"boundary\":\"administrative\"}}";
    let first = Some(FeatureId::Counter(1));
    assert!(rt; prints_json(rt.alloc(), &[shape], tags, first, object)?);
    let line =
        "18446744073709551615 MULTIPOLYGON(((10 50,10.1 50,10.1 50.1,10 50.1,10 50))) boundary=administrative,admin_level=8\n";
    let last = Some(FeatureId::Counter(u64::MAX));
    assert!(rt; prints_text(rt.alloc(), &[shape], tags, last, line)?);
    Ok(())
}

/// Whether these tags are printed so behind a square, in text.
fn tags_print(alloc: Global, tags: &str, printed: &str) -> Result<bool, Fail> {
    let line = format!(in alloc; "MULTIPOLYGON(((0 0,1 0,1 1,0 1,0 0))){printed}\n")?;
    prints_text(alloc, &[SQUARE], tags, None, &line)
}

/// Tags, and how they are printed in text.
const TAGS: [(&str, &str); 6] = [
    ("", ""),
    ("name=Hütte|building=yes", " name=H%fc%tte,building=yes"),
    ("b=1|a=2|b=3", " b=1,a=2,b=3"),
    ("=|k=", " =,k="),
    ("note=%,=@ ü\0\n", " note=%25%%2c%%3d%%40%%20%%fc%%0%%a%"),
    ("q\"=\\\u{7f}\u{1f600}", " q\"=\\%7f%%1f600%"),
];

#[test]
fn escaped_name_and_other_tags(rt: HostRuntime) -> Result<(), Fail> {
    for &(tags, printed) in &TAGS {
        assert!(rt; tags_print(rt.alloc(), tags, printed)?, "{tags}");
    }
    Ok(())
}

/// Whether these tags are these properties of a feature without polygons, in GeoJSON.
fn properties_print(alloc: Global, tags: &str, printed: &str) -> Result<bool, Fail> {
    let before =
        "{\"type\":\"Feature\",\"geometry\":{\"type\":\"MultiPolygon\",\"coordinates\":[]},\"properties\":";
    let object = format!(in alloc; "{before}{printed}}}")?;
    prints_json(alloc, &[], tags, None, &object)
}

/// Tags, and how they are printed in GeoJSON.
const PROPERTIES: [(&str, &str); 6] = [
    ("", "{}"),
    (
        "name=b|a=c|name=d|B=",
        "{\"B\":\"\",\"a\":\"c\",\"name\":\"b\"}",
    ),
    ("ab=1|a=2", "{\"a\":\"2\",\"ab\":\"1\"}"),
    (
        "\"\\=\u{8}\u{c}\n\r\t",
        "{\"\\\"\\\\\":\"\\b\\f\\n\\r\\t\"}",
    ),
    (
        "k=\0\u{1}\u{b}\u{1f}\u{7f} /",
        "{\"k\":\"\\u0000\\u0001\\u000b\\u001f\u{7f} /\"}",
    ),
    (
        "ключ=\u{1f600}|straße=Hütte",
        "{\"straße\":\"Hütte\",\"ключ\":\"\u{1f600}\"}",
    ),
];

#[test]
fn properties_of_tags(rt: HostRuntime) -> Result<(), Fail> {
    for &(tags, printed) in &PROPERTIES {
        assert!(rt; properties_print(rt.alloc(), tags, printed)?, "{tags}");
    }
    Ok(())
}
