//! Candidates and coastline ways among the objects of a store, and the tags and ids of areas.

use crate::reading::{NODE, RELATION, WAY, are_tags, at, store_of};
use osm_elements::{ObjectKind, ObjectRef, Text};
use osm_objects::{Choice, Keys, Store, area_id};
use std::alloc::Global;
use std::test::Fail;

/// The candidates as words, `w` for a way and `r` for a relation, a blank after each.
fn candidates_of(alloc: Global, store: &Store, choice: &Choice) -> Result<String, Fail> {
    let mut words = String::new(alloc);
    for of in &store.candidates(alloc, choice)? {
        let letter = if of.kind == RELATION { "r" } else { "w" };
        let word = format!(in alloc; "{letter}{} ", of.id)?;
        words.push_str(word.as_str())?;
    }
    Ok(words)
}

/// Whether these candidates are found, where no keys are told.
fn are_chosen(alloc: Global, lines: &str, keep_untagged: bool, words: &str) -> Result<bool, Fail> {
    let store = store_of(alloc, lines)?;
    let found = candidates_of(alloc, &store, &Choice::without_lists(keep_untagged))?;
    Ok(found.as_str() == words)
}

const CLOSED: &str = "w1 Ta=b Nn1x0y0,n2x1y0,n3x1y1,n1x0y1
w2 Ta=b Nn1x0y0,n2x1y0,n3x1y1,n4x0y1,n5x0y0
w3 Ta=b Nn1x0y0,n2x1y0,n1x0y0
w4 Ta=b Nn1,n2x1y0,n3,n1x7y7";

#[test]
fn ways_are_closed_by_ids(rt: HostRuntime) -> Result<(), Fail> {
    assert!(rt; are_chosen(rt.alloc(), CLOSED, false, "w1 w4 ")?);
    Ok(())
}

const MIXED: &str = "r9 Ttype=boundary,a=b Mw9@outer
n9 Ta=b,type=multipolygon x0 y0
w9 Ta=b Nn1,n2,n3,n1
r8 Ttype=multipolygon
w8 Tarea=no Nn1,n2,n3,n1
w7 Tarea=yes Nn1,n2,n3,n1 + area=no
r7 Ttype=route,a=b Mw9@outer
r6 Ta=multipolygon Mw9@outer
w6 Ta=b Nn1,n2,n1
w5 Ta=b Nn1,n2,n3,n4
w4 Ta=b
r5 Ta=b,type=multipolygon Mw9@outer
r4 Ttype=route Mw9@outer + type=boundary
w3 Nn1,n2,n3,n4,n1";

#[test]
fn candidates_in_input_order(rt: HostRuntime) -> Result<(), Fail> {
    assert!(rt; are_chosen(rt.alloc(), MIXED, false, "r9 w9 w7 r5 ")?);
    assert!(rt; are_chosen(rt.alloc(), MIXED, true, "r9 w9 r8 w7 r5 w3 ")?);
    Ok(())
}

const KEYED: &str = "w1 Thighway=track Nn1,n2,n3,n4,n1
w2 Tbuilding=yes,highway=track Nn1,n2,n3,n4,n1
w3 Tbuilding=yes Nn1,n2,n3,n4,n1
w4 Thighway=track,area=yes Nn1,n2,n3,n4,n1
w5 Tbuilding=yes,area=no Nn1,n2,n3,n4,n1
w6 Tbuilding=yes,area=yes Nn1,n2,n3,n4
w7 Tarea=yes Nn1,n2,n3,n4,n1 + area=no
w8 Tarea=no Nn1,n2,n3,n4,n1 + area=yes landuse=grass
w9 Tlanduse=grass Nn1,n2,n3,n4,n1
r1 Ttype=boundary,highway=track Mw1@outer
w10 Nn1,n2,n3,n4,n1";

/// The keys of a word such as `building,landuse`; none of an empty word.
fn keys_of(alloc: Global, word: &str) -> Result<Option<Keys>, Fail> {
    if word.is_empty() {
        return Ok(None);
    }
    let mut keys = Keys::new(alloc);
    for key in word.split(',') {
        keys.push(Text::from_str(alloc, key)?)?;
    }
    Ok(Some(keys))
}

/// Whether these candidates are found by area keys and linear keys.
fn are_chosen_by(
    alloc: Global,
    store: &Store,
    keys: (&str, &str),
    keep_untagged: bool,
    words: &str,
) -> Result<bool, Fail> {
    let mut choice = Choice::without_lists(keep_untagged);
    choice.area_keys = keys_of(alloc, keys.0)?;
    choice.linear_keys = keys_of(alloc, keys.1)?;
    Ok(candidates_of(alloc, store, &choice)?.as_str() == words)
}

/// Keys of areas and of lines, whether what has neither is kept, and what is chosen.
const CHOSEN: [(&str, &str, bool, &str); 6] = [
    ("", "", false, "w1 w2 w3 w4 w7 w9 r1 "),
    ("building", "highway", false, "w3 w4 w7 r1 "),
    ("building", "", false, "w2 w3 w4 w7 r1 "),
    ("", "highway", false, "w3 w4 w7 w9 r1 "),
    ("", "highway", true, "w3 w4 w7 w9 r1 w10 "),
    (
        "landuse,building",
        "natural,highway,highway",
        true,
        "w3 w4 w7 w9 r1 ",
    ),
];

#[test]
fn keys_choose_closed_ways(rt: HostRuntime) -> Result<(), Fail> {
    let store = store_of(rt.alloc(), KEYED)?;
    for &(areas, lines, keep_untagged, words) in &CHOSEN {
        assert!(rt;
            are_chosen_by(rt.alloc(), &store, (areas, lines), keep_untagged, words)?,
            "by {areas} and {lines}"
        );
    }
    Ok(())
}

const COASTS: &str = "w9 Tnatural=coastline Nn1,n2
w8 Tnatural=water Nn1,n2
w-7 Tname=x,natural=coastline
w6 Tnatural=water Nn1,n2 + natural=coastline
r5 Tnatural=coastline Mw9@outer
w2 Tnatural=coastline Nn1";

#[test]
fn coast_ways_in_input_order(rt: HostRuntime) -> Result<(), Fail> {
    let store = store_of(rt.alloc(), COASTS)?;
    let ways = store.coast_ways(rt.alloc())?;
    assert_eq!(rt; ways.as_slice(), [9, -7, 2].as_slice());
    Ok(())
}

/// Whether the areas of all candidates have these tags: of ways the first, of relations the second.
fn have_area_tags(
    alloc: Global,
    store: &Store,
    of_way: &str,
    of_relation: &str,
) -> Result<bool, Fail> {
    for of in &store.candidates(alloc, &Choice::without_lists(false))? {
        let words = if of.kind == WAY { of_way } else { of_relation };
        if !are_tags(alloc, &store.area_tags(alloc, *of)?, words)? {
            return Ok(false);
        }
    }
    Ok(true)
}

#[test]
fn tags_of_an_area(rt: HostRuntime) -> Result<(), Fail> {
    let lines = "w1 Ttype=x,name=y Nn1,n2,n3,n1\nr1 Tname=y,type=boundary,level=8 Mw1@outer";
    assert!(rt; are_chosen(rt.alloc(), lines, false, "w1 r1 ")?);
    let store = store_of(rt.alloc(), lines)?;
    assert!(rt; have_area_tags(rt.alloc(), &store, "type=x name=y ", "name=y level=8 ")?);
    Ok(())
}

/// The greatest id whose area has one.
const MOST: i64 = 4_611_686_018_427_387_903;

/// A kind and an id, and the id of its area.
const AREA_IDS: [(ObjectKind, i64, Option<i64>); 11] = [
    (WAY, 7, Some(14)),
    (RELATION, 5, Some(11)),
    (WAY, -7, Some(-14)),
    (RELATION, -7, Some(-15)),
    (WAY, 0, Some(0)),
    (RELATION, 0, Some(1)),
    (WAY, MOST, Some(9_223_372_036_854_775_806)),
    (RELATION, -MOST, Some(-9_223_372_036_854_775_807)),
    (WAY, MOST + 1, None),
    (RELATION, -MOST - 1, None),
    (NODE, 1, None),
];

#[test]
fn ids_of_areas(rt: HostRuntime) {
    for &(kind, id, area) in &AREA_IDS {
        assert_eq!(rt; area_id(at(kind, id)), area, "at {id}");
    }
}
