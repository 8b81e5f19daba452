//! What a store takes, and the locations that it knows.

use crate::reading::{NODE, RELATION, WAY, at, degrees, object_of, refusal, store_of};
use osm_elements::{Object, ObjectRef};
use osm_lattice::Loc;
use osm_objects::Store;
use std::alloc::Global;
use std::test::Fail;

/// The lines of those objects that are refused, counted from 0, and their kinds and ids.
fn refused(alloc: Global, store: &mut Store, lines: &str) -> Result<Vec<(usize, ObjectRef)>, Fail> {
    let mut refused = Vec::new(alloc);
    for (line, row) in lines.lines().enumerate() {
        let object = object_of(alloc, row)?;
        if let Some(of) = refusal(store.add(object))? {
            refused.push((line, of))?;
        }
    }
    Ok(refused)
}

const AGAIN: &str = "w1 dD
n1 x0 y0
n1 dD x7 y7
n1 x7 y7
w1
r1
n-1
w1
r1
n-1 x7 y7";

#[test]
fn one_live_object_of_each_kind_and_id(rt: HostRuntime) -> Result<(), Fail> {
    let mut store = Store::new(rt.alloc());
    let refused = refused(rt.alloc(), &mut store, AGAIN)?;
    let again = [
        (3, at(NODE, 1)),
        (7, at(WAY, 1)),
        (8, at(RELATION, 1)),
        (9, at(NODE, -1)),
    ];
    assert_eq!(rt; refused.as_slice(), again.as_slice());
    assert_eq!(rt; store.location(1), degrees(0, 0));
    Ok(())
}

#[test]
fn locations_of_nodes(rt: HostRuntime) -> Result<(), Fail> {
    let store = store_of(
        rt.alloc(),
        "n7 x1 y2\nn8 Tplace=village x3 y4\nn-7\nw9 Nn7,n8",
    )?;
    for (id, place) in [
        (7, degrees(1, 2)),
        (8, degrees(3, 4)),
        (-7, None),
        (9, None),
        (1, None),
    ] {
        assert_eq!(rt; store.location(id), place, "at {id}");
    }
    Ok(())
}

/// Whether the references of a line's way are at these locations.
fn stand_at(
    alloc: Global,
    store: &Store,
    line: &str,
    places: &[Option<Loc>],
) -> Result<bool, Fail> {
    let object = object_of(alloc, line)?;
    let Object::Way { refs, .. } = &object else {
        return Ok(false);
    };
    let found = refs.iter().map(|reference| store.place_of(&reference));
    Ok(found.eq(places.iter().copied()))
}

#[test]
fn places_of_references(rt: HostRuntime) -> Result<(), Fail> {
    let store = store_of(rt.alloc(), "n7 x1 y2\nn8\nn9 Ta=b\nw5 Nn7,n8")?;
    for (word, place) in [
        ("n7", degrees(1, 2)),
        ("n7x3y4", degrees(3, 4)),
        ("n8x3y4", degrees(3, 4)),
        ("n6x3y4", degrees(3, 4)),
        ("n8", None),
        ("n9", None),
        ("n6", None),
        ("n5", None),
        ("n7x0y0", degrees(0, 0)),
    ] {
        let line = format!(in rt.alloc(); "w1 N{word}")?;
        assert!(rt; stand_at(rt.alloc(), &store, &line, &[place])?, "of {word}");
    }
    Ok(())
}

const LOCATED: &str = "n1 x0 y0
n2 x1 y0
n3 x1 y1
n4 x0 y1
w7 Ta=b Nn1,n2,n3x2y2,n4,n1";

/// Whether the references of the way of this id are at these locations.
fn runs_along(store: &Store, id: i64, places: &[Option<Loc>]) -> bool {
    let Some(way) = store.way(id) else {
        return false;
    };
    let found = way.refs.iter().map(|reference| store.place_of(&reference));
    found.eq(places.iter().copied())
}

#[test]
fn its_own_location_wins(rt: HostRuntime) -> Result<(), Fail> {
    let store = store_of(rt.alloc(), LOCATED)?;
    let places = [
        degrees(0, 0),
        degrees(1, 0),
        degrees(2, 2),
        degrees(0, 1),
        degrees(0, 0),
    ];
    assert!(rt; runs_along(&store, 7, &places));
    Ok(())
}
