//! Edges and their directions on numbers worked out by hand.

use crate::reading::{height, seg};
use osm_geom::{Edge, Point, clockwise, compare_just_above, spans_height};
use std::cmp::Ordering;
use std::test::Fail;

/// The order of two edges where both span the height.
fn just_above(e: &Edge, f: &Edge, at: &Point) -> Option<Ordering> {
    if spans_height(e, at) && spans_height(f, at) {
        Some(compare_just_above(e, f, at))
    } else {
        None
    }
}

/// The order just above a height of edges along segments, the first upwards, the second downwards.
fn order_above(first: &str, second: &str, at: &str) -> Result<Option<Ordering>, Fail> {
    let (e, f) = (Edge::of(seg(first)?, true), Edge::of(seg(second)?, false));
    Ok(just_above(&e, &f, &height(at)?))
}

/// Two segments, a height, and the order of edges along them just above it.
const JUST_ABOVE: [(&str, &str, &str, Option<Ordering>); 7] = [
    ("0,0 0,4", "2,0 2,4", "0", Some(Ordering::Less)),
    ("2,0 0,2", "0,0 2,2", "half", Some(Ordering::Greater)),
    ("2,0 0,2", "0,0 2,2", "1", Some(Ordering::Less)),
    ("0,0 2,2", "0,0 2,1", "half", Some(Ordering::Less)),
    ("0,0 2,4", "0,0 1,2", "half", Some(Ordering::Equal)),
    ("0,0 0,2", "1,0 1,4", "2", None),
    ("0,0 4,0", "1,0 1,4", "0", None),
];

#[test]
fn order_just_above_heights(rt: HostRuntime) -> Result<(), Fail> {
    for &(first, second, at, order) in &JUST_ABOVE {
        let found = order_above(first, second, at)?;
        assert_eq!(rt; found, order, "{first} and {second} at {at}");
    }
    Ok(())
}

/// The order of two edges clockwise from the direction to the east, each along a segment or against it.
fn turned(first: &str, up: bool, second: &str, second_up: bool) -> Result<Ordering, Fail> {
    let from = Edge::of(seg("0,0 1,0")?, true).dir();
    let d = Edge::of(seg(first)?, up).dir();
    let e = Edge::of(seg(second)?, second_up).dir();
    Ok(clockwise(from, d, e))
}

/// Two segments, each with whether its edge runs along it, and their order clockwise from the east.
const CLOCKWISE: [(&str, bool, &str, bool, Ordering); 4] = [
    ("0,0 1,1", false, "0,0 1,1", true, Ordering::Less),
    ("0,0 0,1", false, "0,0 1,0", false, Ordering::Less),
    ("0,0 1,0", true, "0,0 0,1", true, Ordering::Greater),
    ("0,0 1,2", true, "0,0 2,4", true, Ordering::Equal),
];

#[test]
fn clockwise_from_a_direction(rt: HostRuntime) -> Result<(), Fail> {
    for &(first, up, second, second_up, order) in &CLOCKWISE {
        let found = turned(first, up, second, second_up)?;
        assert_eq!(rt; found, order, "{first} and {second}");
    }
    Ok(())
}
