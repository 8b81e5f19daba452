//! Rings of closed ways sorted out, and land and water about them.

use crate::reading::joined_of;
use coast_rings::CoastRings;
use coast_sides::{Land, Sorted, land, sort_out, water};
use osm_geom::{Edge, Loc, Point, Seg};
use std::alloc::{AllocError as OutOfMemory, Global};
use std::test::Fail;

/// The rings of closed coastline ways.
fn rings_of(alloc: Global, lines: &str) -> Result<CoastRings, Fail> {
    let (_, joined) = joined_of(alloc, lines, 0)?;
    Ok(joined.rings)
}

/// Whole degrees.
fn degrees(alloc: Global, p: Loc) -> Result<String, OutOfMemory> {
    format!(in alloc; "{} {}", p.x / 10_000_000, p.y / 10_000_000)
}

/// A point that is a location, in whole degrees; `?` for any other.
fn point_in_degrees(alloc: Global, point: Point) -> Result<String, OutOfMemory> {
    match point {
        Point::Lattice(p) => degrees(alloc, p),
        Point::OnVertical { .. } | Point::OnHorizontal { .. } => String::from_str(alloc, "?"),
    }
}

/// The edges, each as its ends in whole degrees.
fn edges_in_degrees(alloc: Global, edges: &[Edge]) -> Result<String, OutOfMemory> {
    let mut told = String::new(alloc);
    for &edge in edges {
        told.push_str(&point_in_degrees(alloc, edge.from)?)?;
        told.push_str(">")?;
        told.push_str(&point_in_degrees(alloc, edge.to)?)?;
        told.push_str(" ")?;
    }
    Ok(told)
}

/// The ends of a segment in whole degrees.
fn segment_in_degrees(alloc: Global, seg: Seg) -> Result<String, OutOfMemory> {
    let a = degrees(alloc, seg.a)?;
    let b = degrees(alloc, seg.b)?;
    format!(in alloc; "{},{} ", a.as_str(), b.as_str())
}

/// The names of the rings that are kept, those that are left out, and the conflicting segments.
fn sorted_in_words(alloc: Global, sorted: &Sorted) -> Result<String, OutOfMemory> {
    let mut told = String::from_str(alloc, "kept ")?;
    for ring in sorted.kept.as_slice() {
        told.push_str(&format!(in alloc; "{} ", ring.name)?)?;
    }
    told.push_str("left out ")?;
    for ring in sorted.left_out.as_slice() {
        told.push_str(&format!(in alloc; "{} ", ring.name)?)?;
    }
    for &pair in sorted.pairs.as_slice() {
        told.push_str("of ")?;
        told.push_str(&segment_in_degrees(alloc, pair.first)?)?;
        told.push_str("and ")?;
        told.push_str(&segment_in_degrees(alloc, pair.second)?)?;
    }
    Ok(told)
}

/// Land: its edges, its repeats and the rings that run the wrong way.
fn land_in_words(alloc: Global, land: &Land) -> Result<String, OutOfMemory> {
    let mut told = edges_in_degrees(alloc, land.edges.as_slice())?;
    for &repeat in land.repeats.as_slice() {
        told.push_str(&format!(in alloc; "{} times ", repeat.times)?)?;
        told.push_str(&segment_in_degrees(alloc, repeat.seg)?)?;
    }
    for &name in land.wrong_way.as_slice() {
        told.push_str(&format!(in alloc; "wrong way {} ", name)?)?;
    }
    Ok(told)
}

/// Whether the rings of closed ways are sorted out so.
fn are_sorted(alloc: Global, lines: &str, wanted: &str) -> Result<bool, Fail> {
    let rings = rings_of(alloc, lines)?;
    let (sorted, _) = sort_out(alloc, rings.as_slice())?;
    Ok(sorted_in_words(alloc, &sorted)?.as_str() == wanted)
}

/// Whether this is the land of those that are kept.
fn is_land(alloc: Global, lines: &str, wanted: &str) -> Result<bool, Fail> {
    let rings = rings_of(alloc, lines)?;
    let (sorted, segs) = sort_out(alloc, rings.as_slice())?;
    let land = land(alloc, sorted.kept.as_slice(), segs)?;
    Ok(land_in_words(alloc, &land)?.as_str() == wanted)
}

/// Whether this is the water about them.
fn is_water(alloc: Global, lines: &str, wanted: &str) -> Result<bool, Fail> {
    let rings = rings_of(alloc, lines)?;
    let (sorted, segs) = sort_out(alloc, rings.as_slice())?;
    let land = land(alloc, sorted.kept.as_slice(), segs)?;
    let water = water(alloc, &land.edges)?;
    Ok(edges_in_degrees(alloc, water.as_slice())?.as_str() == wanted)
}

const BOW_TIE: &str =
    "n1 x0 y0\nn2 x2 y2\nn3 x2 y0\nn4 x0 y2\nw1 Tnatural=coastline Nn1,n2,n3,n4,n1";

const WITHIN: &str =
    "n1 x0 y0\nn2 x9 y0\nn3 x9 y9\nn4 x2 y1\nn5 x8 y1\nn6 x8 y5\nw1 Tnatural=coastline Nn1,n2,n3,n1\nw2 Tnatural=coastline Nn4,n5,n6,n4";

const HIDDEN: &str =
    "n1 x0 y0\nn2 x2 y0\nn3 x2 y2\nn4 x0 y2\nn5 x4 y0\nn6 x4 y2\nn7 x1.5 y1\nn8 x2.5 y1\nn9 x2.25 y1.5\nw1 Tnatural=coastline Nn1,n2,n3,n4,n1\nw2 Tnatural=coastline Nn2,n5,n6,n3,n2\nw3 Tnatural=coastline Nn7,n8,n9,n7";

/// Lines of OPL, and how their rings are sorted out.
const SORTED: [(&str, &str); 3] = [
    (BOW_TIE, "kept left out 1 of 0 0,2 2 and 2 0,0 2 "),
    (WITHIN, "kept 1 2 left out "),
    (
        HIDDEN,
        "kept left out 1 2 3 of 2 0,2 2 and 1 1,2 1 of 2 0,2 2 and 1 1,2 1 ",
    ),
];

#[test]
fn rings_are_sorted_out(rt: HostRuntime) -> Result<(), Fail> {
    for &(text, told) in &SORTED {
        assert!(rt; are_sorted(rt.alloc(), text, told)?, "of {text}");
    }
    Ok(())
}

const ISLAND: &str = "n1 x0 y0\nn2 x5 y0\nn3 x5 y5\nw1 Tnatural=coastline Nn1,n2,n3,n1";

const TURNED: &str = "n1 x0 y0\nn2 x5 y0\nn3 x5 y5\nw1 Tnatural=coastline Nn1,n3,n2,n1";

const BOTH: &str =
    "n1 x0 y0\nn2 x2 y0\nn3 x2 y2\nn4 x4 y2\nw1 Tnatural=coastline Nn1,n2,n3,n1\nw2 Tnatural=coastline Nn3,n2,n4,n3";

const ALONG: &str =
    "n1 x0 y0\nn2 x2 y0\nn3 x2 y2\nn4 x4 y2\nw1 Tnatural=coastline Nn1,n2,n3,n1\nw2 Tnatural=coastline Nn2,n3,n4,n2";

/// Lines of OPL, and their land.
const LAND: [(&str, &str); 5] = [
    (ISLAND, "0 0>5 0 5 5>0 0 5 0>5 5 "),
    (TURNED, "0 0>5 0 5 5>0 0 5 0>5 5 wrong way 1 "),
    (BOTH, "0 0>2 0 2 2>0 0 2 0>4 2 4 2>2 2 2 times 2 0,2 2 "),
    (
        ALONG,
        "0 0>2 0 2 2>0 0 2 0>4 2 4 2>2 2 2 times 2 0,2 2 wrong way 2 ",
    ),
    (
        WITHIN,
        "0 0>9 0 9 9>0 0 9 0>9 9 8 1>2 1 2 1>8 5 8 5>8 1 wrong way 2 ",
    ),
];

#[test]
fn land_is_on_the_left(rt: HostRuntime) -> Result<(), Fail> {
    for &(text, told) in &LAND {
        assert!(rt; is_land(rt.alloc(), text, told)?, "of {text}");
    }
    Ok(())
}

const NO_LINE: &str = "n1 x0 y0";

const WORLD: &str =
    "n1 x-180 y-90\nn2 x180 y-90\nn3 x180 y90\nn4 x-180 y90\nw1 Tnatural=coastline Nn1,n2,n3,n4,n1";

const SIDES: &str =
    "n1 x0 y-90\nn2 x180 y0\nn3 x0 y90\nn4 x-180 y0\nw1 Tnatural=coastline Nn1,n2,n3,n4,n1";

const CORNER: &str = "n1 x-180 y-90\nn2 x0 y0\nn3 x-90 y0\nw1 Tnatural=coastline Nn1,n2,n3,n1";

const SOUTH: &str =
    "n1 x180 y-70\nn2 x0 y-65\nn3 x-180 y-70\nn4 x-180 y-90\nn5 x180 y-90\nw1 Tnatural=coastline Nn1,n2,n3,n4,n5,n1";

/// Lines of OPL, and the water about their land.
const WATER: [(&str, &str); 6] = [
    (
        NO_LINE,
        "-180 -90>180 -90 -180 90>-180 -90 180 -90>180 90 180 90>-180 90 ",
    ),
    (
        ISLAND,
        "-180 -90>180 -90 -180 90>-180 -90 180 -90>180 90 5 0>0 0 0 0>5 5 5 5>5 0 180 90>-180 90 ",
    ),
    (WORLD, ""),
    (
        SIDES,
        "-180 -90>0 -90 -180 0>-180 -90 0 -90>180 -90 0 -90>-180 0 180 0>0 -90 180 -90>180 0 -180 90>-180 0 -180 0>0 90 0 90>180 0 180 0>180 90 0 90>-180 90 180 90>0 90 ",
    ),
    (
        CORNER,
        "-180 -90>180 -90 -180 -90>-90 0 0 0>-180 -90 -180 90>-180 -90 180 -90>180 90 -90 0>0 0 180 90>-180 90 ",
    ),
    (
        SOUTH,
        "-180 -70>0 -65 -180 90>-180 -70 0 -65>180 -70 180 -70>180 90 180 90>-180 90 ",
    ),
];

#[test]
fn water_is_the_rest_of_the_world(rt: HostRuntime) -> Result<(), Fail> {
    for &(text, told) in &WATER {
        assert!(rt; is_water(rt.alloc(), text, told)?, "of {text}");
    }
    Ok(())
}
