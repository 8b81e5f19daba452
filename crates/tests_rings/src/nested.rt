//! The polygons of ring lists: which ring lies under which. Each list is nested alone, where each inner ring's encloser is searched, and
//! beside a ring with nine inner ones, where all are found in one sweep.

use crate::drawing::{begins_along, sided};
use osm_nest::{Polygon, polygons};
use std::alloc::Global;
use std::test::Fail;

/// Whether a polygon's rings begin where closed lines begin, parted by `;`, and run along them: the outer ring first.
fn is_along(polygon: &Polygon, lines: &str) -> bool {
    let (outer, inners) = lines.split_once(';').unwrap_or((lines, ""));
    let mut count = 0usize;
    for line in inners.split(';').filter(|line| !line.is_empty()) {
        match polygon.inners.as_slice().get(count) {
            Some(ring) if begins_along(ring.as_slice(), line) => count = count.saturating_add(1),
            Some(_) | None => return false,
        }
    }
    count == polygon.inners.as_slice().len() && begins_along(polygon.outer.as_slice(), outer)
}

/// Whether polygons are these, parted by `|`, in any order.
fn are_polygons(polygons: &[Polygon], wanted: &str) -> bool {
    let mut count = 0usize;
    for lines in wanted.split('|') {
        if !polygons.iter().any(|polygon| is_along(polygon, lines)) {
            return false;
        }
        count = count.saturating_add(1);
    }
    count == polygons.len()
}

/// Whether the edges along closed lines, or what cuts keep of them, are nested so.
fn are_nested(alloc: Global, lines: &str, cuts: &str, wanted: &str) -> Result<bool, Fail> {
    let edges = sided(alloc, lines, cuts)?;
    let polygons = polygons(alloc, edges)?;
    Ok(are_polygons(polygons.as_slice(), wanted))
}

/// A ring with nine inner ones, left of all others.
const NINE: &str =
    "-200,10 -100,10 -100,30 -200,30 -200,10; -190,15 -188,19 -185,16 -190,15; -180,15 -178,19 -175,16 -180,15; -170,15 -168,19 -165,16 -170,15; -160,15 -158,19 -155,16 -160,15; -150,15 -148,19 -145,16 -150,15; -140,15 -138,19 -135,16 -140,15; -130,15 -128,19 -125,16 -130,15; -120,15 -118,19 -115,16 -120,15; -110,15 -108,19 -105,16 -110,15";

/// The same beside the ring with nine inner ones.
fn are_nested_beside(alloc: Global, lines: &str, cuts: &str, wanted: &str) -> Result<bool, Fail> {
    let lines = format!(in alloc; "{lines}; {NINE}")?;
    let wanted = format!(in alloc; "{wanted}|{NINE}")?;
    are_nested(alloc, &lines, cuts, &wanted)
}

/// What a row shows, closed lines, what is kept of them, and their polygons.
const LATTICE: [(&str, &str, &str, &str); 6] = [
    (
        "four nested squares",
        "0,0 90,0 90,90 0,90 0,0; 10,10 10,80 80,80 80,10 10,10; 20,20 70,20 70,70 20,70 20,20; 30,30 30,60 60,60 60,30 30,30",
        "",
        "0,0 90,0 90,90 0,90 0,0; 10,10 10,80 80,80 80,10 10,10|20,20 70,20 70,70 20,70 20,20; 30,30 30,60 60,60 60,30 30,30",
    ),
    (
        "three nested squares",
        "0,0 90,0 90,90 0,90 0,0; 10,10 10,80 80,80 80,10 10,10; 20,20 70,20 70,70 20,70 20,20",
        "",
        "0,0 90,0 90,90 0,90 0,0; 10,10 10,80 80,80 80,10 10,10|20,20 70,20 70,70 20,70 20,20",
    ),
    (
        "holes that touch at their least nodes",
        "0,0 9,0 9,9 0,9 0,0; 4,1 5,6 6,4 4,1; 4,1 2,4 3,6 4,1",
        "",
        "0,0 9,0 9,9 0,9 0,0; 4,1 2,4 3,6 4,1; 4,1 5,6 6,4 4,1",
    ),
    (
        "hole and island with the least node of the outer ring",
        "0,0 5,2 2,5 0,0; 0,0 1,8 8,1 0,0; 0,0 9,0 9,9 0,9 0,0",
        "",
        "0,0 9,0 9,9 0,9 0,0; 0,0 1,8 8,1 0,0|0,0 5,2 2,5 0,0",
    ),
    (
        "many rings in one row",
        "0,0 90,0 90,90 0,90 0,0; 5,10 5,20 9,20 9,10 5,10; 10,10 10,20 19,20 19,10 10,10; 20,10 20,30 29,30 29,10 20,10; 22,12 28,12 24,20 22,12; 30,10 30,20 39,20 39,10 30,10",
        "",
        "0,0 90,0 90,90 0,90 0,0; 5,10 5,20 9,20 9,10 5,10; 10,10 10,20 19,20 19,10 10,10; 20,10 20,30 29,30 29,10 20,10; 30,10 30,20 39,20 39,10 30,10|22,12 28,12 24,20 22,12",
    ),
    (
        "horizontal edges at the height of other ends",
        "0,0 90,0 90,90 0,90 0,0; 5,10 5,20 9,20 9,10 5,10; 10,20 10,30 19,30 19,20 10,20; 20,30 20,40 29,40 29,30 20,30; 30,20 40,20 35,40 30,20; 50,5 50,20 60,20 60,5 50,5",
        "",
        "0,0 90,0 90,90 0,90 0,0; 50,5 50,20 60,20 60,5 50,5; 5,10 5,20 9,20 9,10 5,10; 10,20 10,30 19,30 19,20 10,20; 30,20 35,40 40,20 30,20; 20,30 20,40 29,40 29,30 20,30",
    ),
];

/// The same where rings have fractional points.
const FRACTIONAL: [(&str, &str, &str, &str); 4] = [
    (
        "a hole beside a fractional end",
        "0,0 100,0 100,31 0,20 0,0; 10,5 12,9 20,7 10,5",
        "x<50",
        "0,0 50,0 50,51/2 0,20 0,0; 10,5 12,9 20,7 10,5",
    ),
    (
        "a ring begun at a fractional point, and its hole",
        "0,0 30,0 10,31 0,0; 12,5 12,10 15,5 12,5",
        "y>1",
        "10/31,1 910/31,1 10,31 10/31,1; 12,5 12,10 15,5 12,5",
    ),
    (
        "two rings begun at fractional points",
        "0,6 3,0 6,6 3,3 0,6",
        "y>5",
        "1/2,5 1,5 0,6 1/2,5|5,5 11/2,5 6,6 5,5",
    ),
    (
        "a hole beside an edge on the line of a cut",
        "0,0 41,1 41,30 0,29 0,0; 35,10 35,20 38,15 35,10",
        "x<40",
        "0,0 40,40/41 40,1229/41 0,29 0,0; 35,10 35,20 38,15 35,10",
    ),
];

#[test]
fn rings_between_lattice_points(rt: HostRuntime) -> Result<(), Fail> {
    for (name, lines, cuts, wanted) in LATTICE {
        assert!(rt; are_nested(rt.alloc(), lines, cuts, wanted)?, "{name}");
    }
    Ok(())
}

#[test]
fn rings_between_lattice_points_in_a_sweep(rt: HostRuntime) -> Result<(), Fail> {
    for (name, lines, cuts, wanted) in LATTICE {
        assert!(rt;
            are_nested_beside(rt.alloc(), lines, cuts, wanted)?,
            "{name}"
        );
    }
    Ok(())
}

#[test]
fn rings_between_fractional_points(rt: HostRuntime) -> Result<(), Fail> {
    for (name, lines, cuts, wanted) in FRACTIONAL {
        assert!(rt; are_nested(rt.alloc(), lines, cuts, wanted)?, "{name}");
    }
    Ok(())
}

#[test]
fn rings_between_fractional_points_in_a_sweep(rt: HostRuntime) -> Result<(), Fail> {
    for (name, lines, cuts, wanted) in FRACTIONAL {
        assert!(rt;
            are_nested_beside(rt.alloc(), lines, cuts, wanted)?,
            "{name}"
        );
    }
    Ok(())
}
