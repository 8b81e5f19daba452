//! Locations, segments and fractions on numbers worked out by hand.

use crate::reading::{at, loc, seg};
use osm_lattice::{
    Frac, Kind, Loc, Seg, compare_to_line, conflict, meeting, orient, overlap, round,
};
use std::cmp::Ordering;
use std::test::Fail;

/// The longitude of the antimeridian and the latitude of a pole, in units of 1e-7 degree.
const WEST: i64 = -1_800_000_000;

const EAST: i64 = 1_800_000_000;

const SOUTH: i64 = -900_000_000;

const NORTH: i64 = 900_000_000;

const CROSSING: Option<Kind> = Some(Kind::Crossing);

const OVERLAP: Option<Kind> = Some(Kind::Overlap);

/// The diagonals of the world.
const RISING: &str = "-1800000000,-900000000 1800000000,900000000";

const FALLING: &str = "1800000000,-900000000 -1800000000,900000000";

/// Coordinates, and whether a location has them.
const RANGES: [(i64, i64, bool); 6] = [
    (WEST, SOUTH, true),
    (EAST, NORTH, true),
    (WEST - 1, 0, false),
    (EAST + 1, 0, false),
    (0, SOUTH - 1, false),
    (0, NORTH + 1, false),
];

#[test]
fn ranges_of_locations(rt: HostRuntime) {
    for &(x, y, valid) in &RANGES {
        assert_eq!(rt; Loc::new(x, y).is_some(), valid, "at {x} {y}");
    }
}

/// A segment by its ends, and the lesser of them.
const LESSER_ENDS: [(&str, &str); 5] = [
    ("9,0 0,1", "9,0"),
    ("0,1 9,0", "9,0"),
    ("9,0 5,1", "9,0"),
    ("5,1 9,0", "9,0"),
    ("5,1 0,1", "0,1"),
];

#[test]
fn segments_from_their_lesser_end(rt: HostRuntime) -> Result<(), Fail> {
    for &(ends, lesser) in &LESSER_ENDS {
        assert_eq!(rt; seg(ends)?.a, loc(lesser)?, "{ends}");
    }
    assert!(rt; Seg::new(loc("0,1")?, loc("0,1")?).is_none());
    assert!(rt; seg("0,0 1,0")? < seg("0,0 0,1")?);
    Ok(())
}

#[test]
fn orientations(rt: HostRuntime) -> Result<(), Fail> {
    let half_world: i128 = 6_480_000_000_000_000_000;
    let rows = [
        ([0, 0, 4, 0, 2, 3], 12),
        ([0, 0, 4, 0, 2, -3], -12),
        ([0, 0, 4, 2, 2, 1], 0),
        ([WEST, SOUTH, EAST, SOUTH, EAST, NORTH], half_world),
        ([WEST, NORTH, EAST, NORTH, EAST, SOUTH], -half_world),
    ];
    for ([ax, ay, bx, by, cx, cy], want) in rows {
        let found = orient(at(ax, ay)?, at(bx, by)?, at(cx, cy)?);
        assert_eq!(rt; found, want, "of {ax},{ay} {bx},{by} {cx},{cy}");
    }
    Ok(())
}

/// A segment, a location, and on which side of its line this stands.
const SIDES: [(&str, &str, Ordering); 6] = [
    ("0,0 4,2", "2,2", Ordering::Less),
    ("0,0 4,2", "8,4", Ordering::Equal),
    ("0,0 4,2", "2,0", Ordering::Greater),
    (RISING, "-1800000000,900000000", Ordering::Less),
    (FALLING, "0,0", Ordering::Equal),
    (RISING, "1800000000,-900000000", Ordering::Greater),
];

#[test]
fn sides_of_lines(rt: HostRuntime) -> Result<(), Fail> {
    for &(ends, p, side) in &SIDES {
        assert_eq!(rt; compare_to_line(loc(p)?, seg(ends)?), side, "{p} of {ends}");
    }
    Ok(())
}

/// Whether two segments conflict so, either way round.
fn is_conflict(first: &str, second: &str, kind: Option<Kind>) -> Result<bool, Fail> {
    let (s, t) = (seg(first)?, seg(second)?);
    Ok(conflict(s, t) == kind && conflict(t, s) == kind)
}

/// What two segments show, the segments, and how they conflict.
const KINDS: [(&str, &str, &str, Option<Kind>); 12] = [
    ("equal", "0,0 1,1", "1,1 0,0", None),
    ("touching ends", "0,0 1,1", "1,1 2,0", None),
    ("apart", "0,0 1,1", "3,0 0,3", None),
    ("parallel", "0,0 4,4", "0,1 4,5", None),
    ("in line, apart", "0,0 1,0", "2,0 3,0", None),
    ("in line, touching", "0,0 1,0", "1,0 3,0", None),
    ("an end inside", "0,0 4,0", "2,0 2,2", CROSSING),
    ("crossing", "0,0 2,2", "0,2 2,0", CROSSING),
    ("diagonals of the world", RISING, FALLING, CROSSING),
    ("in line, inside", "0,0 4,0", "1,0 3,0", OVERLAP),
    ("in line from one end", "0,0 0,4", "0,0 0,2", OVERLAP),
    ("in line, shifted", "0,0 4,4", "2,2 6,6", OVERLAP),
];

#[test]
fn kinds_of_conflict(rt: HostRuntime) -> Result<(), Fail> {
    for &(name, first, second, kind) in &KINDS {
        assert!(rt; is_conflict(first, second, kind)?, "{name}");
    }
    Ok(())
}

/// The x and the y in which two segments cross, each as a numerator and a denominator.
fn meeting_of(first: &str, second: &str) -> Result<[(i128, u64); 2], Fail> {
    let (s, t) = (seg(first)?, seg(second)?);
    match conflict(s, t) {
        Some(Kind::Crossing) => {
            let (x, y) = meeting(s, t);
            Ok([(x.num, x.den), (y.num, y.den)])
        }
        _ => Err(Fail::new("no crossing")),
    }
}

#[test]
fn meeting_points(rt: HostRuntime) -> Result<(), Fail> {
    let third = (10_000_000, 3);
    let rows = [
        (
            "bow tie",
            "0,0 10000000,10000000",
            "10000000,0 0,5000000",
            [third, third],
        ),
        (
            "in general",
            "-3,-1 2,1",
            "-1,1 0,-2",
            [(-11, 17), (-1, 17)],
        ),
        ("whole world", RISING, FALLING, [(0, 1), (0, 1)]),
    ];
    for (name, first, second, point) in rows {
        assert_eq!(rt; meeting_of(first, second)?, point, "{name}");
    }
    Ok(())
}

#[test]
fn meeting_points_with_whole_coordinates(rt: HostRuntime) -> Result<(), Fail> {
    let rows = [
        ("crossing", "0,0 2,2", "0,2 2,0", [(1, 1), (1, 1)]),
        ("an end inside", "0,0 4,0", "1,0 2,2", [(1, 1), (0, 1)]),
    ];
    for (name, first, second, point) in rows {
        assert_eq!(rt; meeting_of(first, second)?, point, "{name}");
    }
    Ok(())
}

/// What two overlapping segments share.
fn shared(first: &str, second: &str) -> Result<Seg, Fail> {
    let (s, t) = (seg(first)?, seg(second)?);
    match conflict(s, t) {
        Some(Kind::Overlap) => Ok(overlap(s, t)),
        _ => Err(Fail::new("no overlap")),
    }
}

/// Two segments that overlap, and what they share.
const SHARED: [(&str, &str, &str); 3] = [
    ("0,0 4,0", "1,0 3,0", "1,0 3,0"),
    ("0,0 4,4", "6,6 2,2", "2,2 4,4"),
    ("0,0 0,2", "0,4 0,0", "0,0 0,2"),
];

#[test]
fn shared_segments(rt: HostRuntime) -> Result<(), Fail> {
    for &(first, second, wanted) in &SHARED {
        assert_eq!(rt;
            shared(first, second)?,
            seg(wanted)?,
            "of {first} and {second}"
        );
    }
    Ok(())
}

/// A fraction rounded, if it has a denominator and its numerator is a coordinate's.
fn rounded(num: i128, den: u64) -> Option<i64> {
    if den == 0 || num.unsigned_abs() > 3_600_000_000 {
        return None;
    }
    Some(round(Frac::new(num, den)))
}

/// A fraction, and the whole number that it is rounded to.
const ROUNDED: [(i128, u64, i64); 10] = [
    (1, 2, 1),
    (-1, 2, 0),
    (-3, 2, -1),
    (1, 3, 0),
    (2, 3, 1),
    (-2, 3, -1),
    (5, 2, 3),
    (9, 4, 2),
    (10_000_000, 3, 3_333_333),
    (-3_600_000_000, 1, -3_600_000_000),
];

#[test]
fn rounding(rt: HostRuntime) {
    for &(num, den, want) in &ROUNDED {
        assert_eq!(rt; rounded(num, den), Some(want), "{num}/{den}");
    }
}
