//! Cut points, the whole numbers next to their coordinates and their places against other lines, worked out by hand.

use crate::reading::seg;
use osm_geom::{Axis, Cut, Part, Point, ceiling_at, compare_to_cut, cut_point, floor_at};
use std::cmp::Ordering;
use std::test::Fail;

/// The cut of a word such as `x=2`.
fn cut(word: &str) -> Cut {
    let axis = if word.starts_with('x') {
        Axis::X
    } else {
        Axis::Y
    };
    let (_, at) = word.split_once('=').unwrap_or((word, ""));
    Cut {
        axis,
        at: at.parse().unwrap_or(i32::MAX),
    }
}

/// The point in which a segment meets a line, where its ends don't stand on one side of it.
fn met(ends: &str, cut: Cut) -> Result<Point, Fail> {
    let s = seg(ends)?;
    if compare_to_cut(&Point::Lattice(s.a), cut) == compare_to_cut(&Point::Lattice(s.b), cut) {
        return Err(Fail::new("no meeting"));
    }
    Ok(cut_point(s, cut))
}

/// The numerator and the denominator of a part.
fn fraction(part: Part) -> [i128; 2] {
    let frac = part.frac();
    [frac.num, i128::from(frac.den)]
}

/// The coordinates of a point, x and then y, each as numerator and denominator.
fn fractions(p: Point) -> [[i128; 2]; 2] {
    match p {
        Point::Lattice(at) => [[i128::from(at.x), 1], [i128::from(at.y), 1]],
        Point::OnVertical { c, y } => [[i128::from(c), 1], fraction(y)],
        Point::OnHorizontal { x, d } => [fraction(x), [i128::from(d), 1]],
    }
}

/// A segment, a line, x and y of their meeting as numerator and denominator, and whether both are whole.
const IN_LOWEST_TERMS: [(&str, &str, [[i128; 2]; 2], bool); 9] = [
    ("0,0 4,2", "x=2", [[2, 1], [1, 1]], true),
    ("0,0 4,2", "x=1", [[1, 1], [1, 2]], false),
    ("0,0 4,2", "x=4", [[4, 1], [2, 1]], true),
    ("-4,-2 0,0", "x=-1", [[-1, 1], [-1, 2]], false),
    ("5,-7 -5,8", "x=3", [[3, 1], [-4, 1]], true),
    ("0,0 2,4", "y=1", [[1, 2], [1, 1]], false),
    ("-3,-5 3,5", "y=-1", [[-3, 5], [-1, 1]], false),
    ("-6,-4 6,4", "y=-2", [[-3, 1], [-2, 1]], true),
    ("7,0 -7,9", "y=6", [[-7, 3], [6, 1]], false),
];

#[test]
fn cut_points_in_lowest_terms(rt: HostRuntime) -> Result<(), Fail> {
    for &(ends, line, wanted, whole) in &IN_LOWEST_TERMS {
        let p = met(ends, cut(line))?;
        let is_whole = matches!(p, Point::Lattice(_));
        assert!(rt;
            fractions(p) == wanted && is_whole == whole,
            "{ends} at {line}"
        );
    }
    Ok(())
}

/// The whole numbers next to the coordinates of a point, below and above x and then y.
fn next_numbers(p: &Point) -> [i64; 4] {
    let (x, y) = (floor_at(p, Axis::X), floor_at(p, Axis::Y));
    [x, ceiling_at(p, Axis::X), y, ceiling_at(p, Axis::Y)]
}

/// A segment, a line, and the whole numbers below and above x and then y of their meeting.
const NEXT_NUMBERS: [(&str, &str, [i64; 4]); 5] = [
    ("0,0 4,2", "x=1", [1, 1, 0, 1]),
    ("-4,-2 0,0", "x=-1", [-1, -1, -1, 0]),
    ("-4,-2 0,0", "x=-2", [-2, -2, -1, -1]),
    ("7,0 -7,9", "y=6", [-3, -2, 6, 6]),
    ("-7,0 7,9", "y=6", [2, 3, 6, 6]),
];

#[test]
fn whole_numbers_next_to_coordinates(rt: HostRuntime) -> Result<(), Fail> {
    for &(ends, line, wanted) in &NEXT_NUMBERS {
        let p = met(ends, cut(line))?;
        assert_eq!(rt; next_numbers(&p), wanted, "{ends} at {line}");
    }
    Ok(())
}

/// A segment, a line, another line, and the order of the meeting against that one.
const AGAINST_LINES: [(&str, &str, &str, Ordering); 9] = [
    ("0,0 4,2", "x=1", "y=0", Ordering::Greater),
    ("0,0 4,2", "x=1", "y=1", Ordering::Less),
    ("0,0 4,2", "x=1", "x=1", Ordering::Equal),
    ("-4,-2 0,0", "x=-1", "y=0", Ordering::Less),
    ("-4,-2 0,0", "x=-1", "y=-1", Ordering::Greater),
    ("7,0 -7,9", "y=6", "x=-2", Ordering::Less),
    ("7,0 -7,9", "y=6", "x=-3", Ordering::Greater),
    ("-6,-4 6,4", "y=-2", "x=-3", Ordering::Equal),
    ("-6,-4 6,4", "y=-2", "x=-2", Ordering::Less),
];

#[test]
fn points_against_lines(rt: HostRuntime) -> Result<(), Fail> {
    for &(ends, line, other, order) in &AGAINST_LINES {
        let p = met(ends, cut(line))?;
        assert_eq!(rt;
            compare_to_cut(&p, cut(other)),
            order,
            "{ends} at {line}, {other}"
        );
    }
    Ok(())
}
