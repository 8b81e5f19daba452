//! Lines of a coastline report against the values of the formats.

ghost use Rattle.osm_text.specs.Coast.{HasItsKind};

use osm_geom::{Loc, Seg, conflict};
use osm_text::{CoastLine, coast_line, is_error};
use std::alloc::Global;
use std::test::Fail;

/// Units of a tenth of a degree.
const TENTH: i64 = 1_000_000;

/// The location of numbers of tenths.
fn location(x: i64, y: i64) -> Option<Loc> {
    Loc::new(x.saturating_mul(TENTH), y.saturating_mul(TENTH))
}

/// The segment from x, y to x, y, in tenths of a degree.
fn segment(numbers: [i64; 4]) -> Option<Seg> {
    let [from_x, from_y, to_x, to_y] = numbers;
    Seg::new(location(from_x, from_y)?, location(to_x, to_y)?)
}

/// Whether a line is printed so, and is an error where its text says so.
fn prints(alloc: Global, line: &CoastLine, printed: &str) -> Result<bool, Fail>
    requires { HasItsKind line.now }
{
    let text = coast_line(alloc, line)?;
    let error = printed.starts_with("error ");
    Ok(text.as_slice() == printed.as_bytes() && is_error(line) == error)
}

/// Whether the conflict of two segments is printed so; false where they don't conflict.
fn prints_conflict(
    alloc: Global,
    first: [i64; 4],
    second: [i64; 4],
    printed: &str,
) -> Result<bool, Fail> {
    let (Some(first), Some(second)) = (segment(first), segment(second)) else {
        return Ok(false);
    };
    let Some(kind) = conflict(first, second) else {
        return Ok(false);
    };
    let line = CoastLine::Conflict {
        kind,
        first,
        second,
    };
    prints(alloc, &line, printed)
}

#[test]
fn lines_of_ways_and_chains(rt: HostRuntime) -> Result<(), Fail> {
    let alloc = rt.alloc();
    let missing = CoastLine::Missing { way: 2, node: -4 };
    assert!(rt; prints(alloc, &missing, "error way 2: missing node -4\n")?);
    let short = CoastLine::Short { way: 3 };
    assert!(rt; prints(alloc, &short, "warning way 3: short\n")?);
    let antarctica = CoastLine::Antarctica { chain: 1 };
    assert!(rt; prints(alloc, &antarctica, "warning antarctica closed on way 1\n")?);
    let end_at = location(100, 0).expect(&rt, "a location");
    let start_at = location(-1800, -5).expect(&rt, "a location");
    let gap = CoastLine::Gap { end_at, start_at };
    assert!(rt; prints(alloc, &gap, "warning gap closed from 10 0 to -180 -0.5\n")?);
    let unclosed = CoastLine::Unclosed {
        chain: -6,
        start_at,
        end_at,
    };
    let printed = "error chain of way -6 is not closed, from -180 -0.5 to 10 0\n";
    assert!(rt; prints(alloc, &unclosed, printed)?);
    Ok(())
}

#[test]
fn lines_of_rings_and_segments(rt: HostRuntime) -> Result<(), Fail> {
    let alloc = rt.alloc();
    let cut = CoastLine::Cut {
        ring: -9,
        from: location(90, 90).expect(&rt, "a location"),
        to: location(0, 95).expect(&rt, "a location"),
    };
    assert!(rt;
        prints(
            alloc,
            &cut,
            "warning ring of way -9 was cut from 9 9 to 0 9.5\n"
        )?
    );
    let left_out = CoastLine::LeftOut { ring: 7 };
    assert!(rt; prints(alloc, &left_out, "error ring of way 7 is left out\n")?);
    let wrong_way = CoastLine::WrongWay { ring: 8 };
    assert!(rt;
        prints(
            alloc,
            &wrong_way,
            "warning ring of way 8 runs the wrong way\n"
        )?
    );
    let seg = segment([10, 10, 10, 0]).expect(&rt, "a segment");
    let repeated = CoastLine::Repeated { seg, times: 3 };
    assert!(rt; prints(alloc, &repeated, "warning segment 1 0,1 1 stands 3 times\n")?);
    Ok(())
}

#[test]
fn lines_of_pieces(rt: HostRuntime) -> Result<(), Fail> {
    let alloc = rt.alloc();
    for (points, printed) in [
        (5, "warning piece of 5 points\n"),
        (u64::MAX, "warning piece of 18446744073709551615 points\n"),
    ] {
        assert!(rt;
            prints(alloc, &CoastLine::Large { points }, printed)?,
            "{printed}"
        );
    }
    for (x, y, printed) in [
        (4, 4, "warning ring at 0.0000004 0.0000004 vanished\n"),
        (
            -1_800_000_000,
            -1,
            "warning ring at -180 -0.0000001 vanished\n",
        ),
    ] {
        let at = Loc::new(x, y).expect(&rt, "a location");
        assert!(rt;
            prints(alloc, &CoastLine::Vanished { at }, printed)?,
            "{printed}"
        );
    }
    Ok(())
}

/// Two segments, and the line of their conflict.
const CONFLICTS: [([i64; 4], [i64; 4], &str); 2] = [
    (
        [0, 0, 10, 10],
        [10, 0, 0, 5],
        "error crossing 0.3333333 0.3333333 of 0 0,1 1 and 1 0,0 0.5\n",
    ),
    (
        [0, 0, 40, 0],
        [10, 0, 30, 0],
        "error overlap 1 0,3 0 of 0 0,4 0 and 1 0,3 0\n",
    ),
];

#[test]
fn lines_of_conflicts(rt: HostRuntime) -> Result<(), Fail> {
    for &(first, second, printed) in &CONFLICTS {
        assert!(rt;
            prints_conflict(rt.alloc(), first, second, printed)?,
            "{printed}"
        );
    }
    Ok(())
}
