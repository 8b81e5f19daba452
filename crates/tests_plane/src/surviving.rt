//! What survives of small lists of segments, what stands there repeatedly and what ends oddly.

use crate::reading::{loc, segs};
use osm_lattice::Seg;
use osm_segments::{Repeat, distinct, odd_nodes, repeated, survivors};
use std::alloc::Global;
use std::test::Fail;

/// Each segment of lines, standing so often.
fn repeats(alloc: Global, lines: &str, times: u64) -> Result<Vec<Repeat>, Fail> {
    let mut repeats = Vec::new(alloc);
    for seg in &segs(alloc, lines)? {
        repeats.push(Repeat { seg: *seg, times })?;
    }
    Ok(repeats)
}

/// Lines, what survives of them, what stands there repeatedly and how often, and how many odd nodes there are.
#[derive(Clone, Copy)]
struct Row<'a> {
    lines: &'a str,
    survive: &'a str,
    twice: &'a str,
    times: u64,
    odd: usize,
}

/// Whether this survives.
fn survive(alloc: Global, list: &[Seg], row: Row) -> Result<bool, Fail> {
    let kept = segs(alloc, row.survive)?;
    let found = survivors(alloc, list)?;
    Ok(found.as_slice() == kept.as_slice())
}

/// Whether this stands repeatedly.
fn stand_repeatedly(alloc: Global, list: &[Seg], row: Row) -> Result<bool, Fail> {
    let wanted = repeats(alloc, row.twice, row.times)?;
    let found = repeated(alloc, list)?;
    Ok(found.as_slice() == wanted.as_slice())
}

/// Whether so many nodes are odd, also among what survives.
fn are_odd(alloc: Global, list: &[Seg], row: Row) -> Result<bool, Fail> {
    let odd = odd_nodes(alloc, list)?;
    let kept = survivors(alloc, list)?;
    let left = odd_nodes(alloc, &kept)?;
    Ok(odd.len() == row.odd && left.len() == row.odd)
}

/// Whether all of a row is so.
fn is_so(alloc: Global, row: Row) -> Result<bool, Fail> {
    let list = segs(alloc, row.lines)?;
    Ok(
        survive(alloc, &list, row)?
            && stand_repeatedly(alloc, &list, row)?
            && are_odd(alloc, &list, row)?,
    )
}

/// A row of this.
fn told<'a>(lines: &'a str, survive: &'a str, twice: &'a str, times: u64, odd: usize) -> Row<'a> {
    Row {
        lines,
        survive,
        twice,
        times,
        odd,
    }
}

#[test]
fn survivors_repeats_and_odd_nodes(rt: HostRuntime) -> Result<(), Fail> {
    let rows = [
        told("0,0 1,0 / 1,0 0,0", "", "0,0 1,0", 2, 0),
        told("0,0 1,0 0,0 1,0", "0,0 1,0", "0,0 1,0", 3, 2),
        told("0,0 1,0 0,0 1,0 0,0", "", "0,0 1,0", 4, 0),
        told("0,0 1,0 0,0 1,0 0,0 1,0", "0,0 1,0", "0,0 1,0", 5, 2),
        // nothing survives
        told("0,0 1,0 1,1 1,0 0,0", "", "0,0 1,0 / 1,0 1,1", 2, 0),
        // way named twice
        told(
            "0,0 1,0 1,1 0,1 0,0 / 1,0 1,1 / 1,1 1,0",
            "0,0 1,0 / 0,0 0,1 / 1,0 1,1 / 0,1 1,1",
            "1,0 1,1",
            3,
            0,
        ),
        // an open line
        told("0,0 1,0 / 0,0 0,1", "0,0 1,0 / 0,0 0,1", "", 0, 2),
    ];
    for row in rows {
        assert!(rt; is_so(rt.alloc(), row)?, "{}", row.lines);
    }
    Ok(())
}

#[test]
fn distinct_segments_and_odd_nodes(rt: HostRuntime) -> Result<(), Fail> {
    let list = segs(rt.alloc(), "5,5 0,0 5,5 / 3,1 0,0 / 9,9 0,0")?;
    let each = segs(rt.alloc(), "0,0 3,1 / 0,0 5,5 / 0,0 9,9")?;
    assert_eq!(rt; distinct(rt.alloc(), &list)?.as_slice(), each.as_slice());
    let nodes = [loc("3,1")?, loc("9,9")?];
    assert_eq!(rt; odd_nodes(rt.alloc(), &list)?.as_slice(), nodes.as_slice());
    Ok(())
}
