//! For the tests: locations, segments and points out of words.

use osm_geom::{Loc, Part, Point, Seg};
use std::alloc::Global;
use std::test::Fail;

/// The location x, y.
pub(crate) fn at(x: i64, y: i64) -> Result<Loc, Fail> {
    Loc::new(x, y).ok_or_else(|| Fail::new("out of range"))
}

/// The location of a word such as `3,-4`.
pub(crate) fn loc(word: &str) -> Result<Loc, Fail> {
    let (x, y) = word.split_once(',').unwrap_or((word, ""));
    at(x.parse().unwrap_or(i64::MAX), y.parse().unwrap_or(i64::MAX))
}

/// The segment between two locations.
pub(crate) fn segment(p: Loc, q: Loc) -> Result<Seg, Fail> {
    Seg::new(p, q).ok_or_else(|| Fail::new("no segment"))
}

/// The segment of two words with a blank between.
pub(crate) fn seg(words: &str) -> Result<Seg, Fail> {
    let (p, q) = words.split_once(' ').unwrap_or((words, ""));
    segment(loc(p)?, loc(q)?)
}

/// Adds the steps between the neighbouring locations of a line.
fn add_steps(steps: &mut Vec<(Loc, Loc)>, line: &str) -> Result<(), Fail> {
    let mut last = None;
    for word in line.split_whitespace() {
        let next = loc(word)?;
        if let Some(from) = last {
            steps.push((from, next))?;
        }
        last = Some(next);
    }
    Ok(())
}

/// The steps between the neighbouring locations of lines such as `0,0 1,1 1,0`, parted by `/`.
fn steps(alloc: Global, lines: &str) -> Result<Vec<(Loc, Loc)>, Fail> {
    let mut steps = Vec::new(alloc);
    for line in lines.split('/') {
        add_steps(&mut steps, line)?;
    }
    Ok(steps)
}

/// The segments along lines, parted by `/`.
pub(crate) fn segs(alloc: Global, lines: &str) -> Result<Vec<Seg>, Fail> {
    let mut segs = Vec::new(alloc);
    for (from, to) in &steps(alloc, lines)? {
        segs.push(segment(*from, *to)?)?;
    }
    Ok(segs)
}

/// The point (7, 1/2).
fn half() -> Point {
    Point::OnVertical {
        c: 7,
        y: Part {
            floor: 0,
            above: 1,
            den: 2,
        },
    }
}

/// The point with x = 7 whose y a word names, `half` for 1/2.
pub(crate) fn height(word: &str) -> Result<Point, Fail> {
    if word == "half" {
        return Ok(half());
    }
    Ok(Point::Lattice(at(7, word.parse().unwrap_or(i64::MAX))?))
}
