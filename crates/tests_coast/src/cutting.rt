//! For the tests: edges along closed lines, and whether edges run along them.
ghost use Rattle.std.specs.Prelude.{IfOk};
ghost use Rattle.osm_geom.specs.InPlane.Sided.{IsSided};

use osm_geom::{Edges, Loc, Point, Seg};
use osm_segments::{outline_of, survivors};
use osm_sides::direct;
use std::alloc::Global;
use std::test::Fail;

/// The location that a word names by its x and y.
fn loc(word: &str) -> Result<Loc, Fail> {
    let (x, y) = word.split_once(',').unwrap_or((word, ""));
    Loc::new(x.parse().unwrap_or(i64::MAX), y.parse().unwrap_or(i64::MAX)).ok_or_else(|| Fail::new(
        "out of range",
    ))
}

/// The segments of closed lines, parted by `;`.
fn segments(alloc: Global, lines: &str) -> Result<Vec<Seg>, Fail> {
    let mut segs = Vec::new(alloc);
    for line in lines.split(';') {
        let mut last = None;
        for word in line.split_whitespace() {
            let at = loc(word)?;
            if let Some(from) = last {
                segs.push(Seg::new(from, at).ok_or_else(|| Fail::new("no segment"))?)?;
            }
            last = Some(at);
        }
    }
    Ok(segs)
}

/// The edges along closed lines, with what the lines enclose on their left.
pub(crate) fn directed(alloc: Global, lines: &str) -> Result<Edges, Fail>
    ensures { IfOk result (λ list. IsSided list) }
{
    let segs = segments(alloc, lines)?;
    match outline_of(alloc, survivors(alloc, &segs)?)? {
        Ok(outline) => Ok(Edges::from_vec(direct(alloc, outline)?)),
        Err(_) => Err(Fail::new("not closed")),
    }
}

/// Whether a coordinate is the number that a word names, such as `9/4`.
fn is_number(num: i128, den: u64, word: &str) -> bool {
    let (over, under) = word.split_once('/').unwrap_or((word, "1"));
    over.parse() == Ok(num) && under.parse() == Ok(den)
}

/// Whether a point is the one that a word names by its x and y.
fn is_at(p: &Point, word: &str) -> bool {
    let (x, y) = word.split_once(',').unwrap_or((word, ""));
    match p {
        Point::Lattice(at) => is_number(at.x.into(), 1, x) && is_number(at.y.into(), 1, y),
        Point::OnVertical { c, y: part } => {
            is_number(i128::from(*c), 1, x) && is_number(part.frac().num, part.frac().den, y)
        }
        Point::OnHorizontal { x: part, d } => {
            is_number(part.frac().num, part.frac().den, x) && is_number(i128::from(*d), 1, y)
        }
    }
}

/// Whether an edge runs from the one point to the other.
fn has_step(edges: &Edges, from: &str, to: &str) -> bool {
    edges
        .as_slice()
        .iter()
        .any(|e| is_at(&e.from, from) && is_at(&e.to, to))
}

/// Whether edges are the steps of closed lines, parted by `;`, each once.
pub(crate) fn run_along(edges: &Edges, lines: &str) -> bool {
    let mut steps = 0usize;
    for line in lines.split(';') {
        let next_words = line.split_whitespace().skip(1);
        for (from, to) in line.split_whitespace().zip(next_words) {
            if !has_step(edges, from, to) {
                return false;
            }
            steps = steps.saturating_add(1);
        }
    }
    steps == edges.as_slice().len()
}
