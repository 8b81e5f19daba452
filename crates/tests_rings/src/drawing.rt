//! For the tests: sided edges along closed lines, and whether rings run along such lines.
ghost use Rattle.std.specs.Prelude.{IfOk};
ghost use Rattle.osm_geom.specs.InPlane.Sided.{IsSided};

use coast_split::half;
use osm_geom::{Axis, Cut, Edge, Edges, Loc, Point, Seg, Side};
use osm_segments::{outline_of, survivors};
use osm_sides::direct;
use std::alloc::Global;
use std::test::Fail;

/// The location that a word names by its x and y.
fn loc(word: &str) -> Result<Loc, Fail> {
    let (x, y) = word.split_once(',').unwrap_or((word, ""));
    Loc::new(x.parse().unwrap_or(i64::MAX), y.parse().unwrap_or(i64::MAX)).ok_or_else(|| Fail::new(
        "out of range",
    ))
}

/// Adds the steps between neighbouring locations of a line.
fn add_steps(steps: &mut Vec<(Loc, Loc)>, line: &str) -> Result<(), Fail> {
    let mut last = None;
    for word in line.split_whitespace() {
        let at = loc(word)?;
        if let Some(from) = last {
            steps.push((from, at))?;
        }
        last = Some(at);
    }
    Ok(())
}

/// The steps between neighbouring locations of several closed lines, parted by `;`.
pub(crate) fn steps(alloc: Global, lines: &str) -> Result<Vec<(Loc, Loc)>, Fail> {
    let mut steps = Vec::new(alloc);
    for line in lines.split(';') {
        add_steps(&mut steps, line)?;
    }
    Ok(steps)
}

/// The segments of steps.
pub(crate) fn segs(alloc: Global, steps: &[(Loc, Loc)]) -> Result<Vec<Seg>, Fail> {
    let mut segs = Vec::new(alloc);
    for (from, to) in steps {
        segs.push(Seg::new(*from, *to).ok_or_else(|| Fail::new("no segment"))?)?;
    }
    Ok(segs)
}

/// The survivors of segments, directed; none where there is a conflict or an odd node.
pub(crate) fn directed(alloc: Global, segs: &[Seg]) -> Result<Edges, Fail>
    ensures { IfOk result (λ list. IsSided list) }
{
    match outline_of(alloc, survivors(alloc, segs)?)? {
        Ok(outline) => Ok(Edges::from_vec(direct(alloc, outline)?)),
        Err(_) => Err(Fail::new("not closed")),
    }
}

/// The edges along closed lines, with what the lines enclose on their left.
fn along(alloc: Global, lines: &str) -> Result<Edges, Fail>
    ensures { IfOk result (λ list. IsSided list) }
{
    let steps = steps(alloc, lines)?;
    let segs = segs(alloc, &steps)?;
    directed(alloc, &segs)
}

/// The line of a cut such as `x<4`.
fn cut(word: &str) -> Cut {
    let axis = if word.starts_with('x') {
        Axis::X
    } else {
        Axis::Y
    };
    let at = word.get(2..).unwrap_or("");
    Cut {
        axis,
        at: at.parse().unwrap_or(i32::MAX),
    }
}

/// The half that a cut such as `x<4` keeps.
fn kept(alloc: Global, edges: &Edges, word: &str) -> Result<Edges, Fail>
    requires { IsSided edges.now }
    ensures { IfOk result (λ list. IsSided list) }
{
    let side = if word.contains('<') {
        Side::Low
    } else {
        Side::High
    };
    Ok(half(alloc, edges, cut(word), side)?)
}

/// The edges along closed lines, or what one cut or two keep of them.
pub(crate) fn sided(alloc: Global, lines: &str, cuts: &str) -> Result<Edges, Fail>
    ensures { IfOk result (λ list. IsSided list) }
{
    let edges = along(alloc, lines)?;
    if cuts.is_empty() {
        return Ok(edges);
    }
    let (first, second) = cuts.split_once(' ').unwrap_or((cuts, ""));
    let half = kept(alloc, &edges, first)?;
    if second.is_empty() {
        return Ok(half);
    }
    kept(alloc, &half, second)
}

/// Whether a coordinate is the number that a word names, such as `9/4`.
fn is_number(num: i128, den: u64, word: &str) -> bool {
    let (over, under) = word.split_once('/').unwrap_or((word, "1"));
    over.parse() == Ok(num) && under.parse() == Ok(den)
}

/// Whether a point is the one that a word names by its x and y.
fn is_at(p: &Point, word: &str) -> bool {
    let (x, y) = word.split_once(',').unwrap_or((word, ""));
    match p {
        Point::Lattice(at) => is_number(at.x.into(), 1, x) && is_number(at.y.into(), 1, y),
        Point::OnVertical { c, y: part } => {
            is_number(i128::from(*c), 1, x) && is_number(part.frac().num, part.frac().den, y)
        }
        Point::OnHorizontal { x: part, d } => {
            is_number(part.frac().num, part.frac().den, x) && is_number(i128::from(*d), 1, y)
        }
    }
}

/// Whether an edge runs from the one point to the other.
fn has_step(edges: &[Edge], from: &str, to: &str) -> bool {
    edges
        .iter()
        .any(|e| is_at(&e.from, from) && is_at(&e.to, to))
}

/// Whether edges are the steps of a closed line, each once.
pub(crate) fn runs_along(edges: &[Edge], line: &str) -> bool {
    let mut steps = 0usize;
    let next_words = line.split_whitespace().skip(1);
    for (from, to) in line.split_whitespace().zip(next_words) {
        if !has_step(edges, from, to) {
            return false;
        }
        steps = steps.saturating_add(1);
    }
    steps == edges.len()
}

/// Whether edges are the steps of a closed line and begin where it begins.
pub(crate) fn begins_along(edges: &[Edge], line: &str) -> bool {
    let first = line.split_whitespace().next().unwrap_or("");
    match edges.first() {
        Some(edge) => is_at(&edge.from, first) && runs_along(edges, line),
        None => false,
    }
}
