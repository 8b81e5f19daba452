//! For the tests: rings and polygons by their corners or edges.
ghost use Rattle.std.specs.Prelude.{◌≡◌, ◌≢◌, OnOk};

use osm_geom::{Edge, Loc, Seg, compare_points};
use osm_nest::Polygon;
use osm_rings::{Ring, Rings};
use std::alloc::Global;
use std::cmp::Ordering;
use std::test::Fail;

/// Units of a tenth of a degree.
const TENTH: i64 = 1_000_000;

/// The west, south, east and north sides of a rectangle, in tenths of a degree.
pub(crate) type Sides = [i64; 4];

/// The location of numbers of tenths.
fn location(x: i64, y: i64) -> Result<Loc, Fail> {
    Loc::new(x.saturating_mul(TENTH), y.saturating_mul(TENTH)).ok_or_else(|| Fail::new(
        "out of range",
    ))
}

/// The edge from one location to another.
fn edge(from: Loc, to: Loc) -> Result<Edge, Fail> {
    if from < to {
        return Ok(Edge::of(Seg { a: from, b: to }, true));
    }
    if to < from {
        return Ok(Edge::of(Seg { a: to, b: from }, false));
    }
    Err(Fail::new("no edge"))
}

/// Refuses an edge that doesn't start where another one ends.
#[tactic(auto, using(osm_geom::proofs::GeometryKit::point_same))]
fn meet(edge: Edge, next: Edge) -> Result<(), Fail>
    ensures { OnOk result (edge.to ≡ next.from) }
{
    match compare_points(edge.to, next.from) {
        Ordering::Equal => Ok(()),
        Ordering::Less | Ordering::Greater => Err(Fail::new("edges apart")),
    }
}

/// Refuses two edges that start at one point.
fn apart(edge: Edge, other: Edge) -> Result<(), Fail>
    ensures { OnOk result (edge.from ≢ other.from) }
{
    if edge.from == other.from {
        return Err(Fail::new("a corner twice"));
    }
    Ok(())
}

/// The ring along three edges.
pub(crate) fn triangle(alloc: Global, edges: [Edge; 3]) -> Result<Ring, Fail> {
    let [first, second, last] = edges;
    meet(first, second)?;
    meet(second, last)?;
    meet(last, first)?;
    let edges = Vec::from_array(alloc, [first, second, last])?;
    Ok(Ring::of_edges(edges))
}

/// The ring along four edges.
pub(crate) fn quadrilateral(alloc: Global, edges: [Edge; 4]) -> Result<Ring, Fail> {
    let [first, second, third, last] = edges;
    meet(first, second)?;
    meet(second, third)?;
    meet(third, last)?;
    meet(last, first)?;
    apart(first, third)?;
    apart(second, last)?;
    let edges = Vec::from_array(alloc, [first, second, third, last])?;
    Ok(Ring::of_edges(edges))
}

/// The ring through four corners.
fn ring(alloc: Global, corners: [Loc; 4]) -> Result<Ring, Fail> {
    let [a, b, c, d] = corners;
    quadrilateral(alloc, [edge(a, b)?, edge(b, c)?, edge(c, d)?, edge(d, a)?])
}

/// The ring along a rectangle's sides from its least corner, counterclockwise or clockwise.
pub(crate) fn rectangle(alloc: Global, sides: Sides, clockwise: bool) -> Result<Ring, Fail> {
    let [west, south, east, north] = sides;
    let (first, last) = (location(west, south)?, location(east, north)?);
    let (right, left) = (location(east, south)?, location(west, north)?);
    if clockwise {
        ring(alloc, [first, left, last, right])
    } else {
        ring(alloc, [first, right, last, left])
    }
}

/// A rectangle, with a hole where there is one.
pub(crate) fn polygon_of(
    alloc: Global,
    outer: Sides,
    hole: Option<Sides>,
) -> Result<Polygon, Fail> {
    let outer = rectangle(alloc, outer, false)?;
    let mut inners = Rings::new(alloc);
    if let Some(hole) = hole {
        inners.push(rectangle(alloc, hole, true)?)?;
    }
    Ok(Polygon { outer, inners })
}
