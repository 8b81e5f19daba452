//! Directions of small lists of segments, and of a long one.

use crate::drawing::{directed, segs, steps};
use osm_geom::{Edge, Loc, Point, Seg};
use std::alloc::Global;
use std::test::Fail;

/// Whether the edges along steps are directed as these, each once.
fn keep_directions(alloc: Global, lines: &str) -> Result<bool, Fail> {
    let steps = steps(alloc, lines)?;
    let list = directed(alloc, &segs(alloc, &steps)?)?;
    let edges = list.as_slice();
    Ok(edges.len() == steps.len() && steps.iter().all(|step| is_taken(edges, *step)))
}

/// Whether an edge runs along a step.
fn is_taken(edges: &[Edge], step: (Loc, Loc)) -> bool {
    let (from, to) = (Point::Lattice(step.0), Point::Lattice(step.1));
    edges.iter().any(|e| e.from == from && e.to == to)
}

/// What rings show, and the rings, each in its direction.
const DIRECTED: [(&str, &str); 10] = [
    ("touching triangle", "0,0 4,0 4,4 0,4 0,0; 0,0 1,2 2,1 0,0"),
    (
        "two crescents",
        "0,0 4,0 4,2 2,2 2,4 0,4 0,0; 4,2 6,2 6,6 2,6 2,4 4,4 4,2",
    ),
    (
        "four nested squares",
        "0,0 9,0 9,9 0,9 0,0; 1,1 1,8 8,8 8,1 1,1; 2,2 7,2 7,7 2,7 2,2; 3,3 3,6 6,6 6,3 3,3",
    ),
    (
        "a horizontal step where the left side ends",
        "0,0 4,0 4,4 2,4 2,2 0,2 0,0",
    ),
    (
        "a square at the height of the tips beside it",
        "0,0 2,0 1,2 0,0; 3,2 5,2 5,4 3,4 3,2; 6,0 8,0 7,2 6,0",
    ),
    (
        "a hole that begins between two long sides",
        "0,0 9,1 9,9 0,0; 4,2 5,4 6,3 4,2",
    ),
    (
        "a star of four",
        "0,0 3,-4 4,-3 0,0; 0,0 4,3 3,4 0,0; 0,0 -3,4 -4,3 0,0; 0,0 -4,-3 -3,-4 0,0",
    ),
    (
        "a star of six",
        "0,0 3,-4 4,-3 0,0; 0,0 4,3 3,4 0,0; 0,0 -3,4 -4,3 0,0; 0,0 -4,-3 -3,-4 0,0; 0,0 -1,-5 1,-5 0,0; 0,0 1,5 -1,5 0,0",
    ),
    (
        "two rings side by side at their least node",
        "0,0 3,1 2,3 0,0; 0,0 -2,3 -3,1 0,0",
    ),
    (
        "three rings nested at their least node",
        "0,0 9,0 9,9 0,9 0,0; 0,0 2,8 8,2 0,0; 0,0 6,3 3,6 0,0",
    ),
];

#[test]
fn edges_have_the_printed_directions(rt: HostRuntime) -> Result<(), Fail> {
    for &(name, printed) in &DIRECTED {
        assert!(rt; keep_directions(rt.alloc(), printed)?, "{name}");
    }
    Ok(())
}

/// The location of these coordinates.
fn at(x: i64, y: i64) -> Result<Loc, Fail> {
    Loc::new(x, y).ok_or_else(|| Fail::new("out of range"))
}

/// The sides of unit squares, one above the other with a gap between: each bottom side to the right, left side down,
/// right side up, top side to the left.
fn band_sides(alloc: Global) -> Result<Vec<(Loc, Loc)>, Fail> {
    let mut steps = Vec::with_capacity(alloc, 400_000)?;
    for i in 0..100_000u32 {
        let low = i64::from(2 * i);
        let high = low + 1;
        steps.push((at(0, low)?, at(1, low)?))?;
        steps.push((at(0, high)?, at(0, low)?))?;
        steps.push((at(1, low)?, at(1, high)?))?;
        steps.push((at(1, high)?, at(0, high)?))?;
    }
    Ok(steps)
}

/// Whether each edge runs along the step at its place.
fn are_along(edges: &[Edge], steps: &[(Loc, Loc)]) -> bool {
    edges.len() == steps.len()
        && edges.iter().zip(steps).all(|(edge, (from, to))| {
            edge.from == Point::Lattice(*from) && edge.to == Point::Lattice(*to)
        })
}

#[test]
fn bands(rt: HostRuntime) -> Result<(), Fail> {
    let steps = band_sides(rt.alloc())?;
    let segs = segs(rt.alloc(), &steps)?;
    assert!(rt; are_along(directed(rt.alloc(), &segs)?.as_slice(), &steps));
    Ok(())
}
