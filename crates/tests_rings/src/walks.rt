//! The rings that edges are cut into, at nodes that rings touch, of few edges and of more, and at fractional points.
ghost use Rattle.osm_geom.specs.InPlane.Sided.{IsSided};

use crate::drawing::{directed, runs_along, segs, sided};
use osm_geom::{Edges, Loc};
use osm_rings::{Ring, rings};
use std::alloc::Global;
use std::test::Fail;

/// Whether rings run along closed lines, parted by `;`, one along each.
fn are_along(rings: &[Ring], lines: &str) -> bool {
    let mut count = 0usize;
    for line in lines.split(';') {
        if !rings.iter().any(|ring| runs_along(ring.as_slice(), line)) {
            return false;
        }
        count = count.saturating_add(1);
    }
    count == rings.len()
}

/// Whether the sided edges are cut into rings along these lines.
fn are_cut(alloc: Global, edges: Edges, lines: &str) -> Result<bool, Fail>
    requires { IsSided edges }
{
    let rings = rings(alloc, edges)?;
    Ok(are_along(rings.as_slice(), lines))
}

/// Whether the edges along closed lines, or what cuts keep of them, are cut into rings along these lines.
fn come_in_rings(alloc: Global, lines: &str, cuts: &str, wanted: &str) -> Result<bool, Fail> {
    let edges = sided(alloc, lines, cuts)?;
    are_cut(alloc, edges, wanted)
}

/// What lines show, and the lines: outer rings counterclockwise, inner ones clockwise. Each line is a ring.
const TOUCHED: [(&str, &str); 6] = [
    ("square", "0,0 1,0 1,1 0,1 0,0"),
    ("touching triangle", "0,0 4,0 4,4 0,4 0,0; 0,0 1,2 2,1 0,0"),
    (
        "two crescents",
        "0,0 4,0 4,2 2,2 2,4 0,4 0,0; 4,2 6,2 6,6 2,6 2,4 4,4 4,2",
    ),
    (
        "three triangles round a node",
        "0,0 4,1 3,3 0,0; 0,0 -1,4 -3,3 0,0; -2,-4 2,-4 0,0 -2,-4",
    ),
    (
        "touching triangle, and another apart",
        "0,0 4,0 4,4 0,4 0,0; 0,0 1,2 2,1 0,0; 10,1 14,3 10,5 10,1",
    ),
    (
        "two apart, below two that touch and beside them",
        "0,-9 4,-9 0,-5 0,-9; 0,0 4,1 3,3 0,0; 0,0 -1,4 -3,3 0,0; 10,1 14,3 10,5 10,1",
    ),
];

#[test]
fn rings_round_touched_nodes(rt: HostRuntime) -> Result<(), Fail> {
    for &(name, lines) in &TOUCHED {
        assert!(rt; come_in_rings(rt.alloc(), lines, "", lines)?, "{name}");
    }
    Ok(())
}

/// What lines show, and the lines. Edges come in order of their lower ends, which isn't that of a walk. Each line is a ring.
const FEW_EDGES: [(&str, &str); 8] = [
    ("triangle", "0,0 1,2 -1,1 0,0"),
    ("triangle whose last edge comes second", "0,0 1,0 0,1 0,0"),
    (
        "two triangles, one above the other",
        "0,0 1,0 0,1 0,0; 0,5 1,5 0,6 0,5",
    ),
    (
        "two whose edges come by turns",
        "0,0 4,2 0,4 0,0; 10,1 14,3 10,5 10,1",
    ),
    (
        "three whose edges come by turns",
        "0,0 4,3 0,6 0,0; 10,1 14,4 10,7 10,1; 20,2 24,5 20,8 20,2",
    ),
    ("two that touch", "0,0 4,0 4,4 0,4 0,0; 0,0 1,2 2,1 0,0"),
    (
        "one below them",
        "0,0 4,0 4,4 0,4 0,0; 0,0 1,2 2,1 0,0; 9,-2 10,-2 9,-1 9,-2",
    ),
    (
        "one above them",
        "0,0 4,0 4,4 0,4 0,0; 0,0 1,2 2,1 0,0; 9,5 10,5 9,6 9,5",
    ),
];

#[test]
fn rings_of_few_edges(rt: HostRuntime) -> Result<(), Fail> {
    for &(name, lines) in &FEW_EDGES {
        assert!(rt; come_in_rings(rt.alloc(), lines, "", lines)?, "{name}");
    }
    Ok(())
}

/// What lines show, the lines, their cuts, and the rings that are left.
const AT_FRACTIONS: [(&str, &str, &str, &str); 6] = [
    (
        "a side that is cut twice",
        "0,0 25,0 100,0 100,3 0,2 0,0",
        "x<50 x<25",
        "0,0 25,0 25,9/4 0,2 0,0",
    ),
    (
        "cuts on both sides",
        "0,0 25,0 100,0 100,3 0,2 0,0",
        "x<50 x>25",
        "25,0 50,0 50,5/2 25,9/4 25,0",
    ),
    (
        "cuts along both axes",
        "0,0 3,0 1,2 0,0",
        "y<1 x<1",
        "0,0 1,0 1,1 1/2,1 0,0",
    ),
    (
        "two fractional ends below",
        "0,0 3,0 1,3 0,0",
        "y>1",
        "1/3,1 7/3,1 1,3 1/3,1",
    ),
    (
        "two triangles that touch on the line",
        "0,0 8,0 4,4 0,0; 4,4 8,8 0,8 4,4",
        "x<4",
        "0,0 4,0 4,4 0,0; 4,4 4,8 0,8 4,4",
    ),
    (
        "two lobes that are cut off",
        "0,0 3,3 6,0 3,6 0,0",
        "y<1",
        "0,0 1,1 1/2,1 0,0; 5,1 6,0 11/2,1 5,1",
    ),
];

#[test]
fn rings_at_fractional_points(rt: HostRuntime) -> Result<(), Fail> {
    for &(name, lines, cuts, wanted) in &AT_FRACTIONS {
        assert!(rt; come_in_rings(rt.alloc(), lines, cuts, wanted)?, "{name}");
    }
    Ok(())
}

/// The locations of a ring of so many, on a parabola, each with the one that follows it.
fn parabola(alloc: Global, count: u8) -> Result<Vec<(Loc, Loc)>, Fail> {
    let mut steps = Vec::new(alloc);
    let first = at(0)?;
    let mut last = first;
    for x in 1..count {
        let next = at(x)?;
        steps.push((last, next))?;
        last = next;
    }
    steps.push((last, first))?;
    Ok(steps)
}

/// The location on the parabola.
fn at(x: u8) -> Result<Loc, Fail> {
    let x = i64::from(x);
    Loc::new(x, x.saturating_mul(x)).ok_or_else(|| Fail::new("out of range"))
}

/// Whether the edges are cut into one ring that has so many.
fn is_one_ring(alloc: Global, edges: Edges, count: usize) -> Result<bool, Fail>
    requires { IsSided edges }
{
    let rings = rings(alloc, edges)?;
    match rings.as_slice() {
        [ring] => Ok(ring.as_slice().len() == count),
        _ => Ok(false),
    }
}

/// Whether so many edges along a parabola are one ring.
fn is_parabola_one_ring(alloc: Global, count: u8) -> Result<bool, Fail> {
    let steps = parabola(alloc, count)?;
    let edges = directed(alloc, &segs(alloc, &steps)?)?;
    is_one_ring(alloc, edges, usize::from(count))
}

/// With 32 edges they are walked as they are, with more they are sorted first.
#[test]
fn rings_of_few_edges_and_of_one_more(rt: HostRuntime) -> Result<(), Fail> {
    for count in [31, 32, 33, 34] {
        assert!(rt; is_parabola_one_ring(rt.alloc(), count)?, "{count}");
    }
    Ok(())
}
