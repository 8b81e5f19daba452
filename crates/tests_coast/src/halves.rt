//! Halves of small lists of edges, printed as the closed lines that they run along.
ghost use Rattle.std.specs.Prelude.{IfOk};
ghost use Rattle.osm_geom.specs.InPlane.Sided.{IsSided};

use crate::cutting::{directed, run_along};
use coast_split::half;
use osm_geom::{Axis, Cut, Edges, Side};
use std::alloc::Global;
use std::test::Fail;

/// The line of a cut such as `x<4`.
fn cut(word: &str) -> Cut {
    let axis = if word.starts_with('x') {
        Axis::X
    } else {
        Axis::Y
    };
    let at = word.get(2..).unwrap_or("");
    Cut {
        axis,
        at: at.parse().unwrap_or(i32::MAX),
    }
}

/// The half that a cut such as `x<4` keeps.
fn kept(alloc: Global, edges: &Edges, word: &str) -> Result<Edges, Fail>
    requires { IsSided edges.now }
    ensures { IfOk result (λ list. IsSided list) }
{
    let side = if word.contains('<') {
        Side::Low
    } else {
        Side::High
    };
    Ok(half(alloc, edges, cut(word), side)?)
}

/// The half of a half, or the half alone where no second cut is named.
fn kept_by_both(alloc: Global, edges: &Edges, cuts: &str) -> Result<Edges, Fail>
    requires { IsSided edges.now }
{
    let (first, second) = cuts.split_once(' ').unwrap_or((cuts, ""));
    let half = kept(alloc, edges, first)?;
    if second.is_empty() {
        return Ok(half);
    }
    kept(alloc, &half, second)
}

/// Whether cuts of a list keep the edges along these closed lines, and no others.
fn keep(alloc: Global, lines: &str, cuts: &str, wanted: &str) -> Result<bool, Fail> {
    let edges = directed(alloc, lines)?;
    let half = kept_by_both(alloc, &edges, cuts)?;
    Ok(run_along(&half, wanted))
}

const TOUCHED: &str = "0,0 8,0 8,8 0,8 4,4 0,0";

const WITH_A_NODE_MORE: &str = "0,0 8,0 8,4 8,8 0,8 4,4 0,0";

const TWO_TRIANGLES: &str = "0,0 8,0 4,4 0,0; 4,4 8,8 0,8 4,4";

/// Lines, their cuts, and what these keep.
const AT_TOUCHED_NODES: [(&str, &str, &str); 8] = [
    (TOUCHED, "x<4", "0,0 4,0 4,4 0,0; 4,4 4,8 0,8 4,4"),
    (TOUCHED, "x>4", "4,0 8,0 8,8 4,8 4,0"),
    (TOUCHED, "x<4 y<4", "0,0 4,0 4,4 0,0"),
    (TOUCHED, "x<4 y>4", "4,4 4,8 0,8 4,4"),
    (WITH_A_NODE_MORE, "x<4", "0,0 4,0 4,4 0,0; 4,4 4,8 0,8 4,4"),
    (WITH_A_NODE_MORE, "x>4", "4,0 8,0 8,4 8,8 4,8 4,0"),
    (TWO_TRIANGLES, "x<4", "0,0 4,0 4,4 0,0; 4,4 4,8 0,8 4,4"),
    (TWO_TRIANGLES, "x>4", "4,0 8,0 4,4 4,0; 4,4 8,8 4,8 4,4"),
];

#[test]
fn halves_at_touched_nodes(rt: HostRuntime) -> Result<(), Fail> {
    for &(lines, cuts, wanted) in &AT_TOUCHED_NODES {
        assert!(rt; keep(rt.alloc(), lines, cuts, wanted)?, "{cuts} of {lines}");
    }
    Ok(())
}

const CORNER: &str = "0,0 8,0 8,4 4,4 4,8 0,8 0,0";

const RUN: &str = "0,0 8,0 8,2 8,5 8,8 0,8 0,0";

/// Lines, their cuts, and what these keep.
const ALONG_EDGES: [(&str, &str, &str); 9] = [
    (CORNER, "x<4", "0,0 4,0 4,8 0,8 0,0"),
    (CORNER, "x>4", "4,0 8,0 8,4 4,4 4,0"),
    (RUN, "x<8", "0,0 8,0 8,8 0,8 0,0"),
    (RUN, "x>8", ""),
    (RUN, "y<5", "0,0 8,0 8,2 8,5 0,5 0,0"),
    (RUN, "y>3", "0,3 8,3 8,5 8,8 0,8 0,3"),
    (RUN, "x<9", RUN),
    (RUN, "y<-1", ""),
    (RUN, "y>-1", RUN),
];

#[test]
fn halves_along_edges_and_beside(rt: HostRuntime) -> Result<(), Fail> {
    for &(lines, cuts, wanted) in &ALONG_EDGES {
        assert!(rt; keep(rt.alloc(), lines, cuts, wanted)?, "{cuts} of {lines}");
    }
    Ok(())
}

const SLOPE: &str = "0,0 25,0 100,0 100,3 0,2 0,0";

const TRIANGLE: &str = "0,0 3,0 1,2 0,0";

/// Lines, their cuts, and what these keep.
const WITH_FRACTIONS: [(&str, &str, &str); 9] = [
    (SLOPE, "x<50", "0,0 25,0 50,0 50,5/2 0,2 0,0"),
    (SLOPE, "x<50 x<25", "0,0 25,0 25,9/4 0,2 0,0"),
    (SLOPE, "x<50 x>25", "25,0 50,0 50,5/2 25,9/4 25,0"),
    (SLOPE, "x<50 x<50", "0,0 25,0 50,0 50,5/2 0,2 0,0"),
    (SLOPE, "x<50 x>50", ""),
    (SLOPE, "x<50 y>2", "0,2 50,2 50,5/2 0,2"),
    (TRIANGLE, "y<1", "0,0 3,0 2,1 1/2,1 0,0"),
    (TRIANGLE, "y<1 y<1", "0,0 3,0 2,1 1/2,1 0,0"),
    (TRIANGLE, "y<1 x<1", "0,0 1,0 1,1 1/2,1 0,0"),
];

#[test]
fn halves_with_fractional_ends(rt: HostRuntime) -> Result<(), Fail> {
    for &(lines, cuts, wanted) in &WITH_FRACTIONS {
        assert!(rt; keep(rt.alloc(), lines, cuts, wanted)?, "{cuts} of {lines}");
    }
    Ok(())
}
