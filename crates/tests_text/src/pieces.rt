//! Pieces against the values of the formats, on numbers worked out by hand.

use crate::shapes::{Sides, polygon_of, quadrilateral, rectangle, triangle};
use osm_geom::{Carrier, Edge, Loc, Part, Point, Seg};
use osm_nest::Polygon;
use osm_rings::{Ring, Rings};
use osm_text::{Piece, PieceKind, piece_text};
use std::alloc::Global;
use std::test::Fail;

/// A square of 40 by 40 tenths of a degree, and one within it.
const AROUND: Sides = [-10, -10, 30, 30];

const WITHIN: Sides = [10, 10, 20, 20];

/// The triangle (1, 1), (0, 1), (0, 1/2), of which (0, 1) and (1, 1) are left.
#[tactic(auto, using(osm_lattice::proofs::LatticeKit::half_lowest), unfolding(osm_geom::specs::Carrier::is_on))]
fn sliver() -> [Edge; 3] {
    let half = Point::OnVertical {
        c: 0,
        y: Part {
            floor: 0,
            above: 1,
            den: 2,
        },
    };
    let (left, right) = (Loc { x: 0, y: 1 }, Loc { x: 1, y: 1 });
    let rising = Seg {
        a: Loc { x: -1, y: 0 },
        b: right,
    };
    [
        Edge::of(Seg { a: left, b: right }, false),
        Edge {
            from: Point::Lattice(left),
            to: half,
            carrier: Carrier::Vertical(0),
        },
        Edge {
            from: half,
            to: Point::Lattice(right),
            carrier: Carrier::OfSeg(rising),
        },
    ]
}

/// The edges from (-1/2, 0) by (0, -4) to (1/2, 0).
#[tactic(auto, using(osm_lattice::proofs::LatticeKit::half_lowest), unfolding(osm_geom::specs::Carrier::is_on))]
fn lower_halves() -> [Edge; 2] {
    let west = Point::OnHorizontal {
        x: Part {
            floor: -1,
            above: 1,
            den: 2,
        },
        d: 0,
    };
    let east = Point::OnHorizontal {
        x: Part {
            floor: 0,
            above: 1,
            den: 2,
        },
        d: 0,
    };
    let bottom = Loc { x: 0, y: -4 };
    [
        Edge {
            from: west,
            to: Point::Lattice(bottom),
            carrier: Carrier::OfSeg(Seg {
                a: bottom,
                b: Loc { x: -1, y: 4 },
            }),
        },
        Edge {
            from: Point::Lattice(bottom),
            to: east,
            carrier: Carrier::OfSeg(Seg {
                a: bottom,
                b: Loc { x: 1, y: 4 },
            }),
        },
    ]
}

/// The edges from (1/2, 0) by (0, 4) to (-1/2, 0).
#[tactic(auto, using(osm_lattice::proofs::LatticeKit::half_lowest), unfolding(osm_geom::specs::Carrier::is_on))]
fn upper_halves() -> [Edge; 2] {
    let west = Point::OnHorizontal {
        x: Part {
            floor: -1,
            above: 1,
            den: 2,
        },
        d: 0,
    };
    let east = Point::OnHorizontal {
        x: Part {
            floor: 0,
            above: 1,
            den: 2,
        },
        d: 0,
    };
    let top = Loc { x: 0, y: 4 };
    [
        Edge {
            from: east,
            to: Point::Lattice(top),
            carrier: Carrier::OfSeg(Seg {
                a: Loc { x: 1, y: -4 },
                b: top,
            }),
        },
        Edge {
            from: Point::Lattice(top),
            to: west,
            carrier: Carrier::OfSeg(Seg {
                a: Loc { x: -1, y: -4 },
                b: top,
            }),
        },
    ]
}

/// The edges (-1/2, 0), (0, -4), (1/2, 0), (0, 4).
fn halves_of_x() -> [Edge; 4] {
    let [first, second] = lower_halves();
    let [third, last] = upper_halves();
    [first, second, third, last]
}

/// The edges (8, -1/2), (8, 0), (0, 4), (0, -4).
#[tactic(auto, using(osm_lattice::proofs::LatticeKit::half_lowest), unfolding(osm_geom::specs::Carrier::is_on))]
fn four_corners() -> [Edge; 4] {
    let half = Point::OnVertical {
        c: 8,
        y: Part {
            floor: -1,
            above: 1,
            den: 2,
        },
    };
    let right = Loc { x: 8, y: 0 };
    let (bottom, top) = (Loc { x: 0, y: -4 }, Loc { x: 0, y: 4 });
    let rising = Seg {
        a: bottom,
        b: Loc { x: 16, y: 3 },
    };
    [
        Edge {
            from: half,
            to: Point::Lattice(right),
            carrier: Carrier::Vertical(8),
        },
        Edge::of(Seg { a: right, b: top }, true),
        Edge::of(Seg { a: bottom, b: top }, false),
        Edge {
            from: Point::Lattice(bottom),
            to: half,
            carrier: Carrier::OfSeg(rising),
        },
    ]
}

/// The polygon of an outer ring and two inner ones, a square and the sliver.
fn holed(alloc: Global, outer: Ring) -> Result<Polygon, Fail> {
    let mut inners = Rings::new(alloc);
    inners.push(triangle(alloc, sliver())?)?;
    inners.push(rectangle(alloc, WITHIN, true)?)?;
    Ok(Polygon { outer, inners })
}

/// Whether a piece is printed so, and rings of it have vanished so often at (0, 1); no line stands for a piece that isn't printed.
fn prints(piece: &Piece, line: &str, times: usize) -> bool {
    let printed = match &piece.text {
        Some(text) => text.as_slice(),
        None => b"",
    };
    printed == line.as_bytes()
        && piece.vanished.as_slice().len() == times
        && piece
            .vanished
            .as_slice()
            .iter()
            .all(|at| *at == Loc { x: 0, y: 1 })
}

/// Whether a polygon is printed so as a piece, and rings of it have vanished so often at (0, 1).
fn polygon_prints(
    alloc: Global,
    kind: PieceKind,
    polygon: &Polygon,
    line: &str,
    times: usize,
) -> Result<bool, Fail> {
    Ok(prints(&piece_text(alloc, kind, polygon)?, line, times))
}

/// The same of the piece of land of one ring.
fn ring_prints(alloc: Global, outer: Ring, line: &str, times: usize) -> Result<bool, Fail> {
    let inners = Rings::new(alloc);
    polygon_prints(
        alloc,
        PieceKind::Land,
        &Polygon { outer, inners },
        line,
        times,
    )
}

#[test]
fn pieces_of_land_and_water(rt: HostRuntime) -> Result<(), Fail> {
    let island = polygon_of(rt.alloc(), [0, 0, 10, 10], None)?;
    let line = "land POLYGON((0 0,1 0,1 1,0 1,0 0))\n";
    assert!(rt; polygon_prints(rt.alloc(), PieceKind::Land, &island, line, 0)?);
    let sea = polygon_of(rt.alloc(), [-1800, -900, 1800, 900], Some([0, 0, 10, 10]))?;
    let line = "water POLYGON((-180 -90,180 -90,180 90,-180 90,-180 -90),(0 0,0 1,1 1,1 0,0 0))\n";
    assert!(rt; polygon_prints(rt.alloc(), PieceKind::Water, &sea, line, 0)?);
    Ok(())
}

#[test]
fn halves_are_rounded_upwards(rt: HostRuntime) -> Result<(), Fail> {
    let ring = quadrilateral(rt.alloc(), halves_of_x())?;
    let line = "land POLYGON((0 0,0 -0.0000004,0.0000001 0,0 0.0000004,0 0))\n";
    assert!(rt; ring_prints(rt.alloc(), ring, line, 0)?);
    Ok(())
}

/// Whether the ring along these edges is printed without its second point, which is printed as the first.
fn prints_once(alloc: Global, edges: [Edge; 4]) -> Result<bool, Fail> {
    let line = "land POLYGON((0.0000008 0,0 0.0000004,0 -0.0000004,0.0000008 0))\n";
    ring_prints(alloc, quadrilateral(alloc, edges)?, line, 0)
}

#[test]
fn equal_neighbours_are_printed_once(rt: HostRuntime) -> Result<(), Fail> {
    let [first, second, third, last] = four_corners();
    assert!(rt;
        prints_once(rt.alloc(), [first, second, third, last])?,
        "first and second"
    );
    assert!(rt;
        prints_once(rt.alloc(), [second, third, last, first])?,
        "last and first"
    );
    Ok(())
}

/// Whether a ring with two in it, of which the sliver vanishes, is printed so, and so many rings vanish.
fn holed_prints(
    alloc: Global,
    kind: PieceKind,
    outer: Ring,
    line: &str,
    times: usize,
) -> Result<bool, Fail> {
    let polygon = holed(alloc, outer)?;
    polygon_prints(alloc, kind, &polygon, line, times)
}

#[test]
fn rings_that_vanish(rt: HostRuntime) -> Result<(), Fail> {
    let alloc = rt.alloc();
    let whole = rectangle(alloc, AROUND, false)?;
    let line = "land POLYGON((-1 -1,3 -1,3 3,-1 3,-1 -1),(1 1,1 2,2 2,2 1,1 1))\n";
    assert!(rt;
        holed_prints(alloc, PieceKind::Land, whole, line, 1)?,
        "an inner one"
    );
    assert!(rt;
        ring_prints(alloc, triangle(alloc, sliver())?, "", 1)?,
        "the outer one"
    );
    let gone = triangle(alloc, sliver())?;
    assert!(rt; holed_prints(alloc, PieceKind::Water, gone, "", 2)?, "both");
    Ok(())
}
