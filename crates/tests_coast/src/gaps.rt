//! Gaps between chains, and the rings that they give, as callers see them.

use crate::reading::joined_of;
use coast_join::{Closings, Joined};
use osm_geom::Loc;
use std::alloc::{AllocError as OutOfMemory, Global};
use std::test::Fail;

/// A path's locations, in tenths of a degree.
fn add_path(alloc: Global, told: &mut String, path: &[Loc]) -> Result<(), OutOfMemory> {
    for &loc in path {
        let place = format!(in alloc; " {},{}", loc.x / 1_000_000, loc.y / 1_000_000)?;
        told.push_str(&place)?;
    }
    Ok(())
}

/// The places of the chains round Antarctica and of those that gaps join.
fn add_closings(alloc: Global, told: &mut String, closings: &Closings) -> Result<(), OutOfMemory> {
    for place in closings.antarctica.as_slice() {
        let line = format!(in alloc; "south {place}\n")?;
        told.push_str(&line)?;
    }
    for gap in closings.gaps.as_slice() {
        let line = format!(in alloc; "gap {} {}\n", gap.from_chain, gap.to_chain)?;
        told.push_str(&line)?;
    }
    Ok(())
}

/// The rings, and then the unclosed chains with their ways.
fn add_joined(alloc: Global, told: &mut String, joined: &Joined) -> Result<(), OutOfMemory> {
    for ring in joined.rings.as_slice() {
        let name = format!(in alloc; "ring {}", ring.name)?;
        told.push_str(&name)?;
        add_path(alloc, told, ring.path.as_slice())?;
        told.push_str("\n")?;
    }
    for chain in joined.unclosed.as_slice() {
        let name = format!(in alloc; "open {} of {}", chain.name, chain.ways.as_slice().len())?;
        told.push_str(&name)?;
        add_path(alloc, told, chain.path.as_slice())?;
        told.push_str("\n")?;
    }
    Ok(())
}

/// What becomes of the coast of OPL lines where gaps below a limit are closed.
fn told(alloc: Global, lines: &str, limit: u32) -> Result<String, Fail> {
    let (closings, joined) = joined_of(alloc, lines, limit)?;
    let mut told = String::new(alloc);
    add_closings(alloc, &mut told, &closings)?;
    add_joined(alloc, &mut told, &joined)?;
    Ok(told)
}

/// Whether this becomes of the coast of OPL lines.
fn is_told(alloc: Global, lines: &str, limit: u32, wanted: &str) -> Result<bool, Fail> {
    Ok(told(alloc, lines, limit)?.as_str() == wanted)
}

const NEAREST: &str = "n1 x0 y0
n2 x10 y0
n3 x10 y0.9
n4 x10 y5
n5 x10 y-0.5
n6 x20 y-0.5
w1 Tnatural=coastline Nn1,n2
w2 Tnatural=coastline Nn3,n4
w3 Tnatural=coastline Nn5,n6";

#[test]
fn nearest_gap_first(rt: HostRuntime) -> Result<(), Fail> {
    let due = "gap 0 2\nopen 1 of 2 0,0 100,0 100,-5 200,-5\nopen 2 of 1 100,9 100,50\n";
    assert!(rt; is_told(rt.alloc(), NEAREST, 10_000_000, due)?);
    Ok(())
}

const STRAIT: &str = "n1 x0 y0
n2 x10 y0
n3 x11 y0
n4 x20 y0
w1 Tnatural=coastline Nn1,n2
w2 Tnatural=coastline Nn3,n4";

#[test]
fn a_gap_of_the_limit_stays_open(rt: HostRuntime) -> Result<(), Fail> {
    let open = "open 1 of 1 0,0 100,0\nopen 2 of 1 110,0 200,0\n";
    assert!(rt; is_told(rt.alloc(), STRAIT, 0, open)?);
    assert!(rt; is_told(rt.alloc(), STRAIT, 10_000_000, open)?);
    let closed = "gap 0 1\nopen 1 of 2 0,0 100,0 110,0 200,0\n";
    assert!(rt; is_told(rt.alloc(), STRAIT, 10_000_001, closed)?);
    Ok(())
}

const BAY: &str = "n1 x0 y0
n2 x2 y0
n3 x2 y2
n4 x0 y0.5
w1 Tnatural=coastline Nn1,n2,n3,n4";

#[test]
fn a_chain_is_closed_on_itself(rt: HostRuntime) -> Result<(), Fail> {
    let due = "gap 0 0\nring 1 0,0 20,0 20,20 0,5\n";
    assert!(rt; is_told(rt.alloc(), BAY, 10_000_000, due)?);
    Ok(())
}

const GAP_CHAIN: &str = "n1 x0 y0
n2 x2 y0
n3 x2 y2
n4 x2 y2.5
n5 x0 y2.5
n6 x0 y1
w8 Tnatural=coastline Nn1,n2,n3
w5 Tnatural=coastline Nn4,n5,n6";

#[test]
fn two_chains_are_closed_both_ways(rt: HostRuntime) -> Result<(), Fail> {
    let open = "gap 1 0\nopen 8 of 2 0,0 20,0 20,20 20,25 0,25 0,10\n";
    assert!(rt; is_told(rt.alloc(), GAP_CHAIN, 10_000_000, open)?);
    let closed = "gap 1 0\ngap 0 1\nring 5 20,25 0,25 0,10 0,0 20,0 20,20\n";
    assert!(rt; is_told(rt.alloc(), GAP_CHAIN, 10_000_001, closed)?);
    Ok(())
}

const TIED: &str = "n1 x0 y-5
n2 x0 y0
n3 x0.5 y0
n4 x5 y0
n5 x-0.5 y0
n6 x-5 y0
w5 Tnatural=coastline Nn1,n2
w7 Tnatural=coastline Nn3,n4
w3 Tnatural=coastline Nn5,n6";

#[test]
fn of_equal_gaps_the_lesser_name_is_first(rt: HostRuntime) -> Result<(), Fail> {
    let due = "gap 1 0\nopen 5 of 2 0,-50 0,0 -5,0 -50,0\nopen 7 of 1 5,0 50,0\n";
    assert!(rt; is_told(rt.alloc(), TIED, 10_000_000, due)?);
    Ok(())
}

const ANTARCTICA: &str = "n1 x180 y-70
n2 x0 y-65
n3 x-180 y-70
n4 x170 y-70
n5 x179.9 y-70
n6 x-179.9 y-70
n7 x-170 y-70
w6 Tnatural=coastline Nn1,n2,n3
w7 Tnatural=coastline Nn4,n5
w8 Tnatural=coastline Nn6,n7";

#[test]
fn antarctica_takes_no_part_in_gaps(rt: HostRuntime) -> Result<(), Fail> {
    let due =
        "south 0\nring 6 1800,-700 0,-650 -1800,-700 -1800,-900 1800,-900\nopen 7 of 1 1700,-700 1799,-700\nopen 8 of 1 -1799,-700 -1700,-700\n";
    assert!(rt; is_told(rt.alloc(), ANTARCTICA, 10_000_000, due)?);
    Ok(())
}

const POLE: &str = "n1 x180 y-90
n2 x0 y-65
n3 x-180 y-90
w1 Tnatural=coastline Nn1,n2,n3";

#[test]
fn corners_of_the_world_stand_once(rt: HostRuntime) -> Result<(), Fail> {
    let due = "south 0\nring 1 1800,-900 0,-650 -1800,-900\n";
    assert!(rt; is_told(rt.alloc(), POLE, 0, due)?);
    Ok(())
}

#[test]
fn no_chains_give_nothing(rt: HostRuntime) -> Result<(), Fail> {
    let due = "";
    assert!(rt; is_told(rt.alloc(), "", 10_000_000, due)?);
    Ok(())
}
