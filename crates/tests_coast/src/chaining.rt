//! Coastline ways and chains as callers see them.

use crate::reading::{chains_of, input_of};
use coast_join::{Aside, Chain};
use osm_geom::Loc;
use std::alloc::{AllocError as OutOfMemory, Global};
use std::test::Fail;

/// A location in degrees.
fn degrees(alloc: Global, loc: Loc) -> Result<String, OutOfMemory> {
    format!(in alloc; " {},{}", loc.x / 10_000_000, loc.y / 10_000_000)
}

/// A chain's name, its ways, whether it is a round or a line, and its path.
fn add_chain(alloc: Global, told: &mut String, chain: &Chain) -> Result<(), OutOfMemory> {
    let name = format!(in alloc; "{}:", chain.name)?;
    told.push_str(&name)?;
    for way in chain.ways.as_slice() {
        let id = format!(in alloc; " {way}")?;
        told.push_str(&id)?;
    }
    told.push_str(if chain.closed { " round" } else { " line" })?;
    for &loc in chain.path.as_slice() {
        let place = degrees(alloc, loc)?;
        told.push_str(&place)?;
    }
    told.push_str("\n")?;
    Ok(())
}

/// What is told of the chains of OPL lines.
fn told_chains(alloc: Global, lines: &str) -> Result<String, Fail> {
    let chains = chains_of(alloc, lines)?;
    let mut told = String::new(alloc);
    for chain in &chains {
        add_chain(alloc, &mut told, chain)?;
    }
    Ok(told)
}

/// Whether this is told of the chains of OPL lines.
fn are_chained(alloc: Global, lines: &str, wanted: &str) -> Result<bool, Fail> {
    Ok(told_chains(alloc, lines)?.as_str() == wanted)
}

/// Whether these ways are set aside.
fn are_aside(alloc: Global, lines: &str, wanted: &[Aside]) -> Result<bool, Fail> {
    Ok(input_of(alloc, lines)?.aside.as_slice() == wanted)
}

const CROSSING: &str = "n1 x-1 y0
n2 x-2 y0
n3 x0 y0
n4 x1 y0
n5 x2 y0
w5 Tnatural=coastline Nn2,n3
w2 Tnatural=coastline Nn3,n4
w8 Tnatural=coastline Nn3,n5
w3 Tnatural=coastline Nn1,n3";

#[test]
fn ends_go_on_to_starts_by_id(rt: HostRuntime) -> Result<(), Fail> {
    let told = "3: 3 2 line -1,0 0,0 1,0\n5: 5 8 line -2,0 0,0 2,0\n";
    assert!(rt; are_chained(rt.alloc(), CROSSING, told)?);
    Ok(())
}

const ISLAND: &str = "n1 x0 y0
n2 x1 y0
n3 x1 y1
w9 Tnatural=coastline Nn2,n3
w4 Tnatural=coastline Nn3,n1
w6 Tnatural=water Nn1,n2
w7 Tnatural=coastline Nn1,n2";

#[test]
fn a_round_begins_with_its_least_way(rt: HostRuntime) -> Result<(), Fail> {
    let told = "4: 4 7 9 round 1,1 0,0 1,0\n";
    assert!(rt; are_chained(rt.alloc(), ISLAND, told)?);
    Ok(())
}

const TWICE: &str = "n1 x0 y0
n2 x1 y0
n3 x1 y1
w1 Tnatural=coastline Nn1,n1,n2,n3,n3,n1,n2,n3,n1";

#[test]
fn a_way_may_run_round_twice(rt: HostRuntime) -> Result<(), Fail> {
    let told = "1: 1 round 0,0 1,0 1,1 0,0 1,0 1,1\n";
    assert!(rt; are_chained(rt.alloc(), TWICE, told)?);
    Ok(())
}

const LACKING: &str = "n1 x0 y0
n2 x1 y0
n3
w7 Tnatural=coastline Nn1,n2
w5 Tnatural=coastline Nn1,n44,n2,n3,n44
w3 Tnatural=coastline Nn1,n1
w4 Tnatural=coastline N";

#[test]
fn ways_are_set_aside_in_input_order(rt: HostRuntime) -> Result<(), Fail> {
    let aside = [
        Aside::Missing { way: 5, node: 44 },
        Aside::Missing { way: 5, node: 3 },
        Aside::Short { way: 3 },
        Aside::Short { way: 4 },
    ];
    assert!(rt; are_aside(rt.alloc(), LACKING, &aside)?);
    assert!(rt; are_chained(rt.alloc(), LACKING, "7: 7 line 0,0 1,0\n")?);
    Ok(())
}

const LOCATED: &str = "n1 x0 y0
w1 Tnatural=coastline Nn1x3y3,n9x4y4,n1
w2 Tnatural=coastline Nn9x4y4,n9";

#[test]
fn references_may_have_their_own_location(rt: HostRuntime) -> Result<(), Fail> {
    let aside = [Aside::Missing { way: 2, node: 9 }];
    assert!(rt; are_aside(rt.alloc(), LOCATED, &aside)?);
    assert!(rt; are_chained(rt.alloc(), LOCATED, "1: 1 line 3,3 4,4 0,0\n")?);
    Ok(())
}

#[test]
fn no_coast(rt: HostRuntime) -> Result<(), Fail> {
    assert!(rt; input_of(rt.alloc(), "")?.ways.as_slice().is_empty());
    assert!(rt; are_aside(rt.alloc(), "", &[])?);
    assert!(rt; are_chained(rt.alloc(), "", "")?);
    Ok(())
}
