//! For the tests: stores of OPL lines, their coastline ways, their chains, and what is joined of these.

use coast_join::{
    Chain, Closings, CoastInput, Joined, chains, closed_rings, closings, coast_input,
};
use opl_reader::read_line;
use osm_objects::Store;
use std::alloc::Global;
use std::test::Fail;

/// Adds the objects of OPL lines to a store.
fn add_lines(alloc: Global, store: &mut Store, lines: &str) -> Result<(), Fail> {
    for line in lines.lines() {
        let Ok(Some(object)) = read_line(alloc, line.as_bytes()) else {
            return Err(Fail::new("not read"));
        };
        if store.add(object).is_err() {
            return Err(Fail::new("not added"));
        }
    }
    Ok(())
}

/// A store of the objects of OPL lines.
fn store_of(alloc: Global, lines: &str) -> Result<Store, Fail> {
    let mut store = Store::new(alloc);
    add_lines(alloc, &mut store, lines)?;
    Ok(store)
}

/// The coastline ways of OPL lines.
pub(crate) fn input_of(alloc: Global, lines: &str) -> Result<CoastInput, Fail> {
    let store = store_of(alloc, lines)?;
    Ok(coast_input(alloc, &store)?)
}

/// Their chains.
pub(crate) fn chains_of(alloc: Global, lines: &str) -> Result<Vec<Chain>, Fail> {
    let store = store_of(alloc, lines)?;
    let input = coast_input(alloc, &store)?;
    Ok(chains(alloc, input.ways.as_slice())?)
}

/// The closings of these chains, by gaps below a limit, and what is joined along them.
pub(crate) fn joined_of(
    alloc: Global,
    lines: &str,
    limit: u32,
) -> Result<(Closings, Joined), Fail> {
    let store = store_of(alloc, lines)?;
    let input = coast_input(alloc, &store)?;
    let chains = chains(alloc, input.ways.as_slice())?;
    let closings = closings(alloc, &chains, limit)?;
    let joined = closed_rings(alloc, &chains, &closings)?;
    Ok((closings, joined))
}
