//! The coastline ways of a store.

ghost use Rattle.std.specs.Prelude.{◌≡◌, ◌≤◌, ◌++◌, ◌∷◌, [], IfOk, OnOk, filter, is_none, length, map};
ghost use Rattle.std.specs.List.{IsDistinct, filter_map, flat_map};
ghost use Rattle.std.specs.Ordering.{int_eq};
ghost use Rattle.coast_join.specs.declared.way.CoastWay.{CoastWay};
ghost use Rattle.osm_objects.specs.CoastWays.{coast_ways};
ghost use Rattle.osm_objects.specs.Objects.{place_of};
ghost use Rattle.coast_join.specs.declared.way.Aside.TheVariants.{Missing};
ghost use Rattle.coast_join.specs.Chains.{way_path_of};
ghost use Rattle.coast_rings.specs.Line.{NeighboursDiffer};
ghost use Rattle.coast_join.specs.Input.{asides_by, asides_of, line_along, lines_by, missing_node_ids, way_paths_in};

use crate::way::{Aside, Asides, CoastWay, CoastWays};
use coast_rings::once_path;
use lists::each_once;
use osm_elements::Refs;
use osm_geom::{Loc, Path, orders_are_exact};
use osm_objects::Store;
use std::alloc::{AllocError as OutOfMemory, Global};

/// The coastline ways that take part, and what keeps the others from it, each in input order.
#[derive(Debug, Drop)]
pub struct CoastInput {
    pub ways: CoastWays,
    pub aside: Asides,
}

/// The nodes of the references that have no location.
fn unlocated(alloc: Global, store: &Store, refs: &Refs) -> Result<Vec<i64>, OutOfMemory>
    ensures { IfOk result (λ v. v.items
        ≡ map (λ r. r.node) (filter (λ r. is_none (place_of store.now r)) refs.now)) }
{
    let mut ids = Vec::new(alloc);
    for reference in refs.iter() {
        if store.place_of(&reference).is_none() {
            ids.push(reference.node)?;
        }
    }
    Ok(ids)
}

/// Those nodes, each once.
fn missing_node_ids(alloc: Global, store: &Store, refs: &Refs) -> Result<Vec<i64>, OutOfMemory>
    ensures { IfOk result (λ v. v.items ≡ missing_node_ids store.now refs.now) }
{
    let all = unlocated(alloc, store, refs)?;
    each_once(alloc, &all)
}

/// The locations of references; one without a location is passed over.
fn located(alloc: Global, store: &Store, refs: &Refs) -> Result<Vec<Loc>, OutOfMemory>
    ensures { IfOk result (λ v. v.items ≡ filter_map (place_of store.now) refs.now) }
{
    let mut locs = Vec::with_capacity(alloc, refs.len())?;
    for reference in refs.iter() {
        if let Some(place) = store.place_of(&reference) {
            locs.push(place)?;
        }
    }
    Ok(locs)
}

/// Adds a missing node of each of these ids.
fn add_missing(asides: &mut Asides, way: i64, nodes: &[i64]) -> Result<(), OutOfMemory>
    ensures { OnOk result (asides.new ≡ asides.old ++ map (Missing way) nodes.now) }
{
    for &node in nodes {
        asides.push(Aside::Missing { way, node })?;
    }
    Ok(())
}

/// Adds a way with these locations, if they are at least two, and else notes that they aren't.
fn add_line(
    ways: &mut CoastWays,
    asides: &mut Asides,
    way: i64,
    path: Path,
) -> Result<(), OutOfMemory>
    requires { NeighboursDiffer path }
    ensures ways { OnOk result (map way_path_of ways.new
        ≡ map way_path_of ways.old ++ lines_by way [] path) }
    ensures asides { OnOk result (asides.new ≡ asides.old ++ asides_by way [] path) }
{
    if path.as_slice().len() < 2 {
        asides.push(Aside::Short { way })?;
        return Ok(());
    }
    ways.push(CoastWay { id: way, path })?;
    Ok(())
}

/// Adds a way with these references.
fn add_way(
    alloc: Global,
    store: &Store,
    ways: &mut CoastWays,
    asides: &mut Asides,
    way: i64,
    refs: &Refs,
) -> Result<(), OutOfMemory>
    ensures ways { OnOk result (map way_path_of ways.new ≡ map way_path_of ways.old
        ++ lines_by way (missing_node_ids store.now refs.now) (line_along store.now refs.now)) }
    ensures asides { OnOk result (asides.new ≡ asides.old
        ++ asides_by way (missing_node_ids store.now refs.now) (line_along store.now refs.now)) }
{
    orders_are_exact();
    let locs = located(alloc, store, refs)?;
    // Missing nodes are looked up only if there are any.
    if locs.len() < refs.len() {
        let missing = missing_node_ids(alloc, store, refs)?;
        return add_missing(asides, way, &missing);
    }
    add_line(ways, asides, way, once_path(locs))
}

/// Adds the way of this id.
fn add_held(
    alloc: Global,
    store: &Store,
    ways: &mut CoastWays,
    asides: &mut Asides,
    way: i64,
) -> Result<(), OutOfMemory>
    ensures ways { OnOk result (map way_path_of ways.new
        ≡ map way_path_of ways.old ++ way_paths_in store.now way) }
    ensures asides { OnOk result (asides.new ≡ asides.old ++ asides_of store.now way) }
{
    match store.way(way) {
        Some(found) => add_way(alloc, store, ways, asides, way, found.refs),
        None => add_way(alloc, store, ways, asides, way, &Refs::new(alloc)),
    }
}

/// The coastline ways of a store that take part, and what keeps the others from it, each in input order.
///
/// A coastline way is a live way tagged `natural=coastline`. One with references that have no location is set aside with the
/// nodes of these, each once, in order of their first places. In any other, equal neighbouring locations are taken once, and
/// it is set aside if fewer than two are left.
///
/// The ids of the ways differ, as `chains` asks. Fails only if memory runs out.
pub fn coast_input(alloc: Global, store: &Store) -> Result<CoastInput, OutOfMemory>
    ensures ways { IfOk result (λ input.
        map way_path_of input.ways ≡ flat_map (way_paths_in store.now) (coast_ways store.now)) }
    ensures aside { IfOk result (λ input.
        input.aside ≡ flat_map (asides_of store.now) (coast_ways store.now)) }
    ensures apart { IfOk result (λ input.
        IsDistinct int_eq (map (λ (w : CoastWay). w.id) input.ways)) }
{
    let mut ways = CoastWays::new(alloc);
    let mut aside = Asides::new(alloc);
    let coast = store.coast_ways(alloc)?;
    for &way in &coast {
        add_held(alloc, store, &mut ways, &mut aside, way)?;
    }
    Ok(CoastInput { ways, aside })
}
