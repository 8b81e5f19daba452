//! Coastline ways put together to chains.

ghost use Rattle.std.specs.Prelude.{◌≡◌, ◌++◌, ◌<◌, ◌-◌, ◌∷◌, [], if◌then◌else◌, All, IfOk, OnOk, length, map, slice_index};
ghost use Rattle.std.specs.List.{IsDistinct, flat_map, AllZip};
ghost use Rattle.std.specs.Ordering.{int_eq};
ghost use Rattle.orbits.specs.Orbits.{IsOrbit, last_number};
ghost use Rattle.coast_join.specs.declared.way.CoastWay.{CoastWay};
ghost use Rattle.coast_join.specs.Chains.{AreChains, IsChain, WayPath, joined_path};
ghost use Rattle.coast_join.specs.ChainSteps.{AreLinked, Makes, ways_at};
ghost use Rattle.coast_join.specs.Links.{AreNextWays};
ghost use Rattle.coast_rings.specs.Line.{first_location, front_of, last_location};

use crate::by_id::by_id;
use crate::chain::Chain;
use crate::links::links;
use crate::way::CoastWay;
use orbits::{each_stands_once, orbits};
use osm_geom::{Ids, Loc, Path};
use std::alloc::{AllocError as OutOfMemory, Global};

/// The ids of ways.
fn ids(alloc: Global, ways: &[CoastWay]) -> Result<Vec<i64>, OutOfMemory>
    ensures { IfOk result (λ v. v.items ≡ map (λ (w : CoastWay). w.id) ways.now) }
{
    ways.iter().map(|way| way.id).collect(alloc)
}

/// The locations at which the ways at these places start.
fn starts(alloc: Global, ways: &[CoastWay], places: &[usize]) -> Result<Vec<Loc>, OutOfMemory>
    requires { All (λ i. i < length ways.now) places.now }
    ensures { IfOk result (λ v. v.items
        ≡ map (λ (l : WayPath). first_location l.path) (ways_at ways.now places.now)) }
{
    let mut starts = Vec::with_capacity(alloc, places.len())?;
    for &place in places {
        starts.push(ways[place].first())?;
    }
    Ok(starts)
}

/// The locations at which the ways at these places end.
fn ends(alloc: Global, ways: &[CoastWay], places: &[usize]) -> Result<Vec<Loc>, OutOfMemory>
    requires { All (λ i. i < length ways.now) places.now }
    ensures { IfOk result (λ v. v.items
        ≡ map (λ (l : WayPath). last_location l.path) (ways_at ways.now places.now)) }
{
    let mut ends = Vec::with_capacity(alloc, places.len())?;
    for &place in places {
        ends.push(ways[place].last())?;
    }
    Ok(ends)
}

/// The ids of the ways at these places.
fn ids_at(alloc: Global, ways: &[CoastWay], places: &[usize]) -> Result<Ids, OutOfMemory>
    requires { All (λ i. i < length ways.now) places.now }
    ensures { IfOk result (λ ids. ids ≡ map (λ (l : WayPath). l.id) (ways_at ways.now places.now)) }
{
    let mut ids = Ids::new(alloc);
    for &place in places {
        ids.push(ways[place].id)?;
    }
    Ok(ids)
}

/// Adds the locations of a way but the last.
fn add_front(path: &mut Path, way: &CoastWay) -> Result<(), OutOfMemory>
    ensures { OnOk result (path.new ≡ path.old ++ front_of way.now.path) }
{
    let line = way.path.as_slice();
    for &loc in &line[..line.len() - 1] {
        path.push(loc)?;
    }
    Ok(())
}

/// The locations of the ways at these places, without the last of each way.
fn fronts(alloc: Global, ways: &[CoastWay], places: &[usize]) -> Result<Path, OutOfMemory>
    requires { All (λ i. i < length ways.now) places.now }
    ensures { IfOk result (λ path. path
        ≡ flat_map (λ (l : WayPath). front_of l.path) (ways_at ways.now places.now)) }
{
    let mut path = Path::new(alloc);
    for &place in places {
        add_front(&mut path, &ways[place])?;
    }
    Ok(path)
}

/// The paths of the ways at these places one after the other, with a location that two share only once.
fn path_of(
    alloc: Global,
    ways: &[CoastWay],
    places: &[usize],
    closed: bool,
) -> Result<Path, OutOfMemory>
    requires some { 0 < length places.now }
    requires inside { All (λ i. i < length ways.now) places.now }
    ensures { IfOk result (λ path. path
        ≡ joined_path closed (map (λ (l : WayPath). l.path) (ways_at ways.now places.now))) }
{
    let mut path = fronts(alloc, ways, places)?;
    if closed {
        return Ok(path);
    }
    let end = places[places.len() - 1];
    path.push(ways[end].last())?;
    Ok(path)
}

/// The chain of the ways at these places. Each goes on to the next, and the last to the first if the chain is closed.
fn chain_of(
    alloc: Global,
    ways: &[CoastWay],
    places: &[usize],
    closed: bool,
) -> Result<Chain, OutOfMemory>
    requires inside { All (λ i. i < length ways.now) places.now }
    requires linked { AreLinked closed (map (λ (l : WayPath). l.path)
        (ways_at ways.now places.now)) }
    ensures { IfOk result (λ chain. Makes (ways_at ways.now places.now) closed chain) }
{
    let ids = ids_at(alloc, ways, places)?;
    let path = path_of(alloc, ways, places, closed)?;
    let begin = places[0];
    let name = ways[begin].id;
    Ok(Chain {
        name,
        ways: ids,
        path,
        closed,
    })
}

/// The numbers at these places.
fn numbers_at(alloc: Global, numbers: &[usize], places: &[usize]) -> Result<Vec<usize>, OutOfMemory>
    requires { All (λ k. k < length numbers.now) places.now }
    ensures { IfOk result (λ v. v.items ≡ map (slice_index numbers.now) places.now) }
{
    places.iter().map(|&place| numbers[place]).collect(alloc)
}

/// The chain of an orbit of the ways in this order.
fn chain_at(
    alloc: Global,
    ways: &[CoastWay],
    order: &[usize],
    next: &[Option<usize>],
    orbit: &[usize],
) -> Result<Chain, OutOfMemory>
    requires inside { All (λ i. i < length ways.now) order.now }
    requires links { AreNextWays
        (map (λ (l : WayPath). last_location l.path) (ways_at ways.now order.now))
        (map (λ (l : WayPath). first_location l.path) (ways_at ways.now order.now))
        next.now }
    requires orbit { IsOrbit next.now orbit.now }
    requires below { All (λ k. k < length order.now) orbit.now }
    ensures { IfOk result (λ chain. IsChain (ways_at ways.now order.now) next.now orbit.now chain) }
{
    let places = numbers_at(alloc, order, orbit)?;
    let end = orbit[orbit.len() - 1];
    let closed = next[end].is_some();
    chain_of(alloc, ways, &places, closed)
}

/// The chains of orbits of the ways in this order.
fn chains_of(
    alloc: Global,
    ways: &[CoastWay],
    order: &[usize],
    next: &[Option<usize>],
    orbits: &[Vec<usize>],
) -> Result<Vec<Chain>, OutOfMemory>
    requires inside { All (λ i. i < length ways.now) order.now }
    requires links { AreNextWays
        (map (λ (l : WayPath). last_location l.path) (ways_at ways.now order.now))
        (map (λ (l : WayPath). first_location l.path) (ways_at ways.now order.now))
        next.now }
    requires orbits { All (λ o. IsOrbit next.now o) (map (λ o. o.items) orbits.now) }
    requires below { All (λ o. All (λ k. k < length order.now) o) (map (λ o. o.items) orbits.now) }
    ensures { IfOk result (λ v. AllZip (IsChain (ways_at ways.now order.now) next.now)
        (map (λ o. o.items) orbits.now)
        v.items) }
{
    let mut chains = Vec::with_capacity(alloc, orbits.len())?;
    for orbit in orbits {
        chains.push(chain_at(alloc, ways, order, next, orbit)?)?;
    }
    Ok(chains)
}

/// The chains of coastline ways whose ids differ, in order of name.
///
/// At each location the i-th way that ends there, by id, goes on to the i-th that starts there. A chain that goes round is
/// closed, is named by its least way and begins with it. Any other is named by its first way, to which no way goes on. It
/// takes time n log n. Fails only if memory runs out.
pub fn chains(alloc: Global, ways: &[CoastWay]) -> Result<Vec<Chain>, OutOfMemory>
    requires { IsDistinct int_eq (map (λ (w : CoastWay). w.id) ways.now) }
    ensures { IfOk result (λ v. AreChains ways.now v.items) }
{
    each_stands_once();
    let ids = ids(alloc, ways)?;
    let order = by_id(alloc, &ids)?;
    let starts = starts(alloc, ways, &order)?;
    let ends = ends(alloc, ways, &order)?;
    let next = links(alloc, &ends, &starts)?;
    let orbits = orbits(alloc, &next)?;
    chains_of(alloc, ways, &order, &next, &orbits)
}
