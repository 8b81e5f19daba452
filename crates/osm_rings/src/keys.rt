//! Departures by the ranks of the points that they leave.
//!
//! Only speed depends on these: callers that search by them then test by the points themselves.
ghost use Rattle.std.specs.Prelude.{◌<◌, length};
ghost use Rattle.osm_geom.specs.Point.{IsInWorld};

use crate::departure::Departure;
use crate::ranks::rank;
use osm_geom::Point;
use std::alloc::{AllocError as OutOfMemory, Global};

/// How many places from another on are tried one by one.
const STEPS: usize = 4;

/// The ranks of the points that departures leave, side by side, so that a search reads few bytes.
pub fn keys_of(alloc: Global, departures: &[Departure]) -> Result<Vec<i64>, OutOfMemory> {
    let mut keys = Vec::with_capacity(alloc, departures.len())?;
    for departure in departures {
        keys.push(departure.key)?;
    }
    Ok(keys)
}

/// Whether the keys before a place are below `key`, and those from there on aren't, if keys rise.
fn parts_keys(keys: &[i64], place: usize, key: i64) -> bool
    requires { place < length keys.now }
{
    (place == 0 || keys[place - 1] < key) && keys[place] >= key
}

/// Where the departures from p begin, by the ranks. The search tries `near` and the few places after it, and then searches all.
pub(crate) fn guess_first(keys: &[i64], near: usize, p: Point) -> usize
    requires { IsInWorld p }
{
    let key = rank(&p);
    for place in near..near.saturating_add(STEPS).min(keys.len()) {
        if parts_keys(keys, place, key) {
            return place;
        }
    }
    keys.partition_point(|other| *other < key)
}
