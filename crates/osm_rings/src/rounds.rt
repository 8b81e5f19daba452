//! Departures that are in order of their ranks, put in order round each point.
ghost use Rattle.std.specs.Prelude.{◌<◌, ◌≤◌, IsPermutation, length};

use crate::departure::Departure;
use crate::departures::EAST;
use osm_geom::clockwise;
use std::cmp::Ordering;

/// The order of departures from one point: clockwise from the east.
fn compare_round(departure: &Departure, other: &Departure) -> Ordering {
    clockwise(EAST, departure.edge.dir(), other.edge.dir())
}

/// Where the departures with the rank of the one at `from` end.
fn end_of_key(departures: &[Departure], from: usize) -> usize
    requires { from < length departures.now }
    ensures behind { from < result }
    ensures inside { result ≤ length departures.now }
{
    let mut end = from + 1;
    while end < departures.len() && departures[end].key == departures[from].key {
        end += 1;
    }
    end
}

/// Puts departures in order round each point, where they are ordered by their ranks.
pub fn sort_rounds(departures: &mut [Departure])
    ensures { IsPermutation departures.old departures.new }
{
    let mut from = 0;
    while from < departures.len() {
        let end = end_of_key(departures, from);
        if end - from > 1 {
            departures[from..end].sort_unstable_by(|departure, other| compare_round(
                departure, other,
            ));
        }
        from = end;
    }
}
