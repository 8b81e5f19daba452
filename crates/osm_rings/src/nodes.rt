//! The nodes that the edges of a list leave: their numbers, and which of them several edges leave.
ghost use Rattle.std.specs.Prelude.{◌≡◌, ◌+◌, ◌-◌, ◌<◌, All, IfOk, false, length, slice_index_or, true};
ghost use Rattle.std.specs.Ordering.{is_lt};
ghost use Rattle.osm_geom.specs.Point.{point_cmp};
ghost use Rattle.osm_rings.specs.declared.departure.Departure.{Departure};
ghost use Rattle.osm_rings.specs.Departures.{AreDepartures, AreRising, IsFirstAt, TellStarts};
ghost use Rattle.osm_rings.specs.Pieces.{HaveOwnNumbers};

use crate::departure::Departure;
use osm_geom::Edge;
use std::alloc::{AllocError as OutOfMemory, Global};

/// The nodes that edges leave.
#[derive(Drop)]
pub struct Nodes {
    /// For each edge the number of the node that it leaves.
    pub numbers: Vec<usize>,
    /// For each edge whether others may leave the same node: if not, none does.
    pub shared: Vec<bool>,
}

/// Whether the departure at a place is the first that leaves its point.
fn is_first_there(departures: &[Departure], place: usize) -> bool
    requires rising { AreRising departures.now }
    requires inside { place < length departures.now }
    ensures first { result ≡ true → (d : Departure)
        → IsFirstAt departures.now (slice_index_or departures.now place d).edge.now.from place }
    ensures later { result ≡ false → (d : Departure)
        → (slice_index_or departures.now (place - 1) d).edge.now.from
        ≡ (slice_index_or departures.now place d).edge.now.from }
    ensures some { result ≡ false → 0 < place }
{
    place == 0 || departures[place - 1].leaves_before(&departures[place])
}

/// The number of the node that the departure at a place leaves, by that of the one before it.
fn number_at(departures: &[Departure], before: usize, place: usize) -> usize
    requires rising { AreRising departures.now }
    requires inside { place < length departures.now }
    requires before { (d : Departure) → 0 < place
        → IsFirstAt departures.now (slice_index_or departures.now (place - 1) d).edge.now.from before }
    ensures { (d : Departure)
        → IsFirstAt departures.now (slice_index_or departures.now place d).edge.now.from result }
{
    if is_first_there(departures, place) {
        return place;
    }
    before
}

/// Whether the departure at a place is the last that leaves its point.
fn is_last_there(departures: &[Departure], place: usize) -> bool
    requires { place < length departures.now }
    ensures { result ≡ true → (d : Departure) → place + 1 < length departures.now
        → is_lt (point_cmp (slice_index_or departures.now place d).edge.now.from
        (slice_index_or departures.now (place + 1) d).edge.now.from) ≡ true }
{
    place + 1 == departures.len() || departures[place].leaves_before(&departures[place + 1])
}

/// The nodes that edges leave. The number of one is the place of the first departure from there.
pub fn nodes_of(
    alloc: Global,
    edges: &[Edge],
    departures: &[Departure],
) -> Result<Nodes, OutOfMemory>
    requires { AreDepartures edges.now departures.now }
    ensures sized { IfOk result (λ nodes. length nodes.numbers.items ≡ length edges.now) }
    ensures marked { IfOk result (λ nodes. length nodes.shared.items ≡ length edges.now) }
    ensures below { IfOk result (λ nodes. All (λ k. k < length edges.now) nodes.numbers.items) }
    ensures tell { IfOk result (λ nodes. TellStarts edges.now nodes.numbers.items) }
    ensures own { IfOk result (λ nodes. HaveOwnNumbers nodes.numbers.items nodes.shared.items) }
{
    let mut numbers = vec![in alloc; 0; edges.len()]?;
    let mut shared = vec![in alloc; false; edges.len()]?;
    let mut number = 0;
    for place in 0..departures.len() {
        number = number_at(departures, number, place);
        let edge = departures[place].place;
        numbers[edge] = number;
        shared[edge] = number != place || !is_last_there(departures, place);
    }
    Ok(Nodes { numbers, shared })
}
