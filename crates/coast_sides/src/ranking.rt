//! Rings in order of rank: long ones before short ones.

ghost use Rattle.std.specs.Prelude.{◌≡◌, IfOk, length, map};
ghost use Rattle.std.specs.List.{enumerate_from};
ghost use Rattle.coast_sides.specs.ChoiceSteps.{AreByRank, ring_rank};
ghost use Rattle.coast_sides.specs.CutSorting.{NamesOfRingsRise};

use coast_rings::CoastRing;
use lists::distinct_items;
use std::alloc::{AllocError as OutOfMemory, Global};
use std::cmp::Reverse;

/// The rank of a ring: that of more locations comes first, of as many that of the lesser name, and then the first one.
#[derive(Clone, Copy, Debug, PartialEq, Eq, PartialOrd, Ord)]
pub struct Rank {
    pub locations: Reverse<usize>,
    pub name: i64,
    pub place: usize,
}

/// The rank of the ring at a place.
fn ring_rank(place: usize, ring: &CoastRing) -> Rank
    ensures { result ≡ ring_rank place ring.now }
{
    Rank {
        locations: Reverse(ring.path.as_slice().len()),
        name: ring.name,
        place,
    }
}

/// The ranks of rings.
fn ranks(alloc: Global, rings: &[CoastRing]) -> Result<Vec<Rank>, OutOfMemory>
    ensures { IfOk result (λ v. v.items
        ≡ map (λ p. ring_rank p.0 p.1) (enumerate_from 0 rings.now)) }
{
    rings
        .iter()
        .enumerate()
        .map(|(place, ring)| ring_rank(place, ring))
        .collect(alloc)
}

/// The places of ranks.
fn places(alloc: Global, ranks: &[Rank]) -> Result<Vec<usize>, OutOfMemory>
    ensures { IfOk result (λ v. v.items ≡ map (λ rank. rank.place) ranks.now) }
{
    ranks.iter().map(|rank| rank.place).collect(alloc)
}

/// The places of rings in order of rank.
pub(crate) fn places_by_rank(alloc: Global, rings: &[CoastRing]) -> Result<Vec<usize>, OutOfMemory>
    requires { NamesOfRingsRise rings.now }
    ensures { IfOk result (λ v. AreByRank rings.now v.items) }
{
    let ranks = ranks(alloc, rings)?;
    let sorted = distinct_items(alloc, &ranks)?;
    places(alloc, &sorted)
}
