//! Which unclosed chains are closed, and how.

ghost use Rattle.std.specs.Prelude.{◌≡◌, IfOk, List};
ghost use Rattle.coast_join.specs.declared.chain.Chain.{Chain};
ghost use Rattle.coast_join.specs.declared.way.CoastWay.{CoastWay};
ghost use Rattle.coast_join.specs.Chains.{AreChains};
ghost use Rattle.coast_join.specs.Closings.{AreClosings, is_antarctic, is_open, open_ends, places_where};

use crate::chain::Chain;
use crate::gap::{Closings, Indexes};
use crate::laws::names_rise;
use crate::nearest_pairs::nearest_pairs;
use osm_geom::Loc;
use std::alloc::{AllocError as OutOfMemory, Global};

/// Where the chain at a place starts and ends.
#[derive(Clone, Copy)]
pub(crate) struct OpenEnds {
    pub(crate) chain: usize,
    pub(crate) start: Loc,
    pub(crate) end: Loc,
}

/// Whether a chain is unclosed, and runs round Antarctica from the eastern edge of the world to the western one.
#[tactic(auto, unfolding(crate::specs::Closings::is_antarctic))]
pub(crate) fn is_antarctic(chain: &Chain) -> bool
    ensures { result ≡ is_antarctic chain.now }
{
    let start = chain.first();
    let end = chain.last();
    !chain.closed
        && (start.x == 1_800_000_000 && end.x == -1_800_000_000)
        && (start.y < -600_000_000 && end.y < -600_000_000)
}

/// Whether a chain is unclosed, and doesn't run round Antarctica.
pub(crate) fn is_open(chain: &Chain) -> bool
    ensures { result ≡ is_open chain.now }
{
    !chain.closed && !is_antarctic(chain)
}

/// The places of the chains round Antarctica.
fn antarctica(alloc: Global, chains: &[Chain]) -> Result<Indexes, OutOfMemory>
    ensures { IfOk result (λ v. v ≡ places_where is_antarctic chains.now) }
{
    let mut places = Indexes::new(alloc);
    for (place, chain) in chains.iter().enumerate() {
        if is_antarctic(chain) {
            places.push(place)?;
        }
    }
    Ok(places)
}

/// Where the chains that take part in gaps start and end.
fn open_ends(alloc: Global, chains: &[Chain]) -> Result<Vec<OpenEnds>, OutOfMemory>
    ensures { IfOk result (λ v. v.items ≡ open_ends chains.now) }
{
    let mut ends = Vec::new(alloc);
    for (place, chain) in chains.iter().enumerate() {
        if is_open(chain) {
            ends.push(OpenEnds {
                chain: place,
                start: chain.first(),
                end: chain.last(),
            })?;
        }
    }
    Ok(ends)
}

/// Which unclosed chains are closed: those round Antarctica, and of the others the nearest pairs of an end and a start.
///
/// Each chain round Antarctica is closed. Of the others the pairs nearer than the limit are closed, the nearest first, each
/// end and start once. The limit is in units of 1e-7 degree.
///
/// For n unclosed chains it takes about time n log² n and some hundred bytes a chain, however many of them end near each
/// other. The chains are what `chains` gives. Fails only if memory runs out.
pub fn closings(alloc: Global, chains: &[Chain], limit: u32) -> Result<Closings, OutOfMemory>
    requires { (ways : List CoastWay) × AreChains ways chains.now }
    ensures { IfOk result (λ v. AreClosings chains.now limit v) }
{
    names_rise();
    let antarctica = antarctica(alloc, chains)?;
    let ends = open_ends(alloc, chains)?;
    let gaps = nearest_pairs(alloc, limit, &ends, chains.len())?;
    Ok(Closings { antarctica, gaps })
}
