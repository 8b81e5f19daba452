//! Rings of coastline, and lists of them.

ghost use Rattle.coast_rings.specs.Round.{IsRound};

use lists::List;
use osm_geom::Path;

/// A closed line of coast, named by the least id of its ways.
///
/// It has at least two locations, in order. No two neighbours are equal, the last and the first included.
#[derive(Debug, Drop)]
pub struct CoastRing {
    pub name: i64,
    pub path: Path,
    pub ghost round: { IsRound path },
}

/// Rings of coastline, in order.
pub type CoastRings = List<CoastRing>;
