//! Coastline ways, and lists of them.

ghost use Rattle.std.specs.Prelude.{◌≡◌};
ghost use Rattle.coast_rings.specs.Line.{IsLine, first_location, last_location};

use lists::List;
use osm_geom::{Loc, Path};

/// A coastline way that takes part: its id, and the locations of its references in order.
///
/// Equal neighbours are taken once. There are at least two locations. A way that ends where it starts has that location at
/// both ends.
#[derive(Debug, Drop)]
pub struct CoastWay {
    pub id: i64,
    pub path: Path,
    pub ghost line: { IsLine path },
}

impl CoastWay {
    /// Its first location.
    pub fn first(&self) -> Loc
        ensures { result ≡ first_location self.now.path }
    {
        self.path.as_slice()[0]
    }

    /// Its last location.
    pub fn last(&self) -> Loc
        ensures { result ≡ last_location self.now.path }
    {
        let path = self.path.as_slice();
        path[path.len() - 1]
    }
}

/// What keeps a coastline way from taking part.
#[derive(Clone, Copy, Debug, PartialEq, Eq)]
pub enum Aside {
    /// The node of a reference that has no location.
    Missing { way: i64, node: i64 },
    /// Fewer than two locations are left once equal neighbours are taken once.
    Short { way: i64 },
}

/// Coastline ways that take part, in order.
pub type CoastWays = List<CoastWay>;

/// What keeps coastline ways from taking part, in order.
pub type Asides = List<Aside>;
