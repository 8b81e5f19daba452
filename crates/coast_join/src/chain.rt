//! Chains of coastline ways, and lists of them.

ghost use Rattle.std.specs.Prelude.{◌≡◌, ◌<◌, length};
ghost use Rattle.coast_rings.specs.Line.{IsLine, first_location, last_location};

use lists::List;
use osm_geom::{Ids, Loc, Path};

/// Coastline ways of which each goes on to the next. The chain is closed if the last goes on to the first.
///
/// An unclosed chain is named by its first way. A closed one is named by its least way and begins with that one. The path
/// has the locations in order. Each location at which one way goes on to the next occurs in it once, and a closed path ends
/// before it returns to its start.
#[derive(Debug, Drop)]
pub struct Chain {
    pub name: i64,
    pub ways: Ids,
    pub path: Path,
    pub closed: bool,
    pub ghost line: { IsLine path },
    pub ghost some: { 0 < length ways },
}

impl Chain {
    /// Its first location.
    pub fn first(&self) -> Loc
        ensures { result ≡ first_location self.now.path }
    {
        self.path.as_slice()[0]
    }

    /// Its last location.
    pub fn last(&self) -> Loc
        ensures { result ≡ last_location self.now.path }
    {
        let path = self.path.as_slice();
        path[path.len() - 1]
    }
}

/// Chains, in order.
pub type Chains = List<Chain>;
