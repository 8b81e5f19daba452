//! What the locator answers.

use lists::List;
use osm_elements::ObjectRef;
use osm_lattice::Loc;

/// An area that holds a location, or has it on it.
#[derive(Clone, Copy, Debug, PartialEq, Eq)]
pub struct Hit {
    /// The way or relation that has the area.
    pub of: ObjectRef,
    /// Whether the location lies on the area's boundary. Otherwise it lies in the area, off the boundary.
    pub on: bool,
}

/// Hits of one location, in order of the candidates.
pub type Hits = List<Hit>;

/// A location and all of its hits.
#[derive(Debug, Drop)]
pub struct Found {
    /// The location.
    pub at: Loc,
    /// One hit for each area that holds it or has it on it.
    pub hits: Hits,
}

/// One entry for each location that was asked for, in order.
pub type FoundList = List<Found>;
