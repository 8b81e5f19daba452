//! What is cut out of rings.

use lists::List;
use osm_lattice::Loc;

/// A run of locations that was cut out of a ring, by the location before it and the one behind it.
#[derive(Clone, Copy, Debug, PartialEq, Eq)]
pub struct Cut {
    /// The name of the ring.
    pub ring: i64,
    pub from: Loc,
    pub to: Loc,
}

/// Cuts, in order.
pub type Cuts = List<Cut>;
