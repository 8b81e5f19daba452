//! Lists of locations, of segments and of ids. Contracts see each as the list of its items.

use crate::loc::Loc;
use crate::seg::Seg;
use lists::List;

/// The locations that a line passes, in order.
pub type Path = List<Loc>;

/// A list of locations.
pub type Locs = List<Loc>;

/// A list of segments.
pub type Segs = List<Seg>;

/// A list of ids of OpenStreetMap objects.
pub type Ids = List<i64>;
