//! Laws of directed segments. Each function has an empty body; its contract is the law.
ghost use Rattle.osm_sides.specs.Laws.{DirectedAreOfPlane, DirectedAreSided, DirectedAreWhole, DirectionsAreOne, DirectionsExist};

/// Whatever edges survivors are directed to, these are sided, and each runs along a whole segment.
///
/// They are the edges that the odd side directs in the plane.
pub fn directing_is_sided()
    ensures whole { DirectedAreWhole }
    ensures sided { DirectedAreSided }
    ensures plane { DirectedAreOfPlane }
{}

/// Every list of segments is directed to edges, however much memory there is.
pub fn directions_exist()
    ensures { DirectionsExist }
{}

/// Segments are directed to at most one list of edges.
pub fn directions_are_one()
    ensures { DirectionsAreOne }
{}
