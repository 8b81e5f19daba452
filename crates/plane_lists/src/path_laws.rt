//! Polygonal lines that meet no edge of a list, and the interior of a polygon, which is connected.

ghost use Rattle.plane_lists.specs.Paths.LineLaws.{ApartSharesNoPoint, JoinedToItself, JoinedIsSymmetric, JoinedIsTransitive, JoinedIsOff, JoinedWindsAlike, ScaledIsJoined};
ghost use Rattle.plane_lists.specs.Paths.BesideLaws.{EdgePartsInside, WindsAcrossEdge, BesideIsInside, EdgeHasBeside, BesideOneEdgeJoined, SuccessorIsBeside, AcrossIsBeside, InsideReachesEdge};
ghost use Rattle.plane_lists.specs.Paths.ConnectedLaws.{LineStaysInside, LinkedInsideIsJoined, PolygonIsConnected, PolygonsAreParts};

/// A straight line keeps a step apart from an edge exactly if the two share no point.
pub fn apart_shares_no_point()
    ensures { ApartSharesNoPoint }
{}

/// Being joined is an equivalence of the points off the list, and doesn't change if all is multiplied.
pub fn joined_is_equivalence()
    ensures itself { JoinedToItself }
    ensures symmetric { JoinedIsSymmetric }
    ensures transitive { JoinedIsTransitive }
    ensures off { JoinedIsOff }
    ensures winding { JoinedWindsAlike }
    ensures scaled { ScaledIsJoined }
{}

/// Each edge of a sided list has the inside on its left, all along, and the outside on its right.
///
/// Across an edge of any closed list the winding number changes by how often the edge is in the list.
pub fn edge_parts_inside()
    ensures parts { EdgePartsInside }
    ensures winds { WindsAcrossEdge }
{}

/// The left side of an edge isn't empty, is inside, and any two of its points are joined.
///
/// It is joined to that of the successor, and across to that of the nearest edge on the left. Each point inside is joined to
/// one of these sides.
pub fn left_sides_are_joined()
    ensures beside { BesideIsInside }
    ensures some { EdgeHasBeside }
    ensures edge { BesideOneEdgeJoined }
    ensures successor { SuccessorIsBeside }
    ensures across { AcrossIsBeside }
    ensures inside { InsideReachesEdge }
{}

/// A line that begins inside and meets no edge stays inside.
pub fn line_stays_inside()
    ensures { LineStaysInside }
{}

/// The interior of a polygon is connected.
///
/// The interiors of the polygons are the connected parts of the inside of the list.
pub fn polygon_is_connected()
    ensures linked { LinkedInsideIsJoined }
    ensures polygon { PolygonIsConnected }
    ensures parts { PolygonsAreParts }
{}
