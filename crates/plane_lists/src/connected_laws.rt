//! The interior of each polygon is connected: steps along the left sides of its edges lead from each edge to every other.

ghost use Rattle.plane_lists.specs.Connected.Laws.{WalkHasOneOuterRing, PolygonHasWholeWalks, PolygonHasSuccessors, PolygonIsRingListOf, LeftNeighbourExists, LeftNeighbourIsEarlier, PolygonIsLinked, LinkedIsOnePolygon};

/// A polygon that has one edge of a walk has all of its edges.
///
/// Polygons that each have an edge of one walk have one outer ring. The successor of an edge of a polygon is its successor
/// in the polygon, and the rings of a polygon are the ring list of its edges.
pub fn polygon_has_whole_walks()
    ensures outer { WalkHasOneOuterRing }
    ensures walks { PolygonHasWholeWalks }
    ensures successors { PolygonHasSuccessors }
    ensures rings { PolygonIsRingListOf }
{}

/// In a sided list the nearest edge left of an edge that runs up runs down, and its walk begins earlier.
pub fn left_neighbour_is_earlier()
    ensures exists { LeftNeighbourExists }
    ensures earlier { LeftNeighbourIsEarlier }
{}

/// Any two edges of a polygon are joined by steps.
///
/// The steps go from edges to their successors, and across from edges that run up to the nearest edges on their left. In the
/// whole list they join no edges of two polygons.
pub fn polygon_is_linked()
    ensures within { PolygonIsLinked }
    ensures one { LinkedIsOnePolygon }
{}
