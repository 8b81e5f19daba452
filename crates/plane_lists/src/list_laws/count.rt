//! The count of a list at a point.
ghost use Rattle.plane_lists.specs.Lists.CountLaws.{CountIsOfCrossedEdges, CountIsOfSegmentsRight};

/// The count at a point is the number of edges that the ray crosses.
///
/// For the ray to the right it is the number of segments that span the point's height and have the point on their left.
pub fn count_is_of_crossed_edges()
    ensures crossed { CountIsOfCrossedEdges }
    ensures right { CountIsOfSegmentsRight }
{}
