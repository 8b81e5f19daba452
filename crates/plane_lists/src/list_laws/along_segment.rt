//! Along a segment.
ghost use Rattle.plane_lists.specs.Lists.AlongSegmentLaws.{ParityAlongSegment, WindingAlongSegment, ParityFromEnd, ParityFromBothEnds, ParityAlongOwnEdge};

/// A segment that shares only ends with the edges of a closed list has one parity and one winding number inside.
///
/// They are the same at all its inner points. The ray along the segment gives the parity from both of its ends, past the
/// edges that end there. Along an edge of the list the same holds for the parity of the others.
pub fn parity_is_one_along_segment()
    ensures parity { ParityAlongSegment }
    ensures winding { WindingAlongSegment }
    ensures from_end { ParityFromEnd }
    ensures from_both_ends { ParityFromBothEnds }
    ensures own_edge { ParityAlongOwnEdge }
{}
