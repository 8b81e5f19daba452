//! Edges that keep clear of a segment.
ghost use Rattle.plane.specs.FreeSegmentLaws.{MissesBothWays, InnerPointIsOff, InnerPointsSeeAlike, EndSeesAlike, EdgeAtEndIsNotCrossed};

/// How the rays along a segment from s to t meet an edge with no point strictly between s and t.
///
/// From all inner points of the segment they meet it in the same way. So does the ray from s, if s isn't on the edge. No ray
/// from an inner point meets an edge that ends at s.
pub fn free_segment_sees_alike()
    ensures both_ways { MissesBothWays }
    ensures off { InnerPointIsOff }
    ensures inside { InnerPointsSeeAlike }
    ensures from_end { EndSeesAlike }
    ensures at_end { EdgeAtEndIsNotCrossed }
{}
