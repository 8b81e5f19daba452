//! The segments that span a height.
ghost use Rattle.plane_lists.specs.Lists.LevelLaws.{SpanningSegmentsAreOrdered};

/// The segments of a conflict-free list that span a height are strictly and totally ordered, from left to right just above it.
pub fn spanning_segments_are_ordered()
    ensures { SpanningSegmentsAreOrdered }
{}
