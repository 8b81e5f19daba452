//! Segments with and without conflict.
ghost use Rattle.plane.specs.ConflictLaws.{OverlapIsSymmetric, CrossingIsSymmetric, ConflictIsSymmetric, SegmentOverlapsItself, ClearSegmentMisses, ClearEndIsOff};

/// Whether two segments overlap, cross or conflict doesn't depend on which is named first. A segment overlaps itself.
pub fn conflict_is_symmetric()
    ensures overlap { OverlapIsSymmetric }
    ensures crossing { CrossingIsSymmetric }
    ensures conflict { ConflictIsSymmetric }
    ensures itself { SegmentOverlapsItself }
{}

/// Two segments that don't conflict share no point that isn't an end of both.
///
/// No point of one is strictly between the ends of the other. An end of one that isn't an end of the other is off the other.
pub fn clear_segments_share_only_ends()
    ensures between { ClearSegmentMisses }
    ensures ends { ClearEndIsOff }
{}
