//! Laws of the orders of locations and segments, of conflicts and of meeting points. Each function has an empty body; its contract is the law.
ghost use Rattle.osm_lattice.specs.ConflictLaws.{ConflictIsSymmetric};
ghost use Rattle.osm_lattice.specs.ConflictPoints.{CrossingHasOnePoint, OverlapHasManyPoints, ClearSegmentsMeetAtEnds};
ghost use Rattle.osm_lattice.specs.MeetingLaws.{CrossingSegmentsMeet};
ghost use Rattle.osm_lattice.specs.OrderLaws.{LocationOrderIsPointOrder, LocationOrderTellsApart, SegmentOrderTellsApart};

/// Locations are in the order of the plane's points.
///
/// Two locations, and two segments, tie exactly if they are equal.
pub fn orders_are_exact()
    ensures points { LocationOrderIsPointOrder }
    ensures locations { LocationOrderTellsApart }
    ensures segments { SegmentOrderTellsApart }
{}

/// How two segments conflict doesn't depend on which is named first.
pub fn conflicts_are_symmetric()
    ensures { ConflictIsSymmetric }
{}

/// Two segments that cross have a point in common: what `meeting` gives exists, whether it is called or not.
pub fn meetings_exist()
    ensures { CrossingSegmentsMeet }
{}

/// How two segments conflict follows from the points that they share.
///
/// They cross exactly if they share one point, which isn't an end of both. They overlap exactly if they differ and share
/// more than one point. Two different ones have no conflict exactly if they share no points but ends of both.
pub fn conflicts_are_told_by_points()
    ensures crossing { CrossingHasOnePoint }
    ensures overlap { OverlapHasManyPoints }
    ensures clear { ClearSegmentsMeetAtEnds }
{}
