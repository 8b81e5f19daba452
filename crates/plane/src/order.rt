//! The order of points.
ghost use Rattle.plane.specs.OrderLaws.{PointOrderTellsApart, PointOrderReverses, PointOrderIsTransitive};

/// Points are strictly and totally ordered by y, then by x.
pub fn points_are_ordered()
    ensures tells_apart { PointOrderTellsApart }
    ensures reverses { PointOrderReverses }
    ensures transitive { PointOrderIsTransitive }
{}
