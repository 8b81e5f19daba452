//! Laws of the orders of points, of edges and of directions, and of floors. Each function has an empty body; its contract is the law.
ghost use Rattle.osm_geom.specs.Coordinate.{CeilingIsLeast, FloorIsGreatest};
ghost use Rattle.osm_geom.specs.TotalOrders.{PointOrderIsTotal, PointOrderTellsApart, OrderAboveReverses, OrderAboveIsTransitive, OrderAboveTiesAlike, OrderAboveTellsLinesApart, ClockwiseOrderIsTotal, ClockwiseOrderTellsApart};

/// The order of `compare_points` is total, and `Equal` only for equal points.
pub fn point_order_is_total()
    ensures total { PointOrderIsTotal }
    ensures apart { PointOrderTellsApart }
{}

/// The order of `compare_just_above` is total among the edges that span the height.
///
/// It is `Equal` exactly for edges whose carriers lie on one line.
pub fn order_above_is_total()
    ensures reverses { OrderAboveReverses }
    ensures transitive { OrderAboveIsTransitive }
    ensures ties { OrderAboveTiesAlike }
    ensures apart { OrderAboveTellsLinesApart }
{}

/// The order of `clockwise` is total around each direction, and `Equal` only for equal directions.
pub fn clockwise_order_is_total()
    ensures total { ClockwiseOrderIsTotal }
    ensures apart { ClockwiseOrderTellsApart }
{}

/// The floor of a fraction is the greatest whole number that is at most the fraction.
///
/// Its ceiling is the least that is at least the fraction.
pub fn floors_are_next()
    ensures floor { FloorIsGreatest }
    ensures ceiling { CeilingIsLeast }
{}
