//! Edges in the order in which the horizontal ray meets them.
ghost use Rattle.plane.specs.HeightLaws.{NoEdgeIsRightOfItself, RightAboveIsTransitive, OrderAbovePersists};

/// The edges that span a height are strictly ordered just above it.
///
/// Two that don't conflict have one order wherever both span.
pub fn order_above_persists()
    ensures itself { NoEdgeIsRightOfItself }
    ensures transitive { RightAboveIsTransitive }
    ensures persists { OrderAbovePersists }
{}
