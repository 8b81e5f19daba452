//! Laws of nesting. Each function has an empty body; its contract is the law.
ghost use Rattle.osm_nest.specs.Laws.{NestedAreAround, NestedAreSided, NestedCoverAsRings, NestedHaveKinds, NestingExists, RingsAreClear, RingsCountAsEdges, RingsMayBeNested, RingsRunAlongSegments};

use osm_rings::rings_do_not_cross;

/// The rings that a sided list of edges is cut into may be nested. They run along whole segments if the edges do.
pub fn rings_may_be_nested()
    ensures nested { RingsMayBeNested }
    ensures whole { RingsRunAlongSegments }
{
    rings_do_not_cross();
}

/// No ring that may be nested has a conflict among its own edges, so `is_outer` applies to it.
pub fn rings_are_clear()
    ensures { RingsAreClear }
{}

/// Every list of rings that may be nested has its polygons in order, however much memory there is.
pub fn nesting_exists()
    ensures { NestingExists }
{}

/// In every polygon of nested rings the first ring is outer and the others are inner, as their anchors show.
///
/// An odd number of the outer ring's edges are right of each inner ring's anchor.
pub fn nested_have_kinds()
    ensures kinds { NestedHaveKinds }
    ensures around { NestedAreAround }
{}

/// The edges of each polygon of nested rings are sided.
///
/// Exactly one polygon covers a point at which the parity of the rings is odd, and none covers one at which it is even. That
/// parity is that of the list of edges that was cut into the rings.
pub fn nested_cover_as_rings()
    ensures sided { NestedAreSided }
    ensures cover { NestedCoverAsRings }
    ensures edges { RingsCountAsEdges }
{}
