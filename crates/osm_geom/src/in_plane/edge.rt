//! Edges, multiplied by any number that makes their ends whole: what a carrier says of an edge holds in the plane.
ghost use Rattle.osm_geom.specs.InPlane.EdgeLaws.{EachEdgeIsWhole, StepHasDirection, BackHasOppositeDirection, CrossIsOfDirections, DotIsOfDirections, RunsUpAsRising, MultipleHasSegment, SpansAsSegment, JustAboveAsSegments, RightAboveAsSegments};

/// At a common multiple of a list the ends of each of its edges are whole.
pub fn edges_of_list_are_whole()
    ensures { EachEdgeIsWhole }
{}

/// The step from an edge's first end to its second points in the direction that its carrier gives.
///
/// The way back points in the opposite one, so steps turn as directions do. The edge runs up exactly if the step does.
pub fn steps_are_along_directions()
    ensures along { StepHasDirection }
    ensures back { BackHasOppositeDirection }
    ensures cross { CrossIsOfDirections }
    ensures dot { DotIsOfDirections }
    ensures rising { RunsUpAsRising }
    ensures segment { MultipleHasSegment }
{}

/// An edge spans a height exactly if its segment does.
///
/// Edges just above a height have the order of their segments in the plane.
pub fn heights_are_as_in_plane()
    ensures spans { SpansAsSegment }
    ensures order { JustAboveAsSegments }
    ensures right { RightAboveAsSegments }
{}
