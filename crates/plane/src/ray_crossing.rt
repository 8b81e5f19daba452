//! Crossings of a ray.
ghost use Rattle.plane.specs.RayCrossingLaws.{UpCrossingMeans, DownCrossingMeans, RightwardRayCrosses};

/// A crossing of a ray by a step, in terms of orders.
///
/// The step goes from not above the ray's line to above it or back, on the ray's side of the origin. For the ray to the
/// right this is the half-open rule: the segment spans the point's height and the point is left of it.
pub fn ray_crossing_means()
    ensures up { UpCrossingMeans }
    ensures down { DownCrossingMeans }
    ensures rightward { RightwardRayCrosses }
{}
