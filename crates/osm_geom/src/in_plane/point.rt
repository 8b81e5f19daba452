//! Points, multiplied by any number that makes them whole.
ghost use Rattle.osm_geom.specs.InPlane.PointLaws.{PointsAreInOrder, PointsAreToldApart};

/// Exact points have the order of their multiples in the plane, and different ones have different multiples.
pub fn points_are_as_in_plane()
    ensures order { PointsAreInOrder }
    ensures apart { PointsAreToldApart }
{}
