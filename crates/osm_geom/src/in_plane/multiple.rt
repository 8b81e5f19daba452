//! Lists of edges, multiplied by any number that makes their points whole.
ghost use Rattle.osm_geom.specs.InPlane.SidedLaws.{MultipleOfMultiple, CommonDenIsCommon, SidedAtEachMultiple, CountAtEachMultiple, SignedCountAtEachMultiple};

/// Once all points of a list are whole, multiplying it further only scales the plane's list.
pub fn further_multiple_is_scaled()
    ensures { MultipleOfMultiple }
{}

/// The product of all denominators of a list makes all of its points whole.
pub fn product_is_common()
    ensures { CommonDenIsCommon }
{}

/// A list is sided, or not, and has the same counts at every number that makes all its points whole.
pub fn every_multiple_is_alike()
    ensures sided { SidedAtEachMultiple }
    ensures count { CountAtEachMultiple }
    ensures signed { SignedCountAtEachMultiple }
{}
