//! Vectors that point in one direction.
ghost use Rattle.osm_geom.specs.InPlane.DirectionLaws.{CrossIsByDirection, DotIsByDirection, SectorIsByDirection, OppositesHaveOneDirection};

/// Which way vectors turn depends on their directions alone.
pub fn turns_are_by_direction()
    ensures cross { CrossIsByDirection }
    ensures dot { DotIsByDirection }
    ensures sector { SectorIsByDirection }
    ensures opposite { OppositesHaveOneDirection }
{}
