//! Polygons: an outer ring with the inner rings that it directly encloses.
ghost use Rattle.plane_lists.specs.Rings.PolygonLaws.{PolygonWindsByCover, PolygonWindsByCoverAtFractions, PolygonsCoverAsRingList, PolygonsCoverAsRingListAtFractions, PolygonIsSided, PolygonsExist, ScaledIsRingList};

/// The winding number of a polygon is 1 at points that it covers and 0 elsewhere; so it is a sided list itself.
pub fn polygon_winds_by_cover()
    ensures winding { PolygonWindsByCover }
    ensures winding_at_fractions { PolygonWindsByCoverAtFractions }
    ensures sided { PolygonIsSided }
{}

/// Polygons that have each edge of a ring list once cover together what the ring list covers, and no point twice.
///
/// Every ring list has such polygons.
pub fn polygons_cover_as_ring_list()
    ensures cover { PolygonsCoverAsRingList }
    ensures cover_at_fractions { PolygonsCoverAsRingListAtFractions }
    ensures exist { PolygonsExist }
{}

/// A ring list multiplied by a positive number is a ring list.
pub fn scaled_ring_list_is_ring_list()
    ensures { ScaledIsRingList }
{}
