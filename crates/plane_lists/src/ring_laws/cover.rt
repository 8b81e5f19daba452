//! What lists cover.
ghost use Rattle.plane_lists.specs.Rings.CoverLaws.{CoverIsOneAlongRing, NotEachCoversOther, CoverOfEdgesIsCover, ApartCoverNothingInCommon};

/// What two lists that don't cross cover.
///
/// Each covers all edges of the other or none. They don't both cover all edges of the other. If one covers the edges of the
/// other, it covers all that the other covers. If neither does, they cover no point in common.
pub fn cover_of_two_lists()
    ensures along_ring { CoverIsOneAlongRing }
    ensures not_each { NotEachCoversOther }
    ensures within { CoverOfEdgesIsCover }
    ensures apart { ApartCoverNothingInCommon }
{}
