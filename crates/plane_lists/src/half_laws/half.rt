//! Halves of sided lists.
ghost use Rattle.plane_lists.specs.Halves.HalfLaws.{HalfIsBalanced, HalfIsPlain, HalfKeepsCount, HalfIsEmptyBeyond, HalfIsSided};

/// The half of a sided list is sided.
///
/// It leaves each point as often as it enters it. No two of its edges share a point that isn't an end of both. It goes round
/// each point off it once or not at all.
pub fn half_is_sided()
    ensures balanced { HalfIsBalanced }
    ensures plain { HalfIsPlain }
    ensures sided { HalfIsSided }
{}

/// The half has the list's signed count at points off the list and strictly on the kept side.
///
/// At points strictly on the other side it has 0. Both hold at points with fractions too.
pub fn half_counts_as_list()
    ensures kept { HalfKeepsCount }
    ensures beyond { HalfIsEmptyBeyond }
{}
