//! Lists multiplied by a positive number, for points and edges with fractions.
ghost use Rattle.plane_lists.specs.Lists.ScaledListLaws.{ScaledIsConflictFree, ScaledIsEven, ScaledIsDirectedAlike, ScaledCountIsSame, DirectedWindsByParityAtFractions};

/// A list multiplied by a positive number has the same conflicts, ends, directions and counts.
pub fn scaled_list_is_alike()
    ensures conflict_free { ScaledIsConflictFree }
    ensures even { ScaledIsEven }
    ensures directed { ScaledIsDirectedAlike }
    ensures count { ScaledCountIsSame }
    ensures fractions { DirectedWindsByParityAtFractions }
{}
