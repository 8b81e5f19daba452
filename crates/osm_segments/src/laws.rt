//! Laws of repeated segments and of conflicts. Each function has an empty body; its contract is the law.
ghost use Rattle.osm_segments.specs.Laws.{ConflictsHaveTheirKind, RepeatsAreOne, RepeatsExist};

/// Every list of segments has a list of those that occur at least twice in it, however much memory there is.
pub fn repeats_exist()
    ensures { RepeatsExist }
{}

/// It has at most one such list.
pub fn repeats_are_one()
    ensures { RepeatsAreOne }
{}

/// Each conflict among segments is of the kind that its two segments have.
pub fn conflicts_have_their_kind()
    ensures { ConflictsHaveTheirKind }
{}
