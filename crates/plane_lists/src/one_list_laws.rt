//! A sided list has exactly one ring list: the rings that its walks are cut into are determined.

ghost use Rattle.plane_lists.specs.OneRingList.Laws.{WalkSeesAlike, ClosedPartsShareOnePoint, PointsDoNotAlternate, RingsOfWalksAreOne, RingListIsOne, CutsAreRingListOf, CutsAreOne, KindsAreOne, DirectEnclosureIsOne, RingsDoNotCross, WalksAreNeeded};

/// All edges of a walk see a list alike.
///
/// Two closed parts of a walk share only the point at which they are cut. So a walk doesn't meet two points alternately.
pub fn closed_parts_share_one_point()
    ensures sees { WalkSeesAlike }
    ensures one_point { ClosedPartsShareOnePoint }
    ensures no_turns { PointsDoNotAlternate }
{}

/// Two rings of walks that have an edge in common are one.
///
/// So a sided list has at most one ring list, up to the order of the rings and where each begins. No two of its rings cross.
/// The condition that each ring lies within one walk can't be left out.
pub fn ring_list_is_one()
    ensures ring { RingsOfWalksAreOne }
    ensures ring_list { RingListIsOne }
    ensures uncrossed { RingsDoNotCross }
    ensures needed { WalksAreNeeded }
{}

/// Pieces that are cut off walks are the ring list, in whatever order they are cut off.
pub fn cuts_are_one()
    ensures ring_list { CutsAreRingListOf }
    ensures one { CutsAreOne }
{}

/// The one ring list nests in one way, whatever the order of its rings and wherever they begin.
pub fn nesting_is_one()
    ensures kinds { KindsAreOne }
    ensures direct { DirectEnclosureIsOne }
{}
