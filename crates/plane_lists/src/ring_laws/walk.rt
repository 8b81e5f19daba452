//! Walks and the rings that are cut off them.
ghost use Rattle.plane_lists.specs.Rings.WalkLaws.{EdgesAlternate, NeighboursAreCoveredAlike, SuccessorExists, SuccessorIsOne, SuccessorLeaves, SuccessorIsOneToOne, WalksExist, PieceIsRingOfOneWalk, PiecesHoldEachEdge, PiecesCoverAllOrNone, PiecesAreRingList, StackCuts, StackGivesRingList, RingListExists, RotatedIsRingList};

/// Round a node of a sided list edges alternately enter and leave.
///
/// A list that holds neither of two neighbours covers both or none.
pub fn edges_alternate_round_node()
    ensures turns { EdgesAlternate }
    ensures neighbours { NeighboursAreCoveredAlike }
{}

/// Each edge of a sided list has exactly one successor and is the successor of at most one; so the edges make walks.
pub fn successor_is_one_to_one()
    ensures exists { SuccessorExists }
    ensures one { SuccessorIsOne }
    ensures leaves { SuccessorLeaves }
    ensures one_to_one { SuccessorIsOneToOne }
    ensures walks { WalksExist }
{}

/// Pieces that are cut off the walks wherever a point recurs are rings that don't cross: a ring list.
pub fn pieces_are_ring_list()
    ensures ring { PieceIsRingOfOneWalk }
    ensures each_edge { PiecesHoldEachEdge }
    ensures cover { PiecesCoverAllOrNone }
    ensures ring_list { PiecesAreRingList }
{}

/// A stack cuts such pieces, so every sided list has a ring list; its rings may begin at any of their edges.
pub fn ring_list_exists()
    ensures cuts { StackCuts }
    ensures stack { StackGivesRingList }
    ensures exists { RingListExists }
    ensures rotated { RotatedIsRingList }
{}
