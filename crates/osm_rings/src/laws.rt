//! Laws of successors and ring lists, for edges with any points. Each function has an empty body; its contract is the law.
ghost use Rattle.osm_rings.specs.Laws.{RingListOfEdgesExists, RingsOfEdgesDoNotCross, SuccessorExists, SuccessorIsOneToOne, SuccessorLeaves};

/// In a sided list each edge has a successor, which leaves the node that the edge enters.
///
/// No edge is the successor of two.
pub fn successors_are_one_to_one()
    ensures exists { SuccessorExists }
    ensures leaves { SuccessorLeaves }
    ensures one_to_one { SuccessorIsOneToOne }
{}

/// Every sided list has a ring list of its own edges, as `rings` gives one.
pub fn ring_list_of_edges_exists()
    ensures { RingListOfEdgesExists }
{}

/// No two of the rings that a sided list of edges is cut into cross.
///
/// Going round a point that both pass, the two edges of one don't alternate with those of the other.
pub fn rings_do_not_cross()
    ensures { RingsOfEdgesDoNotCross }
{}
