//! Round a node.
ghost use Rattle.plane_lists.specs.Lists.RoundNodeLaws.{ParityRoundNode, ParityRoundNodeButEdge, ParityBetweenSegments, ParityRoundPoint};

/// How turning the ray at a node changes what it crosses past the edges at the node.
///
/// Modulo 2, this changes by the number of edges at the node in the sector that the ray is turned through.
pub fn parity_changes_round_node()
    ensures node { ParityRoundNode }
    ensures but_edge { ParityRoundNodeButEdge }
    ensures between_segments { ParityBetweenSegments }
    ensures point { ParityRoundPoint }
{}
