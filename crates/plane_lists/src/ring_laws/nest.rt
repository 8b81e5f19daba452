//! Which ring encloses which.
ghost use Rattle.plane_lists.specs.Rings.NestingLaws.{RingListIsNest, RingHasAnchor, OuterRunsDown, OuterByDepth, EnclosesByAnchor, EnclosingRingsBalance, DirectEncloserExists, DirectEncloserIsOne, LeftNeighbourEncloses, LeftNeighbourIsEnclosedAlike};

/// The rings of a ring list are a nest, and each has exactly one anchor.
pub fn ring_list_is_nest()
    ensures nest { RingListIsNest }
    ensures anchor { RingHasAnchor }
{}

/// A ring is outer if its anchor runs down, and exactly then an even number of rings enclose it.
pub fn outer_by_depth()
    ensures down { OuterRunsDown }
    ensures depth { OuterByDepth }
    ensures encloses { EnclosesByAnchor }
    ensures balance { EnclosingRingsBalance }
{}

/// Each inner ring is directly enclosed by exactly one outer ring.
pub fn direct_encloser_is_one()
    ensures exists { DirectEncloserExists }
    ensures one { DirectEncloserIsOne }
{}

/// The nearest edge left of the anchor of an inner ring shows the direct encloser of that ring.
///
/// It is the ring of that edge, if that is outer, and otherwise the direct encloser of that one.
pub fn left_neighbour_tells_encloser()
    ensures outer { LeftNeighbourEncloses }
    ensures inner { LeftNeighbourIsEnclosedAlike }
{}
