//! The direction of a ray.
ghost use Rattle.plane_lists.specs.Lists.DirectionLaws.{TurningChangesWinding, TurningChangesParity, WindingIsDirectionFree, ParityIsDirectionFree};

/// How turning the ray from a point off a list changes its crossings.
///
/// The signed crossings change by what begins and ends in the sector between. The number of crossings changes by the number
/// of all ends there, modulo 2.
pub fn turning_counts_ends()
    ensures winding { TurningChangesWinding }
    ensures parity { TurningChangesParity }
{}

/// Direction independence of the winding number and of the parity.
///
/// If each point is left as often as entered, the winding number is the same for every direction of the ray. If each point
/// is an end of an even number of edges, the parity is.
pub fn direction_does_not_matter()
    ensures winding { WindingIsDirectionFree }
    ensures parity { ParityIsDirectionFree }
{}
