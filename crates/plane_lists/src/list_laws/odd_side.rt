//! The odd side.
ghost use Rattle.plane_lists.specs.Lists.OddSideLaws.{EndsAreOff, RunsUpByRayUp, RunsUpByRayDown, LeavesByCount, DirectedIsBalanced, DirectedWindsByParity, DirectedIsSided, SidedIsDirected};

/// The odd side's direction of an edge, by rays.
///
/// They run along the edge from its lower end, back from its upper end, and to the right from either end.
pub fn odd_side_by_rays()
    ensures ends { EndsAreOff }
    ensures up { RunsUpByRayUp }
    ensures down { RunsUpByRayDown }
    ensures leaves { LeavesByCount }
{}

/// The odd side makes a conflict-free list without odd nodes a sided one.
///
/// As many edges leave a point as enter it, and the winding number is everywhere the parity. Each sided list has the
/// directions of the odd side.
pub fn odd_side_is_sided()
    ensures balanced { DirectedIsBalanced }
    ensures winding { DirectedWindsByParity }
    ensures sided { DirectedIsSided }
    ensures only { SidedIsDirected }
{}
