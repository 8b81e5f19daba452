//! Laws of closed chains, and of the rings that gaps give.
//!
//! Each function's contract is the law; the body calls the laws that it rests on.
ghost use Rattle.coast_join.specs.RingLaws.{ClosedEndsDiffer, ClosingsAreOne, ClosingsExist, JoinedExists, JoinedIsOne, RingsBeginLeast};

use crate::gap::Gap;
use crate::laws::{names_rise, unclosed_ends_differ};
use lists::counted_lists_exist;
use orbits::{each_stands_once, orbits_are_determined};
use osm_geom::orders_are_exact;

/// The path of a closed chain doesn't end where it starts: the step from its last location to its first closes it.
pub fn closed_ends_differ()
    ensures { ClosedEndsDiffer }
{}

/// Chains have at most one `Closings` for a limit.
pub fn closings_are_determined()
    ensures { ClosingsAreOne }
{
    names_rise();
}

/// Chains have a `Closings` for each limit.
pub fn closings_exist()
    ensures { ClosingsExist }
{
    names_rise();
    counted_lists_exist::<Gap>();
}

/// Chains and their closings have at most one `Joined`.
pub fn joined_is_determined()
    ensures { JoinedIsOne }
{
    orbits_are_determined();
}

/// Chains and their closings have a `Joined`.
pub fn joined_exists()
    ensures { JoinedExists }
{
    orders_are_exact();
    each_stands_once();
    orbits_are_determined();
    names_rise();
    unclosed_ends_differ();
    closed_ends_differ();
}

/// Each ring begins with the chain of the least name among its chains.
pub fn rings_begin_at_least_names()
    ensures { RingsBeginLeast }
{
    names_rise();
    each_stands_once();
}
