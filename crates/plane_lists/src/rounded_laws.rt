//! Closed lists of edges whose points are each moved a little, or rounded to a whole point.
//!
//! The laws say which points they go round, with fractions, too.

ghost use Rattle.plane_lists.specs.Rounded.ClearLaws.{ClearHasNoPoint};
ghost use Rattle.plane_lists.specs.Rounded.FactorLaws.{FactorRoundsAlike};
ghost use Rattle.plane_lists.specs.Rounded.MovedLaws.{MovedIsOff, MovedWindsAlike, MovedIsOddAlike};
ghost use Rattle.plane_lists.specs.Rounded.RoundedLaws.{BeyondIsOff, RoundedIsNear, RoundedIsOff, RoundedWindsAlike, RoundedIsOddAlike};
ghost use Rattle.plane_lists.specs.Rounded.Steps.{StepsWindAlike, StepsAreCrossedAlike, StepsAreBalanced};

/// A straight line keeps an edge apart from a square exactly if no point of the edge is in the square.
pub fn clear_has_no_point()
    ensures { ClearHasNoPoint }
{}

/// What changes if each point of a closed list is moved by at most h in x and in y.
///
/// Nothing changes at points whose square of side 2 h meets no edge.
pub fn moved_winds_alike()
    ensures off { MovedIsOff }
    ensures winding { MovedWindsAlike }
    ensures parity { MovedIsOddAlike }
{}

/// What changes if each point of a closed list is rounded to a whole point.
///
/// A point moves by at most half a unit in x and in y. Nothing changes at points with rational coordinates whose closed unit
/// square meets no edge.
pub fn rounded_winds_alike()
    ensures near { RoundedIsNear }
    ensures beyond { BeyondIsOff }
    ensures off { RoundedIsOff }
    ensures winding { RoundedWindsAlike }
    ensures parity { RoundedIsOddAlike }
{}

/// Edges that are a point, as equal neighbours leave, count nothing and may be left out.
pub fn points_count_nothing()
    ensures winding { StepsWindAlike }
    ensures crossed { StepsAreCrossedAlike }
    ensures balanced { StepsAreBalanced }
{}

/// Two fractions of one value are rounded alike.
pub fn factor_rounds_alike()
    ensures { FactorRoundsAlike }
{}
