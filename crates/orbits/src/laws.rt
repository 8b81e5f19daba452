//! Laws of orbits. Each function has an empty body; its contract is the law.
ghost use Rattle.orbits.specs.OnceLaws.{StandBelow, StandApart, SumsAgree};
ghost use Rattle.orbits.specs.OrbitLaws.{OrbitsExist, OrbitsAreOne};

/// Lists that share out the numbers below n hold no others, and none of them holds a number twice.
///
/// A sum over them is the sum over these numbers.
pub fn each_stands_once()
    ensures below { StandBelow }
    ensures apart { StandApart }
    ensures sums { SumsAgree }
{}

/// Every partial one-to-one map has exactly one list of orbits in order.
pub fn orbits_are_determined()
    ensures exist { OrbitsExist }
    ensures one { OrbitsAreOne }
{}
