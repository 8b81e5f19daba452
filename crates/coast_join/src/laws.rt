//! Laws of chains. Each function's contract is the law; the body calls the laws that it rests on.

ghost use Rattle.coast_join.specs.ChainLaws.{ChainsAreOne, ChainsExist, ClosedNamesAreLeast, NamesRise, UnclosedEndsDiffer, WaysStandOnce};

use orbits::{each_stands_once, orbits_are_determined};
use osm_geom::orders_are_exact;

/// No unclosed chain ends where an unclosed chain, itself or another, starts.
pub fn unclosed_ends_differ()
    ensures { UnclosedEndsDiffer }
{
    orders_are_exact();
    each_stands_once();
}

/// Chains are in order of name, and no two have one name.
pub fn names_rise()
    ensures { NamesRise }
{
    each_stands_once();
}

/// Ways have at most one list of chains.
pub fn chains_are_determined()
    ensures { ChainsAreOne }
{
    orbits_are_determined();
}

/// Ways with different ids have chains.
pub fn chains_exist()
    ensures { ChainsExist }
{
    orders_are_exact();
    each_stands_once();
    orbits_are_determined();
}

/// A closed chain is named by the least of its ways.
pub fn closed_names_are_least()
    ensures { ClosedNamesAreLeast }
{
    each_stands_once();
}

/// Each way is in exactly one of the chains, and there once.
pub fn ways_stand_once()
    ensures { WaysStandOnce }
{
    each_stands_once();
}
