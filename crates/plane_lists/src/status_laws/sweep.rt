//! What changes a status, and what it shows.
ghost use Rattle.plane_lists.specs.Statuses.Fronts.{AllIsFront, FrontIsAll, NextEnters, NextPasses};
ghost use Rattle.plane_lists.specs.Statuses.Leaving.{ThoseThatStayRemain, AllAreTakenOut, NextIsTakenOut, AllRemain};
ghost use Rattle.plane_lists.specs.Statuses.StatusLaws.{ItemEnters, ItemFits, ItemLeaves, ItemPasses, ItemsRightStandLast, NeighboursAreNearest, StatusClimbs, StatusCounts, StatusRises};

/// How a status goes on. An item enters where it belongs, and one that doesn't span the height stays away.
///
/// At a greater height those that span it are left.
pub fn status_goes_on<T>()
    ensures enters { ItemEnters T }
    ensures passes { ItemPasses T }
    ensures rises { StatusRises T }
{}

/// The same, item after item of a list: the next one enters or stays away.
///
/// The status of the first ones is that of all if none of the others spans the height.
pub fn status_grows<T>()
    ensures enters { NextEnters T }
    ensures passes { NextPasses T }
    ensures all { FrontIsAll T }
    ensures front { AllIsFront T }
{}

/// Items that end are taken out one after the other in the order of a list. At last those that stay remain.
pub fn status_remains<T>()
    ensures first { AllRemain T }
    ensures next { NextIsTakenOut T }
    ensures all { AllAreTakenOut T }
    ensures last { ThoseThatStayRemain T }
{}

/// The same by neighbours alone.
///
/// An item goes between two that are left and right of it, or is taken out. Items that span two heights alike have the same
/// order at both.
pub fn status_goes_on_by_neighbours<T>()
    ensures fits { ItemFits T }
    ensures leaves { ItemLeaves T }
    ensures climbs { StatusClimbs T }
{}

/// Items that span the height count in the status as in the whole list, and of two neighbours each is the other's nearest.
pub fn status_tells<T>()
    ensures counts { StatusCounts T }
    ensures last { ItemsRightStandLast T }
    ensures nearest { NeighboursAreNearest T }
{}
