//! Signs and directions.
ghost use Rattle.plane.specs.SignLaws.{PlusMeans, MinusMeans, NullMeans, NonzeroIsDirection, SegmentHasDirection};

/// A sign, in terms of orders.
pub fn sign_means()
    ensures plus { PlusMeans }
    ensures minus { MinusMeans }
    ensures null { NullMeans }
{}

/// A vector that isn't zero has a direction, and so has a segment.
pub fn direction_is_not_zero()
    ensures vector { NonzeroIsDirection }
    ensures segment { SegmentHasDirection }
{}
