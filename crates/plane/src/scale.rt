//! Points and edges multiplied by a positive number, for points and edges with fractions.
ghost use Rattle.plane.specs.ScaleLaws.{ScaledOrderIsSame, ScaledSideIsSame, ScaledConflictIsSame, ScaledLeftIsSame, ScaledCrossingIsSame, ScaledSectorIsSame};

/// The order of points, sides, conflicts, crossings and sectors stay the same if all is multiplied by one positive number.
pub fn scaling_changes_nothing()
    ensures order { ScaledOrderIsSame }
    ensures side { ScaledSideIsSame }
    ensures conflict { ScaledConflictIsSame }
    ensures left { ScaledLeftIsSame }
    ensures crossing { ScaledCrossingIsSame }
    ensures sector { ScaledSectorIsSame }
{}
