//! Sectors between directions.
ghost use Rattle.plane.specs.SectorLaws.{SectorLemma, CountedSectorLemma};

/// The sector lemma: how turning the ray from one direction to another changes the signed crossing of a step.
///
/// It changes by whether the step ends in the sector between them, less whether it begins there.
pub fn sector_lemma()
    ensures signed { SectorLemma }
    ensures counted { CountedSectorLemma }
{}
