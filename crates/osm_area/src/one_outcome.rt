//! The law that outcomes are determined.

ghost use Rattle.osm_area.specs.OneOutcome.{OutcomeIsOne};

/// A candidate has at most one outcome.
pub fn outcome_is_one()
    ensures { OutcomeIsOne }
{}
