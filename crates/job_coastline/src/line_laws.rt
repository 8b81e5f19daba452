//! A law of the lines of a coastline's report.
ghost use Rattle.job_coastline.specs.LineLaws.{LinesHaveKinds};

/// Each conflict that a report names is of the kind that its segments have.
pub fn lines_have_kinds()
    ensures { LinesHaveKinds }
{}
