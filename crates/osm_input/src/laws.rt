//! Which lines of an input count: a law, without code to run.

ghost use Rattle.osm_input.specs.Laws.{LinesCount};

/// Whether an input keeps the limit decides which of its lines count.
pub fn limit_decides_the_lines()
    ensures { LinesCount }
{}
