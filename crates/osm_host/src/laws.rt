//! What successive calls on a host add up to: a law, without code to run.

ghost use Rattle.osm_host.specs.Laws.{StreamsAppend};

/// Written pieces, listed opens and taken bytes add up in turn, also if they are unknown.
pub fn streams_append()
    ensures { StreamsAppend }
{}
