//! The work: makes the text of the coast before the output is opened, and then writes it.

ghost use Rattle.std.specs.Prelude.{[], ◌∷◌};
ghost use Rattle.job_small.specs.Filtering.Filter.{Filters};
ghost use Rattle.osm_job.specs.Spared.{SparesOutput};
ghost use Rattle.osm_words.specs.Answers.{filter_seen};

use crate::filter::laws::filters_exist;
use coast_filter::filter;
use osm_host::{Host, streams_append};
use osm_job::{Ended, read_input, write_text};
use osm_words::FilterSettings;
use std::alloc::Global;

/// Reads the input, opens the output and writes the coast of the input as OPL.
///
/// First come the nodes that its coast ways name, and then these ways. Nothing is written if there is no coast.
pub fn filter_coast<H: Host>(alloc: Global, settings: &FilterSettings<'_>, host: &mut H) -> Ended
    ensures works { Filters (filter_seen settings.now) result (H.seen host.old)
        (H.seen host.new) }
    // If memory ran out, no output was opened and nothing was written.
    ensures spares { SparesOutput (settings.now.file.now ∷ []) result (H.seen host.old)
        (H.seen host.new) }
{
    // By law: what is written and opened adds up in turn, and the text of the coast is right for what was read.
    streams_append();
    filters_exist();
    let store = match read_input(alloc, host, settings.file) {
        Ok(store) => store,
        Err(ended) => return ended,
    };
    let Ok(text) = filter(alloc, &store) else {
        return Ended::OutOfMemory;
    };
    let Ok(()) = host.open_output(settings.output, settings.overwrite) else {
        return Ended::OpenFault;
    };
    write_text(host, &text)
}
