//! The work: makes the summary before the output is opened, and then writes it.

ghost use Rattle.std.specs.Prelude.{◌≡◌, ◌≢◌, ◌≤◌, [], IfOk};
ghost use Rattle.osm_job.specs.Cause.{by_memory, cause_of};
ghost use Rattle.osm_job.specs.Spared.{SparesOutput};
ghost use Rattle.osm_job.specs.Worked.{WroteOver};
ghost use Rattle.job_small.specs.Sampling.Sample.{IsSample, Samples};
ghost use Rattle.job_small.specs.Sampling.WorkSteps.{ended_by, whole_of_lines};

use crate::sample::printing::lines_of;
use crate::sample::summary::sample_summary;
use osm_host::{Failed, Host, streams_append};
use osm_job::{Ended, write_pieces};
use osm_words::SampleSettings;
use std::alloc::{AllocError as OutOfMemory, Global};

/// Makes the sample input in memory, does the work of export and coastline on it, opens the output and writes the summary.
///
/// It opens no input and reads none.
pub fn sample<H: Host>(alloc: Global, settings: &SampleSettings, host: &mut H) -> Ended
    ensures works { Samples settings.now.count result (H.seen host.old) (H.seen host.new) }
    // If memory ran out, no output was opened and nothing was written.
    ensures spares { SparesOutput [] result (H.seen host.old) (H.seen host.new) }
{
    // By law: what is written and opened adds up in turn.
    streams_append();
    let Ok(lines) = lines_for(alloc, settings.count) else {
        return Ended::OutOfMemory;
    };
    let Ok(()) = host.open_output("-", false) else {
        return Ended::OpenFault;
    };
    write_all(settings.count, &lines, host)
}

/// The lines of the sample's summary.
fn lines_for(alloc: Global, count: u8) -> Result<Vec<Vec<u8>>, OutOfMemory>
    requires some { 1 ≤ count }
    requires few { count ≤ 100 }
    ensures { IfOk result (λ lines. IsSample count (whole_of_lines lines.items)) }
{
    let summary = sample_summary(alloc, count)?;
    lines_of(alloc, &summary)
}

/// Writes the lines to the opened output, and says how the run ends.
fn write_all<H: Host>(count: u8, lines: &[Vec<u8>], host: &mut H) -> Ended
    requires { IsSample count (whole_of_lines lines.now) }
    ensures works { WroteOver (IsSample count) result (H.seen host.old) (H.seen host.new) }
    ensures not_memory { cause_of result ≢ by_memory }
{
    ended_by(write_pieces(host, lines))
}

/// How a run ends once its output was opened.
fn ended_by(written: Result<(), Failed>) -> Ended
    ensures ended { result ≡ ended_by written }
    ensures not_memory { cause_of result ≢ by_memory }
{
    match written {
        Ok(()) => Ended::Done,
        Err(Failed) => Ended::WriteFault,
    }
}
