//! What candidates add, handed to the host.

ghost use Rattle.std.specs.Prelude.{◌≡◌, ◌≤◌, [], OnOk, length, map};
ghost use Rattle.osm_job.specs.Sent.{to_output};
ghost use Rattle.job_export.specs.ExportSteps.{WroteLast};
ghost use Rattle.job_export.specs.Reports.{IsReportOf, TellsKinds};
ghost use Rattle.job_export.specs.ReportSteps.{WroteBehind};
ghost use Rattle.osm_job.specs.Writes.{Wrote};

use crate::report::{Report, write_report_of};
use crate::work::Halt;
use osm_elements::ObjectRef;
use osm_host::{Failed, Host};
use osm_job::write_out;
use osm_text::problem_line_exists;
use std::alloc::Global;

/// Features share a piece of at most this many bytes. One that has more is a piece by itself.
pub(crate) const PIECE: usize = 65_536;

/// Writes the waiting features, the last of which begins at a place. It is a piece by itself if one has no room for all.
fn write_features<H: Host>(host: &mut H, waiting: &[u8], begin: usize) -> Result<(), Failed>
    requires { begin ≤ length waiting.now }
    ensures { Wrote (map to_output waiting.now) (H.seen host.old) (H.seen host.new) result }
{
    if waiting.len() <= PIECE {
        return write_out(host, waiting);
    }
    let (earlier, last) = waiting.split_at(begin);
    if let Err(failed) = write_out(host, earlier) {
        return Err(failed);
    }
    write_out(host, last)
}

/// Writes the waiting features, the last of which begins at a place, and then what is reported of a candidate.
/// Then none waits.
pub(crate) fn write_waiting<H: Host>(
    alloc: Global,
    host: &mut H,
    waiting: &mut Vec<u8>,
    begin: usize,
    of: ObjectRef,
    report: &Report,
) -> Result<(), Halt>
    requires told { TellsKinds report.now }
    requires within { begin ≤ length waiting.old.items }
    ensures wrote { WroteBehind waiting.old.items (IsReportOf of report.now) (H.seen host.old)
        (H.seen host.new) result }
    ensures none { OnOk result (waiting.new.items ≡ []) }
{
    problem_line_exists();
    let Ok(()) = write_features(host, waiting, begin) else {
        return Err(Halt::WriteFault);
    };
    waiting.clear();
    write_report_of(alloc, of, report, host)
}

/// Writes the waiting features before the run ends for lack of memory.
///
/// It says what ends the run: a write that fails, or else lack of memory.
pub(crate) fn write_last<H: Host>(host: &mut H, waiting: &[u8]) -> Halt
    ensures { WroteLast waiting.now (H.seen host.old) (H.seen host.new) result }
{
    match write_out(host, waiting) {
        Ok(()) => Halt::OutOfMemory,
        Err(_) => Halt::WriteFault,
    }
}
