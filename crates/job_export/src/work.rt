//! The work: assembles each candidate's area, and writes it with the following ones, or before the next report line.

ghost use Rattle.std.specs.Prelude.{◌≡◌, ◌+◌, ◌≤◌, All, IfOk, IsSome, Ok, length};
ghost use Rattle.job_export.specs.AdditionSteps.{WroteAddition};
ghost use Rattle.job_export.specs.ExportSteps.{WroteWhole, WroteCandidates, WroteCandidate, ended_by_halt};
ghost use Rattle.job_export.specs.Reports.{TellsKinds};
ghost use Rattle.job_export.specs.Choice.{choice_of};
ghost use Rattle.job_export.specs.Export.{Exports, IsExport};
ghost use Rattle.osm_job.specs.Worked.{WroteOver};
ghost use Rattle.osm_objects.specs.Candidates.{candidates as all_candidates};
ghost use Rattle.osm_objects.specs.Objects.{object_at};
ghost use Rattle.osm_words.specs.Answers.{settings_seen};

use crate::choice::candidates_of;
use crate::entry::{Addition, addition_of};
use crate::framing::{footer, header};
use crate::laws::export_exists;
use crate::writing::{PIECE, write_last, write_waiting};
use osm_area::outcome_exists;
use osm_elements::ObjectRef;
use osm_host::{Host, streams_append};
use osm_job::{Ended, read_input, write_out};
use osm_objects::Store;
use osm_text::problem_line_exists;
use osm_words::ExportSettings;
use std::alloc::Global;

/// Why an export stops early after its output was opened.
#[derive(Clone, Copy, Debug, PartialEq, Eq)]
pub(crate) enum Halt {
    /// This candidate has problems, and the run must stop at the first one that has.
    Stopped { candidate: ObjectRef },
    /// A write failed.
    WriteFault,
    /// Memory ran out.
    OutOfMemory,
}

/// Reads the input, opens the output and writes what the candidates add.
pub fn export<H: Host>(alloc: Global, settings: &ExportSettings<'_>, host: &mut H) -> Ended
    ensures { Exports (settings_seen settings.now) result (H.seen host.old) (H.seen host.new) }
{
    // By law: what is written and opened adds up in turn, and there is something right to write.
    streams_append();
    export_exists();
    let store = match read_input(alloc, host, settings.file) {
        Ok(store) => store,
        Err(ended) => return ended,
    };
    let Ok(candidates) = candidates_of(alloc, &store, settings) else {
        return Ended::OutOfMemory;
    };
    let Ok(()) = host.open_output(settings.output, settings.overwrite) else {
        return Ended::OpenFault;
    };
    write_export(alloc, &store, settings, &candidates, host)
}

/// Writes everything to the opened output, and says how the run ends.
fn write_export<H: Host>(
    alloc: Global,
    store: &Store,
    settings: &ExportSettings<'_>,
    candidates: &[ObjectRef],
    host: &mut H,
) -> Ended
    requires all { candidates.now
        ≡ all_candidates (choice_of (settings_seen settings.now)) store.now }
    requires held { All (λ of. IsSome (object_at store.now of)) candidates.now }
    ensures { WroteOver (IsExport (settings_seen settings.now) store.now) result
        (H.seen host.old) (H.seen host.new) }
{
    ended_by_halt(write_whole(alloc, store, settings, candidates, host))
}

/// How a run ends once its output was opened.
fn ended_by_halt(written: Result<(), Halt>) -> Ended
    ensures { result ≡ ended_by_halt written }
{
    match written {
        Ok(()) => Ended::Done,
        Err(Halt::Stopped { candidate }) => Ended::Stopped { candidate },
        Err(Halt::WriteFault) => Ended::WriteFault,
        Err(Halt::OutOfMemory) => Ended::OutOfMemory,
    }
}

/// Writes the header, what the candidates add, and the footer.
fn write_whole<H: Host>(
    alloc: Global,
    store: &Store,
    settings: &ExportSettings<'_>,
    candidates: &[ObjectRef],
    host: &mut H,
) -> Result<(), Halt>
    requires all { candidates.now
        ≡ all_candidates (choice_of (settings_seen settings.now)) store.now }
    requires held { All (λ of. IsSome (object_at store.now of)) candidates.now }
    ensures { WroteWhole (settings_seen settings.now) store.now
        (H.seen host.old) (H.seen host.new) result }
{
    outcome_exists();
    problem_line_exists();
    let Ok(()) = write_out(host, header(settings.format).as_bytes()) else {
        return Err(Halt::WriteFault);
    };
    if let Err(halt) = write_candidates(alloc, store, settings, candidates, host) {
        return Err(halt);
    }
    let Ok(()) = write_out(host, footer(settings.format).as_bytes()) else {
        return Err(Halt::WriteFault);
    };
    Ok(())
}

/// Writes what each candidate adds, in order.
fn write_candidates<H: Host>(
    alloc: Global,
    store: &Store,
    settings: &ExportSettings<'_>,
    candidates: &[ObjectRef],
    host: &mut H,
) -> Result<(), Halt>
    requires { All (λ of. IsSome (object_at store.now of)) candidates.now }
    ensures { WroteCandidates (settings_seen settings.now) store.now candidates.now
        (H.seen host.old) (H.seen host.new) result }
{
    let mut features = 0;
    let mut waiting = Vec::new(alloc);
    for &candidate in candidates {
        match write_candidate(
            alloc,
            store,
            settings,
            candidate,
            features,
            &mut waiting,
            host,
        ) {
            Ok(count) => features += count,
            Err(halt) => return Err(halt),
        }
    }
    let Ok(()) = write_out(host, &waiting) else {
        return Err(Halt::WriteFault);
    };
    Ok(())
}

/// Assembles a candidate that follows `earlier` features, and writes what it adds after the features that wait.
///
/// A feature alone waits too. If memory runs out, the features that wait are written before the run ends. The answer is the
/// number of the candidate's features, 1 or 0.
fn write_candidate<H: Host>(
    alloc: Global,
    store: &Store,
    settings: &ExportSettings<'_>,
    candidate: ObjectRef,
    earlier: u64,
    waiting: &mut Vec<u8>,
    host: &mut H,
) -> Result<u64, Halt>
    requires held { IsSome (object_at store.now candidate) }
    requires room { earlier + 1 ≤ 18_446_744_073_709_551_615 }
    ensures one { IfOk result (λ count. count ≤ 1) }
    ensures wrote { WroteCandidate (settings_seen settings.now) store.now earlier candidate
        waiting.old.items waiting.new.items (H.seen host.old) (H.seen host.new) result }
{
    outcome_exists();
    problem_line_exists();
    let begin = waiting.len();
    let Ok(addition) = addition_of(alloc, waiting, store, settings, candidate, earlier) else {
        return Err(write_last(host, waiting));
    };
    write_addition(alloc, settings, candidate, &addition, waiting, begin, host)
}

/// Writes what a candidate adds, whose feature is the last that waits and begins at a place. A feature alone goes on waiting
/// if one piece has room for all that wait.
///
/// The answer is the number of the candidate's features, 1 or 0.
fn write_addition<H: Host>(
    alloc: Global,
    settings: &ExportSettings<'_>,
    candidate: ObjectRef,
    addition: &Addition,
    waiting: &mut Vec<u8>,
    begin: usize,
    host: &mut H,
) -> Result<u64, Halt>
    requires told { TellsKinds addition.now.report }
    requires within { begin ≤ length waiting.old.items }
    ensures one { IfOk result (λ count. count ≤ 1) }
    ensures wrote { WroteAddition (settings_seen settings.now) candidate addition.now
        waiting.old.items waiting.new.items (H.seen host.old) (H.seen host.new) result }
{
    if addition.is_feature_alone() && waiting.len() <= PIECE {
        return Ok(1);
    }
    if let Err(halt) = write_waiting(alloc, host, waiting, begin, candidate, &addition.report) {
        return Err(halt);
    }
    if addition.has_feature {
        return Ok(1);
    }
    if settings.stop_on_error {
        return Err(Halt::Stopped { candidate });
    }
    Ok(0)
}
