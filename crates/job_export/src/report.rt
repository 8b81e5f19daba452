//! The report lines of a candidate, each printed and written before the next.

ghost use Rattle.std.specs.Prelude.{◌≡◌, [], All, None, Some, true};
ghost use Rattle.std.specs.List.{flat_map};
ghost use Rattle.job_export.specs.Entry.{AreProblemLines};
ghost use Rattle.job_export.specs.ReportSteps.{WroteLines};
ghost use Rattle.job_export.specs.Reports.{AreReportLines, IsReportOf, TellsKinds};
ghost use Rattle.osm_elements.specs.declared.object.ObjectRef.{ObjectRef};
ghost use Rattle.osm_objects.specs.Problem.{IsOfItsKind};
ghost use Rattle.osm_text.specs.Report.{IsProblemLine, note_line};

use crate::work::Halt;
use osm_area::{Notes, Problems};
use osm_elements::ObjectRef;
use osm_host::Host;
use osm_job::write_report;
use osm_objects::{Note, Problem};
use osm_text::{note_line, problem_line, problem_line_exists};
use std::alloc::Global;

/// What is reported of a candidate.
#[derive(Drop)]
pub(crate) struct Report {
    /// Its problems, if it has any.
    pub problems: Option<Problems>,
    /// What is noted of it.
    pub notes: Notes,
}

impl Report {
    /// The report of nothing.
    pub(crate) fn nothing(alloc: Global) -> Report
        ensures problems { result.problems ≡ None }
        ensures notes { result.notes ≡ [] }
    {
        Report {
            problems: None,
            notes: Notes::new(alloc),
        }
    }

    /// Whether nothing is reported.
    pub(crate) fn is_empty(&self) -> bool
        ensures { result ≡ true → (of : ObjectRef) → IsReportOf of self.now [] }
    {
        self.problems.is_none() && self.notes.as_slice().is_empty()
    }
}

/// Writes a report line.
fn write_line<H: Host>(host: &mut H, line: &[u8]) -> Result<(), Halt>
    ensures { WroteLines (λ text. text ≡ line.now) (H.seen host.old) (H.seen host.new) result }
{
    match write_report(host, line) {
        Ok(()) => Ok(()),
        Err(_) => Err(Halt::WriteFault),
    }
}

/// Writes the report line of a problem.
fn write_problem<H: Host>(
    alloc: Global,
    of: ObjectRef,
    problem: &Problem,
    host: &mut H,
) -> Result<(), Halt>
    requires { IsOfItsKind problem.now }
    ensures { WroteLines (IsProblemLine of problem.now) (H.seen host.old) (H.seen host.new) result }
{
    problem_line_exists();
    match problem_line(alloc, of, problem) {
        Ok(line) => write_line(host, &line),
        Err(_) => Err(Halt::OutOfMemory),
    }
}

/// Writes the report line of a note.
fn write_note<H: Host>(alloc: Global, of: ObjectRef, note: &Note, host: &mut H) -> Result<(), Halt>
    ensures { WroteLines (λ text. text ≡ note_line of note.now) (H.seen host.old)
        (H.seen host.new) result }
{
    match note_line(alloc, of, note) {
        Ok(line) => write_line(host, &line),
        Err(_) => Err(Halt::OutOfMemory),
    }
}

/// Writes the report lines of problems.
fn write_problems<H: Host>(
    alloc: Global,
    of: ObjectRef,
    problems: &Problems,
    host: &mut H,
) -> Result<(), Halt>
    requires { All IsOfItsKind problems.now }
    ensures { WroteLines (AreProblemLines of problems.now) (H.seen host.old)
        (H.seen host.new) result }
{
    problem_line_exists();
    for place in 0..problems.len() {
        let Some(problem) = problems.get(place) else {
            return Ok(());
        };
        if let Err(halt) = write_problem(alloc, of, &problem, host) {
            return Err(halt);
        }
    }
    Ok(())
}

/// Writes the report lines of notes.
fn write_notes<H: Host>(
    alloc: Global,
    of: ObjectRef,
    notes: &[Note],
    host: &mut H,
) -> Result<(), Halt>
    ensures { WroteLines (λ text. text ≡ flat_map (note_line of) notes.now) (H.seen host.old)
        (H.seen host.new) result }
{
    for note in notes {
        if let Err(halt) = write_note(alloc, of, note, host) {
            return Err(halt);
        }
    }
    Ok(())
}

/// Writes the report lines of problems and then those of notes.
fn write_both<H: Host>(
    alloc: Global,
    of: ObjectRef,
    problems: &Problems,
    notes: &[Note],
    host: &mut H,
) -> Result<(), Halt>
    requires { All IsOfItsKind problems.now }
    ensures { WroteLines (AreReportLines of (Some problems.now) notes.now) (H.seen host.old)
        (H.seen host.new) result }
{
    match write_problems(alloc, of, problems, host) {
        Ok(()) => write_notes(alloc, of, notes, host),
        Err(halt) => Err(halt),
    }
}

/// Writes what is reported of a candidate, each line by itself.
pub(crate) fn write_report_of<H: Host>(
    alloc: Global,
    of: ObjectRef,
    report: &Report,
    host: &mut H,
) -> Result<(), Halt>
    requires { TellsKinds report.now }
    ensures { WroteLines (IsReportOf of report.now) (H.seen host.old) (H.seen host.new) result }
{
    match &report.problems {
        Some(problems) => write_both(alloc, of, problems, report.notes.as_slice(), host),
        None => write_notes(alloc, of, report.notes.as_slice(), host),
    }
}
