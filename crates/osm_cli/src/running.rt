//! The run: from words and a host to what is written and how it ended.

ghost use Rattle.std.specs.Prelude.{◌≡◌, ℕ, List, Ok, map, string_bytes};
ghost use Rattle.osm_cli.specs.Run.{Ran};
ghost use Rattle.osm_job.specs.Cause.{cause_of};
ghost use Rattle.osm_cli.specs.RunSteps.{KeepsOutput, Works, has_output, is_by_itself, words_ended};
ghost use Rattle.osm_cli.specs.Status.{EndsWith};
ghost use Rattle.osm_words.specs.Answers.{certify_seen, coastline_seen, filter_seen, job_seen, locate_seen, sample_seen, settings_seen};
ghost use Rattle.osm_words.specs.Job.{certify, coastline, export, filter, locate, sample};
ghost use Rattle.osm_words.specs.PlainCertify.{ArePlainCertify, CertifyOption, certify_words, said_certify};
ghost use Rattle.osm_words.specs.PlainCoastline.{ArePlainCoastline, CoastlineOption, coastline_words, said_coastline};
ghost use Rattle.osm_words.specs.PlainExport.{ArePlain, ExportOption, export_words, said};
ghost use Rattle.osm_words.specs.PlainFilter.{ArePlainFilter, FilterOption, filter_words, said_filter};
ghost use Rattle.osm_words.specs.PlainLocate.{ArePlainLocate, LocateOption, locate_words, said_locate};
ghost use Rattle.osm_words.specs.PlainSample.{IsPlainCount, sample_words};
ghost use Rattle.osm_words.specs.PlainWords.{Form};
ghost use Rattle.osm_words.specs.Words.{job_asked};

use crate::last_line::last_line;
use crate::statuses::status;
use job_coastline::coastline;
use job_export::export;
use job_small::certify::certify_text;
use job_small::filter::filter_coast;
use job_small::locate::locate_points;
use job_small::sample::sample;
use osm_host::{Host, streams_append, write_all_report};
use osm_job::Ended;
use osm_words::{
    CertifySettings, CoastlineSettings, ExportSettings, FilterSettings, Job, LocateSettings,
    SampleSettings, WordsError, command_of, job_of, plain_certify_words_are_taken,
    plain_coastline_words_are_taken, plain_filter_words_are_taken, plain_locate_words_are_taken,
    plain_sample_words_are_taken, plain_words_are_taken,
};
use std::alloc::Global;

/// Does what the words after the program's name ask for, and answers how it ended.
///
/// Every ending but Done, Warnings and Errors writes a last line to the report. A failed write of that line doesn't change
/// the answer.
pub fn run<H: Host>(alloc: Global, words: &[String], host: &mut H) -> Ended
    ensures ran { Ran (job_asked (map string_bytes words.now)) result (H.seen host.old)
        (H.seen host.new) }
    // Plain words are taken as the job that they say, so all of this holds for that job.
    ensures plain { (options : List (Form × ExportOption)) (file : List ℕ) → ArePlain options file
        → map string_bytes words.now ≡ export_words options file
        → job_asked (map string_bytes words.now) ≡ Ok (export (said options file)) }
    ensures plain_coastline { (options : List (Form × CoastlineOption)) (file : List ℕ)
        → ArePlainCoastline options file
        → map string_bytes words.now ≡ coastline_words options file
        → job_asked (map string_bytes words.now) ≡ Ok (coastline (said_coastline options file)) }
    ensures plain_sample { (written : List ℕ) (count : ℕ) → IsPlainCount written count
        → map string_bytes words.now ≡ sample_words written
        → job_asked (map string_bytes words.now) ≡ Ok (sample count) }
    ensures plain_filter { (options : List (Form × FilterOption)) (file : List ℕ)
        → ArePlainFilter options file
        → map string_bytes words.now ≡ filter_words options file
        → job_asked (map string_bytes words.now) ≡ Ok (filter (said_filter options file)) }
    ensures plain_certify { (options : List (Form × CertifyOption)) (file text : List ℕ)
        → ArePlainCertify options file text
        → map string_bytes words.now ≡ certify_words options file text
        → job_asked (map string_bytes words.now) ≡ Ok (certify (said_certify options file text)) }
    ensures plain_locate { (options : List (Form × LocateOption)) (file points : List ℕ)
        → ArePlainLocate options file points
        → map string_bytes words.now ≡ locate_words options file points
        → job_asked (map string_bytes words.now) ≡ Ok (locate (said_locate options file points)) }
{
    // By law: plain words ask for what they say, and reported lines add up in turn.
    plain_words_are_taken();
    plain_coastline_words_are_taken();
    plain_sample_words_are_taken();
    plain_filter_words_are_taken();
    plain_certify_words_are_taken();
    plain_locate_words_are_taken();
    streams_append();
    let ended = work(alloc, words, host);
    let line = last_line(&ended);
    let _ = write_all_report(host, line.as_slice());
    ended
}

/// As `run`, but answers the status that the process ends with.
pub fn run_for_status<H: Host>(alloc: Global, words: &[String], host: &mut H) -> u8
    ensures { EndsWith (map string_bytes words.now) result (H.seen host.old) (H.seen host.new) }
{
    let ended = run(alloc, words, host);
    status(command_of(words), &ended)
}

/// The run without its last line.
fn work<H: Host>(alloc: Global, words: &[String], host: &mut H) -> Ended
    ensures { Works (job_asked (map string_bytes words.now)) result (H.seen host.old)
        (H.seen host.new) }
{
    // By law: adding nothing changes nothing.
    streams_append();
    match job_of(alloc, words) {
        Ok(job) => work_on(alloc, &job, host),
        Err(error) => words_ended(error),
    }
}

/// Does a job, and has the host keep its output.
fn work_on<H: Host>(alloc: Global, job: &Job<'_>, host: &mut H) -> Ended
    ensures { Works (Ok (job_seen job.now)) result (H.seen host.old) (H.seen host.new) }
{
    let ended = do_job(alloc, job, host);
    if !opens_output(job) {
        return ended;
    }
    keep(ended, host)
}

/// Whether a job opens an output: each but `certify`.
fn opens_output(job: &Job<'_>) -> bool
    ensures { result ≡ has_output (job_seen job.now) }
{
    match job {
        Job::Export(_) | Job::Coastline(_) | Job::Sample(_) | Job::Filter(_) | Job::Locate(_) =>
            true,
        Job::Certify(_) => false,
    }
}

/// Has the host keep the output of a job that came to its end, and says how the run ends.
fn keep<H: Host>(ended: Ended, host: &mut H) -> Ended
    ensures { KeepsOutput ended result (H.seen host.old) (H.seen host.new) }
{
    if !comes_to_its_end(&ended) {
        return ended;
    }
    match host.keep_output() {
        Ok(()) => ended,
        Err(_) => Ended::WriteFault,
    }
}

/// Whether a run with this ending came to its end.
fn comes_to_its_end(ended: &Ended) -> bool
    ensures { result ≡ is_by_itself (cause_of ended.now) }
{
    match ended {
        Ended::Done | Ended::Warnings | Ended::Errors | Ended::Stopped { .. } => true,
        Ended::BadWords { .. }
        | Ended::BadInput { .. }
        | Ended::TooMuchInput { .. }
        | Ended::TooManyPieces { .. }
        | Ended::Refuted { .. }
        | Ended::BadPoint { .. }
        | Ended::OpenFault
        | Ended::ReadFault
        | Ended::WriteFault
        | Ended::OutOfMemory => false,
    }
}

/// Does a job. Its output isn't kept yet.
fn do_job<H: Host>(alloc: Global, job: &Job<'_>, host: &mut H) -> Ended
    ensures { Works (Ok (job_seen job.now)) result (H.seen host.old) (H.seen host.new) }
{
    match job {
        Job::Export(settings) => run_export(alloc, settings, host),
        Job::Coastline(settings) => run_coastline(alloc, settings, host),
        Job::Sample(settings) => run_sample(alloc, settings, host),
        Job::Filter(settings) => run_filter(alloc, settings, host),
        Job::Certify(settings) => run_certify(alloc, settings, host),
        Job::Locate(settings) => run_locate(alloc, settings, host),
    }
}

/// As `export`, with a contract in the words of a run.
fn run_export<H: Host>(alloc: Global, settings: &ExportSettings<'_>, host: &mut H) -> Ended
    ensures { Works (Ok (export (settings_seen settings.now))) result (H.seen host.old)
        (H.seen host.new) }
{
    export(alloc, settings, host)
}

/// As `coastline`, with a contract in the words of a run.
fn run_coastline<H: Host>(alloc: Global, settings: &CoastlineSettings<'_>, host: &mut H) -> Ended
    ensures { Works (Ok (coastline (coastline_seen settings.now))) result (H.seen host.old)
        (H.seen host.new) }
{
    coastline(alloc, settings, host)
}

/// As `sample`, with a contract in the words of a run.
fn run_sample<H: Host>(alloc: Global, settings: &SampleSettings, host: &mut H) -> Ended
    ensures { Works (Ok (sample (sample_seen settings.now))) result (H.seen host.old)
        (H.seen host.new) }
{
    sample(alloc, settings, host)
}

/// As `filter_coast`, with a contract in the words of a run.
fn run_filter<H: Host>(alloc: Global, settings: &FilterSettings<'_>, host: &mut H) -> Ended
    ensures { Works (Ok (filter (filter_seen settings.now))) result (H.seen host.old)
        (H.seen host.new) }
{
    filter_coast(alloc, settings, host)
}

/// As `certify_text`, with a contract in the words of a run.
fn run_certify<H: Host>(alloc: Global, settings: &CertifySettings<'_>, host: &mut H) -> Ended
    ensures { Works (Ok (certify (certify_seen settings.now))) result (H.seen host.old)
        (H.seen host.new) }
{
    certify_text(alloc, settings, host)
}

/// As `locate_points`, with a contract in the words of a run.
fn run_locate<H: Host>(alloc: Global, settings: &LocateSettings<'_>, host: &mut H) -> Ended
    ensures { Works (Ok (locate (locate_seen settings.now))) result (H.seen host.old)
        (H.seen host.new) }
{
    locate_points(alloc, settings, host)
}

/// How a run ends if its words aren't taken.
fn words_ended(error: WordsError) -> Ended
    ensures { result ≡ words_ended error }
{
    match error {
        WordsError::BadWords { cause } => Ended::BadWords { cause },
        WordsError::OutOfMemory => Ended::OutOfMemory,
    }
}
