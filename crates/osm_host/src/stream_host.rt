//! The host over an opener of files and any three standard streams.

ghost use Rattle.std.specs.Prelude.{◌≡◌, ◌⊎◌, ◌<◌, ◌≤◌, [], ◌∷◌, length, take, is_ok, is_some, not, true, false, codes, IfOk, OnOk, OnErr, IfSome};
ghost use Rattle.std.specs.Io.KnownBytes.{Keeps, ReadConsumes, WriteAppends};
ghost use Rattle.std.specs.Str.{bytes_eq};
ghost use Rattle.osm_host.specs.Outside.{input, output, appended, preceded, grown, finds_end, Counts, OnlyOpens, OnlyReads, OnlyWritesOut, OnlyWritesReport};
ghost use Rattle.osm_host.specs.Streams.{left_in, held_by, is_standard_source, is_standard_sink};

use crate::edge::{put, take};
use crate::host::{Failed, Faults, Host, NO_FAULTS, note_fault};
use crate::opener::Opener;
use std::io::{Read, Write};

/// Where the input comes from.
#[derive(Drop)]
pub(crate) enum Source<R> {
    Nothing,
    Standard,
    Opened(R),
}

/// Where the output goes.
#[derive(Drop)]
pub(crate) enum Sink<W> {
    Standard,
    Opened(W),
}

/// A host over an opener, a standard input, a standard output and a report.
///
/// If no input is opened, nothing is left to read; if no output is opened, it is standard output. As a host its contents are
/// unknown. The clauses of its own calls say more: what its parts hold, if these make it known.
#[derive(Drop)]
pub struct StreamHost<D, R, W, I, O, E> {
    opener: D,
    input: I,
    output: O,
    report: E,
    source: Source<R>,
    sink: Sink<W>,
    faults: Faults,
    read_failed: bool,
    at_end: bool,
    bytes_read: u64,
}

impl<D, R, W, I, O, E> StreamHost<D, R, W, I, O, E> {
    ghost use Rattle.osm_host.specs.StreamHost.{fresh_outside, stream_outside, HasParts};

    /// The host over these parts, before anything is open or has failed.
    pub fn over(opener: D, input: I, output: O, report: E) -> StreamHost<D, R, W, I, O, E>
        ensures fresh { stream_outside result ≡ fresh_outside }
        ensures parts { HasParts opener input output report result }
    {
        StreamHost {
            opener,
            input,
            output,
            report,
            source: Source::Nothing,
            sink: Sink::Standard,
            faults: NO_FAULTS,
            read_failed: false,
            at_end: false,
            bytes_read: 0,
        }
    }
}

/// Takes bytes from the source, or from standard input if that is the source.
fn take_off<R: Read, I: Read>(
    source: &mut Source<R>,
    standard: &mut I,
    buf: &mut [u8],
) -> Result<usize, Failed>
    ensures count { IfOk result (λ n. n ≤ length buf.new) }
    ensures bytes { ReadConsumes (left_in I.remaining R.remaining standard.old source.old)
        (left_in I.remaining R.remaining standard.new source.new) result buf.new }
    ensures standard { is_standard_source source.old ≡ false → standard.new ≡ standard.old }
    ensures source { is_standard_source source.old ≡ true → source.new ≡ source.old }
{
    match source {
        Source::Nothing => Ok(0),
        Source::Standard => take(standard, buf),
        Source::Opened(file) => take(file, buf),
    }
}

/// Writes a prefix of a piece to the sink, or to standard output if that is the sink.
fn put_into<W: Write, O: Write>(
    sink: &mut Sink<W>,
    standard: &mut O,
    bytes: &[u8],
) -> Result<usize, Failed>
    ensures count { IfOk result (λ n. (0 < n) × (n ≤ length bytes.now)) }
    ensures bytes { WriteAppends (held_by O.contents W.contents standard.old sink.old)
        (held_by O.contents W.contents standard.new sink.new) result bytes.now }
    ensures standard { is_standard_sink sink.old ≡ false → standard.new ≡ standard.old }
    ensures sink { is_standard_sink sink.old ≡ true → sink.new ≡ sink.old }
{
    match sink {
        Sink::Standard => put(standard, bytes),
        Sink::Opened(file) => put(file, bytes),
    }
}

impl<D: Opener<R, W> + Drop, R: Read + Drop, W: Write + Drop, I: Read, O: Write, E: Write> Host
    for StreamHost<D, R, W, I, O, E> {
    ghost use Rattle.osm_host.specs.StreamHost.{stream_outside, files_asked, asked_behind, input_left, output_held, report_held, reads_file, reads_from, reads_standard, writes_standard, writes_to};
    ghost use Rattle.osm_host.specs.StreamHost.{KeepsSink, KeepsSource, OnlyReportIsWritten, OnlySinkIsWritten, OnlySinkOpens, OnlySourceIsRead, OnlySourceOpens};

    ghost seen = { stream_outside };

    fn open_input(&mut self, name: &str) -> Result<(), Failed>
        ensures listed { OnOk result ((stream_outside self.new).opens
            ≡ appended (stream_outside self.old).opens (input name.now ∷ [])) }
        ensures listed_or_not { OnErr result (((stream_outside self.new).opens
            ≡ appended (stream_outside self.old).opens (input name.now ∷ []))
            ⊎ ((stream_outside self.new).opens ≡ (stream_outside self.old).opens)) }
        ensures begins { OnOk result ((stream_outside self.new).left
            ≡ (stream_outside self.old).named name.now) }
        ensures none_read { OnOk result ((stream_outside self.new).bytes_read ≡ 0) }
        ensures goes_on { OnOk result ((stream_outside self.new).at_end ≡ false) }
        ensures told { is_some (stream_outside self.new).left
            ≡ is_some (stream_outside self.old).left }
        ensures cause { Counts (stream_outside self.old).open_faults
            (stream_outside self.new).open_faults result }
        ensures rest { OnlyOpens (stream_outside self.old) (stream_outside self.new) }
        ensures asked { files_asked D.asked self.new
            ≡ asked_behind (files_asked D.asked self.old) name.now (input name.now) }
        ensures from_standard { OnOk result (reads_standard self.new
            ≡ bytes_eq name.now (codes "-")) }
        ensures from_file { OnOk result (reads_file self.new
            ≡ not (bytes_eq name.now (codes "-"))) }
        ensures from_beginning { OnOk result (reads_from D.is_reader name.now self.new ≡ true) }
        ensures alone { OnlySourceOpens self.old self.new }
        ensures stays { OnErr result (KeepsSource self.old self.new) }
    {
        if name == "-" {
            self.source = Source::Standard;
        } else {
            let Ok(file) = self.opener.open_reader(name) else {
                return Err(note_fault(&mut self.faults.opens));
            };
            self.source = Source::Opened(file);
        }
        self.at_end = false;
        self.bytes_read = 0;
        Ok(())
    }

    fn read(&mut self, buf: &mut [u8]) -> Result<usize, Failed>
        requires goes_on { (stream_outside self.old).at_end ≡ false }
        ensures count { IfOk result (λ n. n ≤ length buf.old) }
        ensures taken { IfOk result (λ n. (stream_outside self.old).left
            ≡ preceded (take n buf.new) (stream_outside self.new).left) }
        ensures ended { result ≡ Ok 0 → 0 < length buf.old
            → IfSome (stream_outside self.old).left (λ left. left ≡ []) }
        ensures at_end { (stream_outside self.new).at_end ≡ finds_end result (length buf.old) }
        ensures failed { OnErr result ((stream_outside self.new).left
            ≡ (stream_outside self.old).left) }
        ensures empty { length buf.old ≡ 0 → result ≡ Ok 0 }
        ensures last { (stream_outside self.new).read_failed ≡ not (is_ok result) }
        ensures counted { IfOk result (λ n. (stream_outside self.new).bytes_read
            ≡ grown (stream_outside self.old).bytes_read n) }
        ensures none_counted { OnErr result ((stream_outside self.new).bytes_read
            ≡ (stream_outside self.old).bytes_read) }
        ensures cause { Counts (stream_outside self.old).read_faults
            (stream_outside self.new).read_faults result }
        ensures rest { OnlyReads (stream_outside self.old) (stream_outside self.new) }
        ensures consumed { 0 < length buf.old
            → ReadConsumes (input_left I.remaining R.remaining self.old)
            (input_left I.remaining R.remaining self.new) result buf.new }
        ensures alone { OnlySourceIsRead self.old self.new }
    {
        self.read_failed = false;
        if buf.is_empty() {
            return Ok(0);
        }
        let Ok(count) = take_off(&mut self.source, &mut self.input, buf) else {
            self.read_failed = true;
            return Err(note_fault(&mut self.faults.reads));
        };
        self.at_end = count == 0;
        self.bytes_read = self.bytes_read.saturating_add(count as u64);
        Ok(count)
    }

    fn open_output(&mut self, name: &str, overwrite: bool) -> Result<(), Failed>
        ensures listed { OnOk result ((stream_outside self.new).opens
            ≡ appended (stream_outside self.old).opens (output name.now overwrite ∷ [])) }
        ensures listed_or_not { OnErr result (((stream_outside self.new).opens
            ≡ appended (stream_outside self.old).opens (output name.now overwrite ∷ []))
            ⊎ ((stream_outside self.new).opens ≡ (stream_outside self.old).opens)) }
        ensures left { (stream_outside self.new).left ≡ (stream_outside self.old).left }
        ensures bytes_read { (stream_outside self.new).bytes_read
            ≡ (stream_outside self.old).bytes_read }
        ensures at_end { (stream_outside self.new).at_end ≡ (stream_outside self.old).at_end }
        ensures cause { Counts (stream_outside self.old).open_faults
            (stream_outside self.new).open_faults result }
        ensures rest { OnlyOpens (stream_outside self.old) (stream_outside self.new) }
        ensures asked { files_asked D.asked self.new
            ≡ asked_behind (files_asked D.asked self.old) name.now (output name.now overwrite) }
        ensures to_standard { OnOk result (writes_standard self.new
            ≡ bytes_eq name.now (codes "-")) }
        ensures to_opened { OnOk result (writes_to D.is_writer name.now overwrite self.new
            ≡ true) }
        ensures alone { OnlySinkOpens self.old self.new }
        ensures stays { OnErr result (KeepsSink self.old self.new) }
    {
        if name == "-" {
            self.sink = Sink::Standard;
            return Ok(());
        }
        let Ok(file) = self.opener.open_writer(name, overwrite) else {
            return Err(note_fault(&mut self.faults.opens));
        };
        self.sink = Sink::Opened(file);
        Ok(())
    }

    fn write_out(&mut self, bytes: &[u8]) -> Result<usize, Failed>
        ensures count { IfOk result (λ n. n ≤ length bytes.now) }
        ensures some { 0 < length bytes.now → IfOk result (λ n. 0 < n) }
        ensures written { IfOk result (λ n. (stream_outside self.new).out
            ≡ appended (stream_outside self.old).out (take n bytes.now)) }
        ensures failed { OnErr result ((stream_outside self.new).out
            ≡ (stream_outside self.old).out) }
        ensures empty { length bytes.now ≡ 0 → result ≡ Ok 0 }
        ensures cause { Counts (stream_outside self.old).write_faults
            (stream_outside self.new).write_faults result }
        ensures rest { OnlyWritesOut (stream_outside self.old) (stream_outside self.new) }
        ensures appends { 0 < length bytes.now
            → WriteAppends (output_held O.contents W.contents self.old)
            (output_held O.contents W.contents self.new) result bytes.now }
        ensures alone { OnlySinkIsWritten self.old self.new }
    {
        if bytes.is_empty() {
            return Ok(0);
        }
        match put_into(&mut self.sink, &mut self.output, bytes) {
            Ok(count) => Ok(count),
            Err(_) => Err(note_fault(&mut self.faults.writes)),
        }
    }

    fn keep_output(&mut self) -> Result<(), Failed>
        ensures written { (stream_outside self.new).out ≡ (stream_outside self.old).out }
        ensures cause { Counts (stream_outside self.old).write_faults
            (stream_outside self.new).write_faults result }
        ensures rest { OnlyWritesOut (stream_outside self.old) (stream_outside self.new) }
        ensures asked { files_asked D.asked self.new ≡ files_asked D.asked self.old }
        ensures output_stays { Keeps (output_held O.contents W.contents self.old)
            (output_held O.contents W.contents self.new) }
        ensures alone { OnlySinkOpens self.old self.new }
    {
        let kept = match &mut self.sink {
            Sink::Standard => Ok(()),
            Sink::Opened(file) => self.opener.keep(file),
        };
        match kept {
            Ok(()) => Ok(()),
            Err(_) => Err(note_fault(&mut self.faults.writes)),
        }
    }

    fn write_report(&mut self, bytes: &[u8]) -> Result<usize, Failed>
        ensures count { IfOk result (λ n. n ≤ length bytes.now) }
        ensures some { 0 < length bytes.now → IfOk result (λ n. 0 < n) }
        ensures written { IfOk result (λ n. (stream_outside self.new).report
            ≡ appended (stream_outside self.old).report (take n bytes.now)) }
        ensures failed { OnErr result ((stream_outside self.new).report
            ≡ (stream_outside self.old).report) }
        ensures empty { length bytes.now ≡ 0 → result ≡ Ok 0 }
        ensures cause { Counts (stream_outside self.old).write_faults
            (stream_outside self.new).write_faults result }
        ensures rest { OnlyWritesReport (stream_outside self.old) (stream_outside self.new) }
        ensures appends { 0 < length bytes.now
            → WriteAppends (report_held E.contents self.old) (report_held E.contents self.new)
            result bytes.now }
        ensures alone { OnlyReportIsWritten self.old self.new }
    {
        if bytes.is_empty() {
            return Ok(0);
        }
        match put(&mut self.report, bytes) {
            Ok(count) => Ok(count),
            Err(_) => Err(note_fault(&mut self.faults.writes)),
        }
    }
}
