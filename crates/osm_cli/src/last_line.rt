//! The last line of a report, which says how a run ended.

ghost use Rattle.std.specs.Prelude.{◌≡◌, ◌≤◌, length};
ghost use Rattle.osm_words.specs.declared.fault.WordsFault.TheVariants.{OutOfRange};
ghost use Rattle.osm_job.specs.declared.ended.Ended.TheVariants.{BadPoint, Refuted, Stopped};
ghost use Rattle.osm_cli.specs.LastLine.{last_line, fault_line, line_begun, bad_line, again_line, kind_word, words_line};

use crate::fixed_line::Line;
use opl_reader::{LineFault, fault_text};
use osm_elements::{ObjectKind, ObjectRef};
use osm_input::InputFault;
use osm_job::Ended;
use osm_words::WordsFault;

/// The last line of a run with this ending; empty if no such line is written. It takes no memory.
pub(crate) fn last_line(ended: &Ended) -> Line
    ensures { result ≡ last_line ended.now }
{
    match ended {
        Ended::Done | Ended::Warnings | Ended::Errors => Line::new(),
        Ended::BadWords { cause } => words_line(*cause),
        Ended::BadInput { line, fault } => fault_line(*line, fault),
        Ended::Stopped { candidate } => stopped_line(*candidate),
        Ended::TooMuchInput { .. } => line_of("osmpoly: too much input\n"),
        Ended::TooManyPieces { .. } => line_of("osmpoly: too many pieces\n"),
        Ended::Refuted { line } => refuted_line(*line),
        Ended::BadPoint { line } => bad_point_line(*line),
        Ended::OpenFault => line_of("osmpoly: open fault\n"),
        Ended::ReadFault => line_of("osmpoly: read fault\n"),
        Ended::WriteFault => line_of("osmpoly: write fault\n"),
        Ended::OutOfMemory => line_of("osmpoly: out of memory\n"),
    }
}

fn line_of(text: &'static str) -> Line
    requires { length text.now ≤ 96 }
    ensures { result ≡ text.now }
{
    let mut line = Line::new();
    line.put(text);
    line
}

fn words_line(cause: WordsFault) -> Line
    ensures { result ≡ words_line cause }
{
    match cause {
        WordsFault::NoCommand => line_of("osmpoly: no command\n"),
        WordsFault::UnknownCommand => line_of("osmpoly: unknown command\n"),
        WordsFault::Refused { .. } => line_of("osmpoly: words refused\n"),
        WordsFault::OutOfRange { option } => range_line(option),
    }
}

fn stopped_line(candidate: ObjectRef) -> Line
    ensures { result ≡ last_line (Stopped candidate) }
{
    let mut whole = line_of("osmpoly: stopped at ");
    whole.put(kind_word(candidate.kind));
    whole.put(" ");
    whole.put_id(candidate.id);
    whole.put("\n");
    whole
}

fn refuted_line(line: u64) -> Line
    ensures { result ≡ last_line (Refuted line) }
{
    let mut whole = line_of("osmpoly: line ");
    whole.put_number(line);
    whole.put(" is not right\n");
    whole
}

fn bad_point_line(line: u64) -> Line
    ensures { result ≡ last_line (BadPoint line) }
{
    let mut whole = line_begun(line);
    whole.put("bad point\n");
    whole
}

fn fault_line(line: u64, fault: &InputFault) -> Line
    ensures { result ≡ fault_line line fault.now }
{
    match fault {
        InputFault::Line(fault) => bad_line(line, *fault),
        InputFault::TooLong => {
            let mut whole = line_begun(line);
            whole.put("too long\n");
            whole
        }
        InputFault::Duplicate { kind, id } => again_line(line, *kind, *id),
    }
}

/// The beginning of a line about a line of an input.
fn line_begun(line: u64) -> Line
    ensures text { result ≡ line_begun line }
    ensures short { length result ≤ 36 }
{
    let mut whole = Line::new();
    whole.put("osmpoly: line ");
    whole.put_number(line);
    whole.put(": ");
    whole
}

fn bad_line(line: u64, fault: LineFault) -> Line
    ensures { result ≡ bad_line line fault }
{
    let mut whole = line_begun(line);
    whole.put(fault_text(fault.kind));
    whole.put(" at byte ");
    whole.put_number(fault.place);
    whole.put("\n");
    whole
}

fn again_line(line: u64, kind: ObjectKind, id: i64) -> Line
    ensures { result ≡ again_line line kind id }
{
    let mut whole = line_begun(line);
    whole.put(kind_word(kind));
    whole.put(" ");
    whole.put_id(id);
    whole.put(" again\n");
    whole
}

fn kind_word(kind: ObjectKind) -> &'static str
    ensures text { result.now ≡ kind_word kind }
    ensures short { length result.now ≤ 8 }
{
    match kind {
        ObjectKind::Node => "node",
        ObjectKind::Way => "way",
        ObjectKind::Relation => "relation",
    }
}

fn range_line(option: char) -> Line
    ensures { result ≡ words_line (OutOfRange option) }
{
    let mut whole = line_of("osmpoly: value out of range: ");
    let mut room = [0; 4];
    whole.put(option.encode_utf8(&mut room));
    whole.put("\n");
    whole
}
