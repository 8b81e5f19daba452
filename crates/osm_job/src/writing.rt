//! What a job writes, handed to the host piece by piece.

ghost use Rattle.std.specs.Prelude.{◌≡◌, ◌≢◌, map};
ghost use Rattle.osm_job.specs.Cause.{by_memory, cause_of};
ghost use Rattle.osm_job.specs.Sent.{lines_text, to_output, to_report};
ghost use Rattle.osm_job.specs.TextWhole.{IsText};
ghost use Rattle.osm_job.specs.Worked.{WroteOver};
ghost use Rattle.osm_job.specs.Writes.{Wrote};

use crate::ended::Ended;
use osm_host::{Failed, Host, write_all_out, write_all_report};

/// Writes a piece of the output; makes no write if it is empty.
pub fn write_out<H: Host>(host: &mut H, piece: &[u8]) -> Result<(), Failed>
    ensures { Wrote (map to_output piece.now) (H.seen host.old) (H.seen host.new) result }
{
    write_all_out(host, piece)
}

/// Writes a piece of the report; makes no write if it is empty.
pub fn write_report<H: Host>(host: &mut H, piece: &[u8]) -> Result<(), Failed>
    ensures { Wrote (map to_report piece.now) (H.seen host.old) (H.seen host.new) result }
{
    write_all_report(host, piece)
}

/// Writes a text to the opened output, as one piece if it isn't empty, and says how the run ends. It takes no memory.
pub fn write_text<H: Host>(host: &mut H, text: &[u8]) -> Ended
    ensures works { WroteOver (IsText text.now) result (H.seen host.old) (H.seen host.new) }
    ensures not_memory { cause_of result ≢ by_memory }
{
    match write_out(host, text) {
        Ok(()) => Ended::Done,
        Err(_) => Ended::WriteFault,
    }
}

/// Writes pieces of the output, one after the other. None is written after one that couldn't be.
pub fn write_pieces<H: Host>(host: &mut H, pieces: &[Vec<u8>]) -> Result<(), Failed>
    ensures { Wrote (map to_output (lines_text pieces.now)) (H.seen host.old) (H.seen host.new)
        result }
{
    for piece in pieces {
        if let Err(fault) = write_out(host, piece) {
            return Err(fault);
        }
    }
    Ok(())
}

/// Writes report lines, each as a piece of its own. None is written after one that couldn't be.
pub fn write_lines<H: Host>(host: &mut H, lines: &[Vec<u8>]) -> Result<(), Failed>
    ensures { Wrote (map to_report (lines_text lines.now)) (H.seen host.old) (H.seen host.new)
        result }
{
    for line in lines {
        if let Err(failed) = write_report(host, line) {
            return Err(failed);
        }
    }
    Ok(())
}
