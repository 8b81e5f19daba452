//! The inputs of a job: opened by their names and read.

ghost use Rattle.std.specs.Prelude.{◌≡◌};
ghost use Rattle.osm_job.specs.InputRead.{ReadsBoth, ReadsInput};
ghost use Rattle.osm_job.specs.TextRead.{ReadsContent, content_seen};
ghost use Rattle.osm_job.specs.Whole.{ending_of_read, text_ended};

use crate::ended::Ended;
use osm_host::{Host, streams_append};
use osm_input::{ReadError, TextError, read_all, read_text};
use osm_objects::Store;
use std::alloc::Global;

/// The most bytes of an input.
const INPUT_LIMIT: u64 = 1 << 36;

/// The most bytes of a line.
const LONGEST_LINE: u64 = 1 << 24;

/// Opens the input of this name and reads it, or says how the run ends if it can't.
pub fn read_input<H: Host>(alloc: Global, host: &mut H, name: &str) -> Result<Store, Ended>
    ensures { ReadsInput name.now (H.seen host.old) (H.seen host.new) result }
{
    let Ok(()) = host.open_input(name) else {
        return Err(Ended::OpenFault);
    };
    match read_all(alloc, host, INPUT_LIMIT, LONGEST_LINE) {
        Ok(store) => Ok(store),
        Err(error) => Err(ending_of_read(error)),
    }
}

/// Opens FILE and reads it, then opens TEXT and reads all of its bytes, or says how the run ends if it can't.
pub fn read_both<H: Host>(
    alloc: Global,
    host: &mut H,
    file: &str,
    text: &str,
) -> Result<(Store, Vec<u8>), Ended>
    ensures { ReadsBoth file.now text.now (H.seen host.old) (H.seen host.new) result }
{
    // By law: opens that are listed one after the other are listed as one list.
    streams_append();
    let store = match read_input(alloc, host, file) {
        Ok(store) => store,
        Err(ended) => return Err(ended),
    };
    match read_content(alloc, host, text) {
        Ok(content) => Ok((store, content)),
        Err(ended) => Err(ended),
    }
}

/// Opens the text of this name and reads it, or says how the run ends if it can't.
fn read_content<H: Host>(alloc: Global, host: &mut H, name: &str) -> Result<Vec<u8>, Ended>
    ensures { ReadsContent name.now (H.seen host.old) (H.seen host.new) (content_seen result) }
{
    let Ok(()) = host.open_input(name) else {
        return Err(Ended::OpenFault);
    };
    match read_text(alloc, host, INPUT_LIMIT) {
        Ok(content) => Ok(content),
        Err(error) => Err(text_ended(error)),
    }
}

/// How a run ends if its input can't be read.
fn ending_of_read(error: ReadError) -> Ended
    ensures { result ≡ ending_of_read error }
{
    match error {
        ReadError::BadInput { line, fault } => Ended::BadInput { line, fault },
        ReadError::TooMuchInput { limit } => Ended::TooMuchInput { limit },
        ReadError::ReadFault => Ended::ReadFault,
        ReadError::OutOfMemory => Ended::OutOfMemory,
    }
}

/// How a run ends if its text can't be read.
fn text_ended(error: TextError) -> Ended
    ensures { result ≡ text_ended error }
{
    match error {
        TextError::TooMuchInput { limit } => Ended::TooMuchInput { limit },
        TextError::ReadFault => Ended::ReadFault,
        TextError::OutOfMemory => Ended::OutOfMemory,
    }
}
