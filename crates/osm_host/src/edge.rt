//! One read and one write over any reader and writer of std, how an output is opened, and the status of a process.

ghost use Rattle.std.specs.Prelude.{◌≡◌, ◌<◌, ◌≤◌, IfOk, false, length, not, true};
ghost use Rattle.std.specs.Fs.{asks_append, asks_create, asks_create_new, asks_truncate, asks_write};
ghost use Rattle.std.specs.Io.KnownBytes.{ReadConsumes, WriteAppends};
ghost use Rattle.std.specs.Process.{exit_status};

use crate::host::Failed;
use std::fs::OpenOptions;
use std::io::{ErrorKind, Read, Write};
use std::process::ExitCode;

/// Takes bytes from a source, and says how many. An interrupted read is repeated.
pub(crate) fn take<R: Read>(source: &mut R, buf: &mut [u8]) -> Result<usize, Failed>
    ensures count { IfOk result (λ n. n ≤ length buf.new) }
    ensures bytes { ReadConsumes (R.remaining source.old) (R.remaining source.new) result buf.new }
{
    for _try in 0..u64::MAX {
        match source.read(buf) {
            Ok(count) => return Ok(count),
            Err(error) if error.kind() == ErrorKind::Interrupted => {}
            Err(_) => return Err(Failed),
        }
    }
    Err(Failed)
}

/// Writes a prefix of a piece, at least one byte of it, and says how long it is. An interrupted write is repeated.
pub(crate) fn put<W: Write>(sink: &mut W, bytes: &[u8]) -> Result<usize, Failed>
    ensures count { IfOk result (λ n. (0 < n) × (n ≤ length bytes.now)) }
    ensures bytes { WriteAppends (W.contents sink.old) (W.contents sink.new) result bytes.now }
{
    for _try in 0..u64::MAX {
        match sink.write(bytes) {
            Ok(count) if count > 0 => return Ok(count),
            Err(error) if error.kind() == ErrorKind::Interrupted => {}
            _ => return Err(Failed),
        }
    }
    Err(Failed)
}

/// How an output is opened: only as a new file, or overwritten from its beginning.
pub(crate) fn options_for(overwrite: bool) -> OpenOptions
    ensures write { asks_write result ≡ true }
    ensures new { asks_create_new result ≡ not overwrite }
    ensures cut { asks_truncate result ≡ overwrite }
    ensures create { asks_create result ≡ overwrite }
    ensures no_append { asks_append result ≡ false }
{
    let mut options = OpenOptions::new();
    options.write(true);
    if overwrite {
        options.create(true).truncate(true);
    } else {
        options.create_new(true);
    }
    options
}

/// The status that the process ends with.
pub fn ends(status: u8) -> ExitCode
    ensures { exit_status result ≡ status }
{
    ExitCode::from(status)
}
