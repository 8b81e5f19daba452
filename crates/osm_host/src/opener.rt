//! What opens files by their names.

ghost use Rattle.std.specs.Prelude.{◌≡◌, ℕ, Bool, IfOk, List, [], ◌∷◌, Option, None, true};
ghost use Rattle.std.specs.Io.KnownBytes.{Keeps};
ghost use Rattle.osm_host.specs.Outside.{Opened, input, output, appended};

use crate::edge::options_for;
use crate::host::Failed;
use std::fs::{File, OpenFile};
use std::io;
use std::io::{ErrorKind, Read, Write};
use std::os::fd::AsRawFd;

/// Opens readers and writers by the names of files.
pub trait Opener<R: Read, W: Write> {
    /// The opens that were asked for, in order, if they are known.
    ghost asked: { Self → Option (List Opened) };

    /// Whether a reader is as it was opened under a name: nothing is taken from it yet. If that can't be known, it is true of all.
    ghost is_reader: { R → List ℕ → Bool };

    /// Whether a writer is as it was opened under a name, overwriting or not: nothing is written to it yet.
    ghost is_writer: { W → List ℕ → Bool → Bool };

    /// Opens a file for reading.
    fn open_reader(&mut self, name: &str) -> Result<R, Failed>
        ensures asked { asked self.new ≡ appended (asked self.old) (input name.now ∷ []) }
        ensures opened { IfOk result (λ file. is_reader file name.now ≡ true) };

    /// Opens a file for writing: without `overwrite` a new one, never an existing one.
    fn open_writer(&mut self, name: &str, overwrite: bool) -> Result<W, Failed>
        ensures asked { asked self.new
            ≡ appended (asked self.old) (output name.now overwrite ∷ []) }
        ensures opened { IfOk result (λ file. is_writer file name.now overwrite ≡ true) };

    /// Makes the system keep what was written to a file.
    fn keep(&mut self, file: &mut W) -> Result<(), Failed>
        ensures asked { asked self.new ≡ asked self.old }
        ensures held { Keeps (W.contents file.old) (W.contents file.new) };
}

/// The files of the system.
#[derive(Drop)]
pub struct SystemFiles {
    rt: HostRuntime,
}

impl SystemFiles {
    /// The files that this runtime opens.
    pub(crate) fn new(rt: HostRuntime) -> SystemFiles {
        SystemFiles { rt }
    }
}

/// The highest number of a standard stream.
const LAST_STANDARD: i32 = 2;

/// An opened file, under a number that no standard stream has.
///
/// The system gives such a number to a file if the program begins with that stream closed.
fn beside_standard(opened: io::Result<File>) -> Result<File, Failed> {
    let Ok(file) = opened else {
        return Err(Failed);
    };
    if file.as_raw_fd() > LAST_STANDARD {
        return Ok(file);
    }
    file.try_clone().map_err(|_| Failed)
}

impl Opener<File, File> for SystemFiles {
    ghost asked = { λ _. None };

    ghost is_reader = { λ _ _. true };

    ghost is_writer = { λ _ _ _. true };

    fn open_reader(&mut self, name: &str) -> Result<File, Failed> {
        beside_standard(File::open(&self.rt, name))
    }

    fn open_writer(&mut self, name: &str, overwrite: bool) -> Result<File, Failed> {
        beside_standard(options_for(overwrite).open(&self.rt, name))
    }

    /// A file that can't be synchronized, such as a pipe, needs nothing more.
    fn keep(&mut self, file: &mut File) -> Result<(), Failed> {
        match file.sync_data() {
            Ok(()) => Ok(()),
            Err(error) if error.kind() == ErrorKind::InvalidInput => Ok(()),
            Err(_) => Err(Failed),
        }
    }
}
