//! The status that the process ends with.

ghost use Rattle.std.specs.Prelude.{◌≡◌};
ghost use Rattle.osm_cli.specs.Status.{coastline_status, export_status, status_of};

use osm_job::Ended;
use osm_words::Command;

/// The status of the process after a run of a command. `coastline` has statuses of its own, as osmcoastline has.
pub fn status(command: Command, ended: &Ended) -> u8
    ensures { result ≡ status_of command ended.now }
{
    match command {
        Command::Export
        | Command::Sample
        | Command::Filter
        | Command::Certify
        | Command::Locate
        | Command::Unknown => export_status(ended),
        Command::Coastline => coastline_status(ended),
    }
}

/// The status of `coastline`, by its ending.
///
/// It is 0 for Done, 1 for warnings, 2 for errors, 4 for words that aren't taken, 5 if memory ran out, 3 for the others.
fn coastline_status(ended: &Ended) -> u8
    ensures { result ≡ coastline_status ended.now }
{
    match ended {
        Ended::Done => 0,
        Ended::Warnings => 1,
        Ended::Errors => 2,
        Ended::BadWords { .. } => 4,
        Ended::OutOfMemory => 5,
        Ended::Stopped { .. }
        | Ended::BadInput { .. }
        | Ended::TooMuchInput { .. }
        | Ended::TooManyPieces { .. }
        | Ended::Refuted { .. }
        | Ended::BadPoint { .. }
        | Ended::OpenFault
        | Ended::ReadFault
        | Ended::WriteFault => 3,
    }
}

/// The status of the other commands: 0 for Done, 2 for words that aren't taken, 5 if memory ran out, 1 for the others.
fn export_status(ended: &Ended) -> u8
    ensures { result ≡ export_status ended.now }
{
    match ended {
        Ended::Done => 0,
        Ended::BadWords { .. } => 2,
        Ended::OutOfMemory => 5,
        Ended::Warnings
        | Ended::Errors
        | Ended::Stopped { .. }
        | Ended::BadInput { .. }
        | Ended::TooMuchInput { .. }
        | Ended::TooManyPieces { .. }
        | Ended::Refuted { .. }
        | Ended::BadPoint { .. }
        | Ended::OpenFault
        | Ended::ReadFault
        | Ended::WriteFault => 1,
    }
}
