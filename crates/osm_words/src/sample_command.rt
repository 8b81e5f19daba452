//! The words of `sample`, as `clap` parses them.

ghost use Rattle.std.specs.Prelude.{◌≡◌, IfOk, map, string_bytes};
ghost use Rattle.clap.specs.Words.{FailsBy, app_of, fault_of, found_of, matches_of, rows_of};
ghost use Rattle.osm_words.specs.SampleCommand.{sample_app};

use crate::arguments::positional;
use clap::{ArgMatches, Command, Error};
use std::alloc::{AllocError as OutOfMemory, Global};

/// The command for which `clap` parses.
fn sample_command<'a>(alloc: Global) -> Result<Command<'a>, OutOfMemory>
    ensures { IfOk result (λ command. app_of command ≡ sample_app) }
{
    let command = Command::new(alloc, "sample").arg(positional(alloc, "count"))?;
    Ok(command.disable_help_flag(true))
}

/// What `clap` finds in the words, the first of which is the command's name.
pub(crate) fn sample_matches<'a>(
    alloc: Global,
    words: &'a [String],
) -> Result<ArgMatches<'a>, Error>
    ensures kinds { FailsBy (fault_of sample_app (map string_bytes words.now)) result }
    ensures rows { IfOk result (λ matches.
        rows_of (found_of matches) ≡ matches_of sample_app (map string_bytes words.now)) }
{
    let command = sample_command(alloc)?;
    command.try_get_matches_from(words)
}
