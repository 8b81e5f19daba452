//! The words of `coast-filter`, as `clap` parses them.

ghost use Rattle.std.specs.Prelude.{◌≡◌, All, IfOk, false, map, string_bytes};
ghost use Rattle.clap.specs.Words.{FailsBy, app_of, fault_of, found_of, matches_of, rows_of, rule_of};
ghost use Rattle.osm_words.specs.FilterCommand.{filter_app, filter_rules};

use crate::arguments::{Argument, arguments_of, command_with};
use clap::{Arg, ArgMatches, Command, Error};
use std::alloc::{AllocError as OutOfMemory, Global};

/// Its arguments.
fn filter_arguments<'a>(alloc: Global) -> Result<Vec<Arg<'a>>, OutOfMemory>
    ensures rules { IfOk result (λ v. map (λ (a : Arg). rule_of a) v.items ≡ filter_rules) }
    ensures local { IfOk result (λ v. All (λ (a : Arg). a.global ≡ false) v.items) }
{
    let arguments = [
        Argument::Valued("output", 'o', "output"),
        Argument::Flag("overwrite", 'O', "overwrite"),
        Argument::Positional("file"),
    ];
    arguments_of(alloc, &arguments)
}

/// The command for which `clap` parses.
fn filter_command<'a>(alloc: Global) -> Result<Command<'a>, OutOfMemory>
    ensures { IfOk result (λ command. app_of command ≡ filter_app) }
{
    let arguments = filter_arguments(alloc)?;
    command_with(alloc, "coast-filter", arguments)
}

/// What `clap` finds in the words, the first of which is the command's name.
pub(crate) fn filter_matches<'a>(
    alloc: Global,
    words: &'a [String],
) -> Result<ArgMatches<'a>, Error>
    ensures kinds { FailsBy (fault_of filter_app (map string_bytes words.now)) result }
    ensures rows { IfOk result (λ matches.
        rows_of (found_of matches) ≡ matches_of filter_app (map string_bytes words.now)) }
{
    let command = filter_command(alloc)?;
    command.try_get_matches_from(words)
}
