//! The words of `coastline`, as `clap` parses them.

ghost use Rattle.std.specs.Prelude.{◌≡◌, All, IfOk, false, map, string_bytes};
ghost use Rattle.clap.specs.Words.{FailsBy, app_of, fault_of, found_of, matches_of, rows_of, rule_of};
ghost use Rattle.osm_words.specs.CoastlineCommand.{coastline_app, coastline_rules};

use crate::arguments::{Argument, arguments_of, command_with};
use clap::{Arg, ArgMatches, Command, Error};
use std::alloc::{AllocError as OutOfMemory, Global};

/// Its arguments.
fn coastline_arguments<'a>(alloc: Global) -> Result<Vec<Arg<'a>>, OutOfMemory>
    ensures rules { IfOk result (λ v. map (λ (a : Arg). rule_of a) v.items ≡ coastline_rules) }
    ensures local { IfOk result (λ v. All (λ (a : Arg). a.global ≡ false) v.items) }
{
    let arguments = [
        Argument::Valued("close-distance", 'c', "close-distance"),
        Argument::Valued("max-points", 'm', "max-points"),
        Argument::Valued("bbox-overlap", 'b', "bbox-overlap"),
        Argument::Valued("polygons", 'p', "output-polygons"),
        Argument::LongValued("output"),
        Argument::Flag("overwrite", 'f', "overwrite"),
        Argument::LongFlag("cut-crossings"),
        Argument::Positional("file"),
    ];
    arguments_of(alloc, &arguments)
}

/// The command for which `clap` parses.
fn coastline_command<'a>(alloc: Global) -> Result<Command<'a>, OutOfMemory>
    ensures { IfOk result (λ command. app_of command ≡ coastline_app) }
{
    let arguments = coastline_arguments(alloc)?;
    command_with(alloc, "coastline", arguments)
}

/// What `clap` finds in the words, the first of which is the command's name.
pub(crate) fn coastline_matches<'a>(
    alloc: Global,
    words: &'a [String],
) -> Result<ArgMatches<'a>, Error>
    ensures kinds { FailsBy (fault_of coastline_app (map string_bytes words.now)) result }
    ensures rows { IfOk result (λ matches.
        rows_of (found_of matches) ≡ matches_of coastline_app (map string_bytes words.now)) }
{
    let command = coastline_command(alloc)?;
    command.try_get_matches_from(words)
}
