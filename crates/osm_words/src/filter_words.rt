//! What the words of `coast-filter` say, read from what `clap` found in them.

ghost use Rattle.std.specs.Prelude.{◌≡◌, map, string_bytes};
ghost use Rattle.clap.specs.Words.{found_of, rows_of};
ghost use Rattle.osm_words.specs.Answers.{filter_seen};
ghost use Rattle.osm_words.specs.FilterWords.{filter_asked, settings_said};
ghost use Rattle.osm_words.specs.Private.{AnswersBy};

use crate::fault::WordsError;
use crate::filter_command::filter_matches;
use crate::parsed::{is_set, refusal, value_of};
use crate::settings::FilterSettings;
use clap::ArgMatches;
use std::alloc::Global;

/// The settings, once `clap` has taken the words.
fn settings_said<'a>(matches: &ArgMatches<'a>) -> FilterSettings<'a>
    ensures { filter_seen result ≡ settings_said (rows_of (found_of matches.now)) }
{
    FilterSettings {
        file: value_of(matches, "file").unwrap_or(""),
        output: value_of(matches, "output").unwrap_or("-"),
        overwrite: is_set(matches, "overwrite"),
    }
}

/// What the words ask of `coast-filter`, the first of which is its name.
pub(crate) fn filter_settings<'a>(
    alloc: Global,
    words: &'a [String],
) -> Result<FilterSettings<'a>, WordsError>
    ensures { AnswersBy filter_seen (filter_asked (map string_bytes words.now)) result }
{
    match filter_matches(alloc, words) {
        Ok(matches) => Ok(settings_said(&matches)),
        Err(error) => Err(refusal(error.kind())),
    }
}
