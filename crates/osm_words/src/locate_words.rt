//! What the words of `locate` say, read from what `clap` found in them.

ghost use Rattle.std.specs.Prelude.{◌≡◌, map, string_bytes};
ghost use Rattle.clap.specs.Words.{found_of, rows_of};
ghost use Rattle.osm_words.specs.Answers.{locate_seen};
ghost use Rattle.osm_words.specs.LocateWords.{locate_asked, settings_said};
ghost use Rattle.osm_words.specs.Private.{AnswersBy, seen_by};

use crate::fault::{WordsError, WordsFault};
use crate::locate_command::locate_matches;
use crate::parsed::{is_set, refusal, value_of};
use crate::ranges::{are_both_dashes, keys_said};
use crate::settings::LocateSettings;
use clap::ArgMatches;
use std::alloc::Global;

/// The settings, once `clap` has taken the words.
fn settings_said<'a>(matches: &ArgMatches<'a>) -> Result<LocateSettings<'a>, WordsFault>
    ensures { seen_by locate_seen result ≡ settings_said (rows_of (found_of matches.now)) }
{
    let Some(area_keys) = keys_said(matches, "area-keys") else {
        return Err(WordsFault::OutOfRange { option: 'a' });
    };
    let Some(linear_keys) = keys_said(matches, "linear-keys") else {
        return Err(WordsFault::OutOfRange { option: 'l' });
    };
    let file = value_of(matches, "file").unwrap_or("");
    let points = value_of(matches, "points").unwrap_or("");
    if are_both_dashes(file, points) {
        return Err(WordsFault::OutOfRange { option: 't' });
    }
    Ok(LocateSettings {
        file,
        points,
        output: value_of(matches, "output").unwrap_or("-"),
        overwrite: is_set(matches, "overwrite"),
        keep_untagged: is_set(matches, "keep-untagged"),
        area_keys,
        linear_keys,
    })
}

/// What the words ask of `locate`, the first of which is its name.
pub(crate) fn locate_settings<'a>(
    alloc: Global,
    words: &'a [String],
) -> Result<LocateSettings<'a>, WordsError>
    ensures { AnswersBy locate_seen (locate_asked (map string_bytes words.now)) result }
{
    match locate_matches(alloc, words) {
        Ok(matches) => match settings_said(&matches) {
            Ok(settings) => Ok(settings),
            Err(cause) => Err(WordsError::BadWords { cause }),
        },
        Err(error) => Err(refusal(error.kind())),
    }
}
