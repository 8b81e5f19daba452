//! What the words of `certify` say, read from what `clap` found in them.

ghost use Rattle.std.specs.Prelude.{◌≡◌, map, string_bytes};
ghost use Rattle.clap.specs.Words.{found_of, rows_of};
ghost use Rattle.osm_words.specs.Answers.{certify_seen};
ghost use Rattle.osm_words.specs.CertifyWords.{certify_asked, settings_said};
ghost use Rattle.osm_words.specs.Private.{AnswersBy, seen_by};

use crate::certify_command::certify_matches;
use crate::fault::{WordsError, WordsFault};
use crate::parsed::{is_set, refusal, value_of};
use crate::ranges::{are_both_dashes, ids_said, keys_said};
use crate::settings::CertifySettings;
use clap::ArgMatches;
use std::alloc::Global;

/// The settings, once `clap` has taken the words.
fn settings_said<'a>(matches: &ArgMatches<'a>) -> Result<CertifySettings<'a>, WordsFault>
    ensures { seen_by certify_seen result ≡ settings_said (rows_of (found_of matches.now)) }
{
    let Some(ids) = ids_said(matches) else {
        return Err(WordsFault::OutOfRange { option: 'u' });
    };
    let Some(area_keys) = keys_said(matches, "area-keys") else {
        return Err(WordsFault::OutOfRange { option: 'a' });
    };
    let Some(linear_keys) = keys_said(matches, "linear-keys") else {
        return Err(WordsFault::OutOfRange { option: 'l' });
    };
    let file = value_of(matches, "file").unwrap_or("");
    let text = value_of(matches, "text").unwrap_or("");
    if are_both_dashes(file, text) {
        return Err(WordsFault::OutOfRange { option: 't' });
    }
    Ok(CertifySettings {
        file,
        text,
        keep_untagged: is_set(matches, "keep-untagged"),
        ids,
        area_keys,
        linear_keys,
    })
}

/// What the words ask of `certify`, the first of which is its name.
pub(crate) fn certify_settings<'a>(
    alloc: Global,
    words: &'a [String],
) -> Result<CertifySettings<'a>, WordsError>
    ensures { AnswersBy certify_seen (certify_asked (map string_bytes words.now)) result }
{
    match certify_matches(alloc, words) {
        Ok(matches) => match settings_said(&matches) {
            Ok(settings) => Ok(settings),
            Err(cause) => Err(WordsError::BadWords { cause }),
        },
        Err(error) => Err(refusal(error.kind())),
    }
}
