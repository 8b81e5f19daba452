//! What the words of `export` say, read from what `clap` found in them.

ghost use Rattle.std.specs.Prelude.{◌≡◌, codes, map, string_bytes};
ghost use Rattle.clap.specs.Words.{first_of, found_of, rows_of};
ghost use Rattle.osm_words.specs.ExportWords.{export_asked, format_named, format_said, settings_said};
ghost use Rattle.osm_words.specs.Answers.{settings_seen};
ghost use Rattle.osm_words.specs.Private.{AnswersBy, seen_by};

use crate::export_command::export_matches;
use crate::fault::{WordsError, WordsFault};
use crate::parsed::{is_set, refusal, value_of};
use crate::ranges::{ids_said, keys_said};
use crate::settings::{ExportSettings, Format};
use clap::ArgMatches;
use std::alloc::Global;

/// The format that a word names.
fn format_named(word: &str) -> Option<Format>
    ensures { result ≡ format_named word.now }
{
    match word {
        "geojson" => Some(Format::GeoJson),
        "geojsonseq" => Some(Format::GeoJsonSeq),
        "text" => Some(Format::Text),
        _ => None,
    }
}

/// The format; None where its value is out of range.
fn format_said(matches: &ArgMatches<'_>) -> Option<Format>
    ensures { result ≡ format_said (first_of (codes "format") (rows_of (found_of matches.now))) }
{
    match value_of(matches, "format") {
        Some(word) => format_named(word),
        None => Some(Format::GeoJson),
    }
}

/// The settings, once `clap` has taken the words.
fn settings_said<'a>(matches: &ArgMatches<'a>) -> Result<ExportSettings<'a>, WordsFault>
    ensures { seen_by settings_seen result ≡ settings_said (rows_of (found_of matches.now)) }
{
    let Some(format) = format_said(matches) else {
        return Err(WordsFault::OutOfRange { option: 'f' });
    };
    let Some(ids) = ids_said(matches) else {
        return Err(WordsFault::OutOfRange { option: 'u' });
    };
    let Some(area_keys) = keys_said(matches, "area-keys") else {
        return Err(WordsFault::OutOfRange { option: 'a' });
    };
    let Some(linear_keys) = keys_said(matches, "linear-keys") else {
        return Err(WordsFault::OutOfRange { option: 'l' });
    };
    Ok(ExportSettings {
        file: value_of(matches, "file").unwrap_or(""),
        format,
        output: value_of(matches, "output").unwrap_or("-"),
        overwrite: is_set(matches, "overwrite"),
        keep_untagged: is_set(matches, "keep-untagged"),
        ids,
        omit_rs: is_set(matches, "omit-rs"),
        show_errors: is_set(matches, "show-errors"),
        stop_on_error: is_set(matches, "stop-on-error"),
        area_keys,
        linear_keys,
    })
}

/// What the words ask of `export`, the first of which is its name.
pub(crate) fn export_settings<'a>(
    alloc: Global,
    words: &'a [String],
) -> Result<ExportSettings<'a>, WordsError>
    ensures { AnswersBy settings_seen (export_asked (map string_bytes words.now)) result }
{
    match export_matches(alloc, words) {
        Ok(matches) => match settings_said(&matches) {
            Ok(settings) => Ok(settings),
            Err(cause) => Err(WordsError::BadWords { cause }),
        },
        Err(error) => Err(refusal(error.kind())),
    }
}
