//! What the words of `sample` say, read from what `clap` found in them.

ghost use Rattle.std.specs.Prelude.{◌≡◌, ◌≤◌, IfSome, map, string_bytes};
ghost use Rattle.clap.specs.Words.{found_of, rows_of};
ghost use Rattle.osm_words.specs.Answers.{sample_seen};
ghost use Rattle.osm_words.specs.Private.{AnswersBy, seen_by};
ghost use Rattle.osm_words.specs.SampleWords.{count_named, count_said, sample_asked};

use crate::fault::{WordsError, WordsFault};
use crate::number::number_named;
use crate::parsed::{refusal, value_of};
use crate::sample_command::sample_matches;
use crate::settings::SampleSettings;
use clap::ArgMatches;
use std::alloc::Global;

/// The most digits that a number of cells is written with, those at its front that are 0 among them.
const MOST_DIGITS: usize = 3;

/// The number of cells that a word says, from 1 to 100.
fn count_named(word: &str) -> Option<u8>
    ensures value { result ≡ count_named word.now }
    ensures in_range { IfSome result (λ count. (1 ≤ count) × (count ≤ 100)) }
{
    if word.len() > MOST_DIGITS {
        return None;
    }
    match number_named(word)? {
        count @ 1..=100 => u8::try_from(count).ok(),
        _ => None,
    }
}

/// The number of cells, once `clap` has taken the words.
fn count_said(matches: &ArgMatches<'_>) -> Result<SampleSettings, WordsFault>
    ensures { seen_by sample_seen result ≡ count_said (rows_of (found_of matches.now)) }
{
    match count_named(value_of(matches, "count").unwrap_or("")) {
        Some(count) => Ok(SampleSettings { count }),
        None => Err(WordsFault::OutOfRange { option: 'N' }),
    }
}

/// What the words ask of `sample`, the first of which is its name.
pub(crate) fn sample_settings(alloc: Global, words: &[String]) -> Result<SampleSettings, WordsError>
    ensures { AnswersBy sample_seen (sample_asked (map string_bytes words.now)) result }
{
    match sample_matches(alloc, words) {
        Ok(matches) => match count_said(&matches) {
            Ok(settings) => Ok(settings),
            Err(cause) => Err(WordsError::BadWords { cause }),
        },
        Err(error) => Err(refusal(error.kind())),
    }
}
