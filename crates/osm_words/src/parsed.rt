//! What is read from what `clap` answers to the words of any command.

ghost use Rattle.std.specs.Prelude.{◌≡◌, option_map};
ghost use Rattle.clap.specs.Words.{first_of, found_of, rows_of};
ghost use Rattle.osm_words.specs.Parsed.{is_set};
ghost use Rattle.osm_words.specs.Private.{IsRefusal};

use crate::fault::{WordsError, WordsFault};
use clap::ArgMatches;
use clap::error::ErrorKind;

/// The value of an argument.
pub(crate) fn value_of<'a>(matches: &ArgMatches<'a>, name: &str) -> Option<&'a str>
    ensures { option_map (λ value. value.now) result
        ≡ first_of name.now (rows_of (found_of matches.now)) }
{
    matches.get_str(name)
}

/// Whether a flag is set. `get_flag` would say nothing of a text that is neither `true` nor `false`.
pub(crate) fn is_set(matches: &ArgMatches<'_>, name: &str) -> bool
    ensures { result ≡ is_set name.now (rows_of (found_of matches.now)) }
{
    match value_of(matches, name) {
        Some(word) => word == "true",
        None => false,
    }
}

/// Why nothing is known of what words ask for, over which the parser fails by this kind.
pub(crate) fn refusal(kind: ErrorKind) -> WordsError
    ensures { IsRefusal kind result }
{
    match kind {
        ErrorKind::OutOfMemory => WordsError::OutOfMemory,
        kind => WordsError::BadWords {
            cause: WordsFault::Refused { kind },
        },
    }
}
