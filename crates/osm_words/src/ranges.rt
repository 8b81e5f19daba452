//! The ranges of values that several commands share.

ghost use Rattle.std.specs.Prelude.{◌≡◌, codes, option_map};
ghost use Rattle.clap.specs.Words.{first_of, found_of, rows_of};
ghost use Rattle.osm_words.specs.Answers.{keys_seen};
ghost use Rattle.osm_words.specs.Ranges.{are_both_dashes, ids_named, ids_said, keys_asked};

use crate::parsed::value_of;
use clap::ArgMatches;
use opl_reader::is_keys;
use osm_objects::UniqueId;

/// The ids that a word names.
fn ids_named(word: &str) -> Option<UniqueId>
    ensures { result ≡ ids_named word.now }
{
    match word {
        "counter" => Some(UniqueId::Counter),
        "type_id" => Some(UniqueId::TypeId),
        _ => None,
    }
}

/// The ids; None where their value is out of range.
pub(crate) fn ids_said(matches: &ArgMatches<'_>) -> Option<Option<UniqueId>>
    ensures { result ≡ ids_said (first_of (codes "ids") (rows_of (found_of matches.now))) }
{
    match value_of(matches, "ids") {
        Some(word) => match ids_named(word) {
            Some(ids) => Some(Some(ids)),
            None => None,
        },
        None => Some(None),
    }
}

/// The keys of an option, as they are written; None where its value is out of range.
pub(crate) fn keys_said<'a>(matches: &ArgMatches<'a>, name: &str) -> Option<Option<&'a str>>
    ensures { option_map keys_seen result
        ≡ keys_asked (first_of name.now (rows_of (found_of matches.now))) }
{
    match value_of(matches, name) {
        Some(word) if is_keys(word) => Some(Some(word)),
        Some(_) => None,
        None => Some(None),
    }
}

/// Whether both names are that of standard input, which is read once.
pub(crate) fn are_both_dashes(file: &str, second: &str) -> bool
    ensures { result ≡ are_both_dashes file.now second.now }
{
    file == "-" && second == "-"
}
