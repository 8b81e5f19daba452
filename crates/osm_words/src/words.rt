//! The words of a command line: which command they name, and what they ask for.

ghost use Rattle.std.specs.Prelude.{◌≡◌, ◌∷◌, [], ℕ, List, Ok, map, string_bytes};
ghost use Rattle.osm_words.specs.Answers.{AnswersJob, AnswersWords};
ghost use Rattle.osm_words.specs.Job.{certify, coastline, export, filter, locate, sample};
ghost use Rattle.osm_words.specs.PlainCertify.{ArePlainCertify, CertifyOption, certify_words, said_certify};
ghost use Rattle.osm_words.specs.PlainCoastline.{ArePlainCoastline, CoastlineOption, coastline_words, said_coastline};
ghost use Rattle.osm_words.specs.PlainExport.{ArePlain, ExportOption, export_words, said};
ghost use Rattle.osm_words.specs.PlainFilter.{ArePlainFilter, FilterOption, filter_words, said_filter};
ghost use Rattle.osm_words.specs.PlainLocate.{ArePlainLocate, LocateOption, locate_words, said_locate};
ghost use Rattle.osm_words.specs.PlainSample.{IsPlainCount, sample_words};
ghost use Rattle.osm_words.specs.PlainWords.{Form};
ghost use Rattle.osm_words.specs.Words.{command_named, job_asked, unnamed_cause};

use crate::certify_words::certify_settings;
use crate::coastline_words::coastline_settings;
use crate::export_words::export_settings;
use crate::fault::{WordsError, WordsFault};
use crate::filter_words::filter_settings;
use crate::locate_words::locate_settings;
use crate::sample_words::sample_settings;
use crate::settings::Job;
use std::alloc::Global;

/// The commands of the program.
#[derive(Clone, Copy, Debug, PartialEq, Eq)]
pub enum Command {
    Export,
    Coastline,
    Sample,
    Filter,
    Certify,
    Locate,
    Unknown,
}

/// The command of this name; Unknown if there is none.
fn command_called(name: &str) -> Command
    ensures { result ≡ command_named (name.now ∷ []) }
{
    match name {
        "export" => Command::Export,
        "coastline" => Command::Coastline,
        "sample" => Command::Sample,
        "coast-filter" => Command::Filter,
        "certify" => Command::Certify,
        "locate" => Command::Locate,
        _ => Command::Unknown,
    }
}

/// The command that the first word names; Unknown for any other word and for none.
pub fn command_of(words: &[String]) -> Command
    ensures { result ≡ command_named (map string_bytes words.now) }
{
    match words.first() {
        Some(word) => command_called(word.as_str()),
        None => Command::Unknown,
    }
}

/// Why words that name no command aren't taken.
fn unnamed_cause(words: &[String]) -> WordsFault
    ensures { result ≡ unnamed_cause (map string_bytes words.now) }
{
    match words.first() {
        Some(_) => WordsFault::UnknownCommand,
        None => WordsFault::NoCommand,
    }
}

/// What the words ask for.
fn answer<'a>(alloc: Global, words: &'a [String]) -> Result<Job<'a>, WordsError>
    ensures { AnswersWords (job_asked (map string_bytes words.now)) result }
{
    match command_of(words) {
        Command::Export => match export_settings(alloc, words) {
            Ok(settings) => Ok(Job::Export(settings)),
            Err(error) => Err(error),
        },
        Command::Coastline => match coastline_settings(alloc, words) {
            Ok(settings) => Ok(Job::Coastline(settings)),
            Err(error) => Err(error),
        },
        Command::Sample => match sample_settings(alloc, words) {
            Ok(settings) => Ok(Job::Sample(settings)),
            Err(error) => Err(error),
        },
        Command::Filter => match filter_settings(alloc, words) {
            Ok(settings) => Ok(Job::Filter(settings)),
            Err(error) => Err(error),
        },
        Command::Certify => match certify_settings(alloc, words) {
            Ok(settings) => Ok(Job::Certify(settings)),
            Err(error) => Err(error),
        },
        Command::Locate => match locate_settings(alloc, words) {
            Ok(settings) => Ok(Job::Locate(settings)),
            Err(error) => Err(error),
        },
        Command::Unknown => Err(WordsError::BadWords {
            cause: unnamed_cause(words),
        }),
    }
}

/// What the words of a run ask for. The words are the program's arguments without its name.
///
/// `answers` says that it is what `job_asked` says, unless memory runs out. So NoCommand comes exactly if there are no
/// words, and UnknownCommand exactly if the first word names no command. Refused comes exactly if the command's parser
/// doesn't take the words after its name. It has the one kind that `clap` states for them.
///
/// OutOfRange comes exactly if the parser takes them and a value isn't one of its option's. It names the first such option
/// in the command's order. For `export` this is `f`, `u`, `a` (`--area-keys`), `l` (`--linear-keys`). For `coastline` it is
/// `c`, `m`, `b`, `p`. For `sample` it is `N`, the name of its one value. For `coast-filter` there is none, since no value
/// of its options has a range. For `certify` it is `u`, `a`, `l`, and then `t` if both names are `-`, since standard input
/// is read once. For `locate` it is `a`, `l`, and `t` in the same way.
///
/// `plain` and the clauses named after other commands say which words are taken with what they say. These are options in any
/// order, each in its short or its long form and at most once. A file follows them, or a file and a second input.
/// `plain_sample` says this only of a number in range.
pub fn job_of<'a>(alloc: Global, words: &'a [String]) -> Result<Job<'a>, WordsError>
    ensures answers { AnswersWords (job_asked (map string_bytes words.now)) result }
    ensures plain { (options : List (Form × ExportOption)) (file : List ℕ) → ArePlain options file
        → map string_bytes words.now ≡ export_words options file
        → AnswersJob (export (said options file)) result }
    ensures plain_coastline { (options : List (Form × CoastlineOption)) (file : List ℕ)
        → ArePlainCoastline options file
        → map string_bytes words.now ≡ coastline_words options file
        → AnswersJob (coastline (said_coastline options file)) result }
    ensures plain_sample { (written : List ℕ) (count : ℕ) → IsPlainCount written count
        → map string_bytes words.now ≡ sample_words written
        → AnswersJob (sample count) result }
    ensures plain_filter { (options : List (Form × FilterOption)) (file : List ℕ)
        → ArePlainFilter options file
        → map string_bytes words.now ≡ filter_words options file
        → AnswersJob (filter (said_filter options file)) result }
    ensures plain_certify { (options : List (Form × CertifyOption)) (file text : List ℕ)
        → ArePlainCertify options file text
        → map string_bytes words.now ≡ certify_words options file text
        → AnswersJob (certify (said_certify options file text)) result }
    ensures plain_locate { (options : List (Form × LocateOption)) (file points : List ℕ)
        → ArePlainLocate options file points
        → map string_bytes words.now ≡ locate_words options file points
        → AnswersJob (locate (said_locate options file points)) result }
{
    answer(alloc, words)
}

/// The law that plain words of `export` are taken with what they say.
pub fn plain_words_are_taken()
    ensures { (options : List (Form × ExportOption)) (file : List ℕ) → ArePlain options file
        → job_asked (export_words options file) ≡ Ok (export (said options file)) }
{}

/// The law that plain words of `coastline` are taken with what they say.
pub fn plain_coastline_words_are_taken()
    ensures { (options : List (Form × CoastlineOption)) (file : List ℕ)
        → ArePlainCoastline options file
        → job_asked (coastline_words options file) ≡ Ok (coastline (said_coastline options file)) }
{}

/// The law that plain words of `sample` are taken with the number that they say.
pub fn plain_sample_words_are_taken()
    ensures { (written : List ℕ) (count : ℕ) → IsPlainCount written count
        → job_asked (sample_words written) ≡ Ok (sample count) }
{}

/// The law that plain words of `coast-filter` are taken with what they say.
pub fn plain_filter_words_are_taken()
    ensures { (options : List (Form × FilterOption)) (file : List ℕ) → ArePlainFilter options file
        → job_asked (filter_words options file) ≡ Ok (filter (said_filter options file)) }
{}

/// The law that plain words of `certify` are taken with what they say.
pub fn plain_certify_words_are_taken()
    ensures { (options : List (Form × CertifyOption)) (file text : List ℕ)
        → ArePlainCertify options file text
        → job_asked (certify_words options file text)
        ≡ Ok (certify (said_certify options file text)) }
{}

/// The law that plain words of `locate` are taken with what they say.
pub fn plain_locate_words_are_taken()
    ensures { (options : List (Form × LocateOption)) (file points : List ℕ)
        → ArePlainLocate options file points
        → job_asked (locate_words options file points)
        ≡ Ok (locate (said_locate options file points)) }
{}
