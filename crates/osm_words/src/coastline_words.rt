//! What the words of `coastline` say, read from what `clap` found in them.

ghost use Rattle.std.specs.Prelude.{◌≡◌, ◌≤◌, codes, map, string_bytes, IfSome};
ghost use Rattle.clap.specs.Words.{first_of, found_of, rows_of};
ghost use Rattle.osm_words.specs.Answers.{coastline_seen};
ghost use Rattle.osm_words.specs.CoastlineWords.{coastline_asked, distance_said, overlap_said, points_named, points_said, polygons_named, polygons_said, settings_said};
ghost use Rattle.osm_words.specs.Private.{AnswersBy, seen_by};

use crate::coastline_command::coastline_matches;
use crate::degrees::degrees_named;
use crate::fault::{WordsError, WordsFault};
use crate::number::number_named;
use crate::parsed::{is_set, refusal, value_of};
use crate::settings::{CoastlineSettings, OutputPolygons};
use clap::ArgMatches;
use std::alloc::Global;

/// A degree, in units of 1e-7.
const DEGREE: u32 = 10_000_000;

/// The polygons that a word names.
fn polygons_named(word: &str) -> Option<OutputPolygons>
    ensures { result ≡ polygons_named word.now }
{
    match word {
        "land" => Some(OutputPolygons::Land),
        "water" => Some(OutputPolygons::Water),
        "both" => Some(OutputPolygons::Both),
        "none" => Some(OutputPolygons::Neither),
        _ => None,
    }
}

/// The close distance; None where its value is out of range.
fn distance_said(matches: &ArgMatches<'_>) -> Option<u32>
    ensures { result
        ≡ distance_said (first_of (codes "close-distance") (rows_of (found_of matches.now))) }
{
    match value_of(matches, "close-distance") {
        Some(word) => degrees_named(word, 360 * DEGREE),
        None => Some(DEGREE),
    }
}

/// The most points that a word names: 0, or from 4 to 1,000,000.
fn points_named(word: &str) -> Option<u32>
    ensures value { result ≡ points_named word.now }
    ensures in_range { IfSome result (λ points. points ≤ 1_000_000) }
{
    match number_named(word)? {
        points @ (0 | 4..=1_000_000) => Some(points),
        _ => None,
    }
}

/// The most points; None where their value is out of range.
fn points_said(matches: &ArgMatches<'_>) -> Option<u32>
    ensures value { result
        ≡ points_said (first_of (codes "max-points") (rows_of (found_of matches.now))) }
    ensures in_range { IfSome result (λ points. points ≤ 1_000_000) }
{
    match value_of(matches, "max-points") {
        Some(word) => points_named(word),
        None => Some(1_000),
    }
}

/// The overlap; None where its value is out of range.
fn overlap_said(matches: &ArgMatches<'_>) -> Option<u32>
    ensures value { result
        ≡ overlap_said (first_of (codes "bbox-overlap") (rows_of (found_of matches.now))) }
    ensures in_range { IfSome result (λ overlap. overlap ≤ 100_000_000) }
{
    match value_of(matches, "bbox-overlap") {
        Some(word) => degrees_named(word, 10 * DEGREE),
        None => Some(DEGREE / 10_000),
    }
}

/// The polygons; None where their value is out of range.
fn polygons_said(matches: &ArgMatches<'_>) -> Option<OutputPolygons>
    ensures { result
        ≡ polygons_said (first_of (codes "polygons") (rows_of (found_of matches.now))) }
{
    match value_of(matches, "polygons") {
        Some(word) => polygons_named(word),
        None => Some(OutputPolygons::Land),
    }
}

/// The settings, once `clap` has taken the words.
fn settings_said<'a>(matches: &ArgMatches<'a>) -> Result<CoastlineSettings<'a>, WordsFault>
    ensures { seen_by coastline_seen result ≡ settings_said (rows_of (found_of matches.now)) }
{
    let Some(close_distance) = distance_said(matches) else {
        return Err(WordsFault::OutOfRange { option: 'c' });
    };
    let Some(max_points) = points_said(matches) else {
        return Err(WordsFault::OutOfRange { option: 'm' });
    };
    let Some(bbox_overlap) = overlap_said(matches) else {
        return Err(WordsFault::OutOfRange { option: 'b' });
    };
    let Some(polygons) = polygons_said(matches) else {
        return Err(WordsFault::OutOfRange { option: 'p' });
    };
    Ok(CoastlineSettings {
        file: value_of(matches, "file").unwrap_or(""),
        output: value_of(matches, "output").unwrap_or("-"),
        overwrite: is_set(matches, "overwrite"),
        close_distance,
        max_points,
        bbox_overlap,
        polygons,
        cut_crossings: is_set(matches, "cut-crossings"),
    })
}

/// What the words ask of `coastline`, the first of which is its name.
pub(crate) fn coastline_settings<'a>(
    alloc: Global,
    words: &'a [String],
) -> Result<CoastlineSettings<'a>, WordsError>
    ensures { AnswersBy coastline_seen (coastline_asked (map string_bytes words.now)) result }
{
    match coastline_matches(alloc, words) {
        Ok(matches) => match settings_said(&matches) {
            Ok(settings) => Ok(settings),
            Err(cause) => Err(WordsError::BadWords { cause }),
        },
        Err(error) => Err(refusal(error.kind())),
    }
}
