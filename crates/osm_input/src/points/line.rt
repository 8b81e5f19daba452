//! One line of a text of points.

ghost use Rattle.std.specs.Prelude.{◌≡◌, [], option_and_then, pos, false, true, MatchOption};
ghost use Rattle.osm_elements.specs.Places.{latitude, longitude};
ghost use Rattle.osm_elements.specs.Places.{location_from};
ghost use Rattle.opl_reader.specs.LineReading.{is_separator};
ghost use Rattle.opl_reader.specs.NumberReading.{decimal_of};
ghost use Rattle.opl_reader.specs.Parts.{without_cr};
ghost use Rattle.osm_input.specs.PointLines.LineSteps.{BeginsWord, IsNextWord, LineTells};
ghost use Rattle.osm_input.specs.PointLines.Lines.{words_in};

use memchr::memchr2;
use opl_reader::read_decimal;
use osm_lattice::Loc;

/// What a line tells.
#[derive(Clone, Copy)]
pub(crate) enum Told {
    /// Nothing: it is empty or a comment.
    Nothing,
    Point(Loc),
    /// It should tell a point but doesn't.
    Bad,
}

/// A line without the CR at its end.
fn without_cr(line: &[u8]) -> &[u8]
    ensures { result.now ≡ without_cr line.now }
{
    match line {
        [text @ .., b'\r'] => text,
        _ => line,
    }
}

/// Whether a byte separates words.
fn is_separator(byte: u8) -> bool
    ensures { result ≡ is_separator byte }
{
    byte == b' ' || byte == b'\t'
}

/// The location of a longitude and a latitude, written in degrees.
fn location(x: &[u8], y: &[u8]) -> Option<Loc>
    ensures { result ≡ location_from (option_and_then longitude (decimal_of (pos 1800000000) x.now))
        (option_and_then latitude (decimal_of (pos 900000000) y.now)) }
{
    let x = read_decimal(x, 1_800_000_000)?;
    let y = read_decimal(y, 900_000_000)?;
    Loc::new(x, y)
}

/// A text from its first word on.
fn from_word(text: &[u8]) -> &[u8]
    ensures words { words_in result.now ≡ words_in text.now }
    ensures first { BeginsWord result.now }
{
    let mut rest = text;
    while let [first, more @ ..] = rest {
        if !is_separator(*first) {
            return rest;
        }
        rest = more;
    }
    rest
}

/// The first word of a text, and the text after it. None if only separators are left.
fn next_word(text: &[u8]) -> Option<(&[u8], &[u8])>
    ensures { MatchOption result (words_in text.now ≡ [])
        (λ cut. IsNextWord text.now cut.0.now cut.1.now) }
{
    let text = from_word(text);
    if text.is_empty() {
        return None;
    }
    match memchr2(b' ', b'\t', text) {
        Some(end) => Some(text.split_at(end)),
        None => Some(text.split_at(text.len())),
    }
}

/// What a line tells, given without its LF.
pub(crate) fn told_by(line: &[u8]) -> Told
    ensures { LineTells line.now result }
{
    let Some((x, rest)) = next_word(without_cr(line)) else {
        return Told::Nothing;
    };
    if x[0] == b'#' {
        return Told::Nothing;
    }
    let Some((y, rest)) = next_word(rest) else {
        return Told::Bad;
    };
    if next_word(rest).is_some() {
        return Told::Bad;
    }
    match location(x, y) {
        Some(point) => Told::Point(point),
        None => Told::Bad,
    }
}
