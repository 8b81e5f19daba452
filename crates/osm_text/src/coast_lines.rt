//! Lines of a coastline report, as they are printed.

ghost use Rattle.std.specs.Prelude.{◌≡◌, ◌++◌, ℕ, List, [], unwrap_or, IfOk, OnOk, codes, decimal};
ghost use Rattle.std.specs.Fmt.{signed_decimal};
ghost use Rattle.osm_tables.specs.Words.{coast_word_of};
ghost use Rattle.osm_text.specs.Coast.{key_of, is_error, severity_text, way_text, chain_text, ring_text, cut_text, ends_text, vanished_text, HasItsKind, IsCoastText, IsCoastLine};

use crate::coast::CoastLine;
use crate::phrases::{put_crossing, put_overlap, put_repeated, put_with_id};
use osm_geom::{Kind, Loc};
use osm_notation::{put_number, put_point};
use osm_tables::coast::{
    ANTARCTICA, CROSSING, CUT, ERROR, GAP, LARGE, LEFT_OUT, MISSING_NODE, OVERLAP, REPEATED, SHORT,
    UNCLOSED, VANISHED, WRONG_WAY, coast_code, coast_word,
};
use std::alloc::{AllocError as OutOfMemory, Global};

/// The words of a kind of line.
fn word(kind: u8) -> &'static str
    ensures { result.now ≡ unwrap_or (coast_word_of kind) [] }
{
    coast_word(kind).unwrap_or("")
}

/// The key of a line's kind.
fn key(line: &CoastLine) -> u8
    ensures { result ≡ key_of line.now }
{
    match *line {
        CoastLine::Missing { .. } => MISSING_NODE,
        CoastLine::Short { .. } => SHORT,
        CoastLine::Antarctica { .. } => ANTARCTICA,
        CoastLine::Gap { .. } => GAP,
        CoastLine::Unclosed { .. } => UNCLOSED,
        CoastLine::Cut { .. } => CUT,
        CoastLine::LeftOut { .. } => LEFT_OUT,
        CoastLine::Conflict { kind, .. } => match kind {
            Kind::Crossing => CROSSING,
            Kind::Overlap => OVERLAP,
        },
        CoastLine::Repeated { .. } => REPEATED,
        CoastLine::WrongWay { .. } => WRONG_WAY,
        CoastLine::Large { .. } => LARGE,
        CoastLine::Vanished { .. } => VANISHED,
    }
}

/// Whether a line is an error; otherwise it is a warning. The table of kinds tells.
pub fn is_error(line: &CoastLine) -> bool
    ensures { result ≡ is_error line.now }
{
    coast_code(key(line)).unwrap_or(0) == ERROR
}

/// Adds how bad a line is.
fn put_severity(text: &mut Vec<u8>, line: &CoastLine) -> Result<(), OutOfMemory>
    ensures { OnOk result (text.new.items ≡ text.old.items ++ severity_text line.now) }
{
    let word = if is_error(line) { "error " } else { "warning " };
    text.extend_from_slice(word.as_bytes())?;
    Ok(())
}

/// Adds from where to where.
fn put_ends(text: &mut Vec<u8>, from: Loc, to: Loc) -> Result<(), OutOfMemory>
    ensures { OnOk result (text.new.items ≡ text.old.items ++ ends_text from to) }
{
    put_point(text, from)?;
    text.extend_from_slice(b" to ")?;
    put_point(text, to)
}

/// Adds words, and from where to where.
fn put_with_ends(text: &mut Vec<u8>, words: &str, from: Loc, to: Loc) -> Result<(), OutOfMemory>
    ensures { OnOk result (text.new.items ≡ text.old.items
        ++ (words.now ++ codes " " ++ ends_text from to)) }
{
    text.extend_from_slice(words.as_bytes())?;
    text.push(b' ')?;
    put_ends(text, from, to)
}

/// Adds the way that a line is about.
fn put_way(text: &mut Vec<u8>, way: i64) -> Result<(), OutOfMemory>
    ensures { OnOk result (text.new.items ≡ text.old.items ++ way_text way) }
{
    text.extend_from_slice(b"way ")?;
    put_number(text, way)?;
    text.extend_from_slice(b": ")?;
    Ok(())
}

/// Adds words, an id and a space.
fn put_name(text: &mut Vec<u8>, words: &str, id: i64) -> Result<(), OutOfMemory>
    ensures { OnOk result (text.new.items ≡ text.old.items
        ++ (words.now ++ codes " " ++ signed_decimal id ++ codes " ")) }
{
    put_with_id(text, words, id)?;
    text.push(b' ')?;
    Ok(())
}

/// Adds the chain that a line is about.
fn put_chain(text: &mut Vec<u8>, chain: i64) -> Result<(), OutOfMemory>
    ensures { OnOk result (text.new.items ≡ text.old.items ++ chain_text chain) }
{
    put_name(text, "chain of way", chain)
}

/// Adds the ring that a line is about.
fn put_ring(text: &mut Vec<u8>, ring: i64) -> Result<(), OutOfMemory>
    ensures { OnOk result (text.new.items ≡ text.old.items ++ ring_text ring) }
{
    put_name(text, "ring of way", ring)
}

/// Adds that a way lacks a node.
fn put_missing(text: &mut Vec<u8>, way: i64, node: i64) -> Result<(), OutOfMemory>
    ensures { OnOk result (text.new.items ≡ text.old.items
        ++ (way_text way ++ (codes "missing node " ++ signed_decimal node))) }
{
    put_way(text, way)?;
    put_with_id(text, word(MISSING_NODE), node)
}

/// Adds that a way is short.
fn put_short(text: &mut Vec<u8>, way: i64) -> Result<(), OutOfMemory>
    ensures { OnOk result (text.new.items ≡ text.old.items ++ (way_text way ++ codes "short")) }
{
    put_way(text, way)?;
    text.extend_from_slice(word(SHORT).as_bytes())?;
    Ok(())
}

/// Adds that a chain is not closed.
fn put_unclosed(
    text: &mut Vec<u8>,
    chain: i64,
    start_at: Loc,
    end_at: Loc,
) -> Result<(), OutOfMemory>
    ensures { OnOk result (text.new.items ≡ text.old.items
        ++ (chain_text chain ++ (codes "is not closed, from " ++ ends_text start_at end_at))) }
{
    put_chain(text, chain)?;
    put_with_ends(text, word(UNCLOSED), start_at, end_at)
}

/// Adds that a run of locations was cut out of a ring.
fn put_cut(text: &mut Vec<u8>, ring: i64, from: Loc, to: Loc) -> Result<(), OutOfMemory>
    ensures { OnOk result (text.new.items ≡ text.old.items ++ cut_text ring from to) }
{
    put_ring(text, ring)?;
    put_with_ends(text, word(CUT), from, to)
}

/// Adds that a ring is left out.
fn put_left_out(text: &mut Vec<u8>, ring: i64) -> Result<(), OutOfMemory>
    ensures { OnOk result (text.new.items ≡ text.old.items
        ++ (ring_text ring ++ codes "is left out")) }
{
    put_ring(text, ring)?;
    text.extend_from_slice(word(LEFT_OUT).as_bytes())?;
    Ok(())
}

/// Adds that a ring runs the wrong way.
fn put_wrong_way(text: &mut Vec<u8>, ring: i64) -> Result<(), OutOfMemory>
    ensures { OnOk result (text.new.items ≡ text.old.items
        ++ (ring_text ring ++ codes "runs the wrong way")) }
{
    put_ring(text, ring)?;
    text.extend_from_slice(word(WRONG_WAY).as_bytes())?;
    Ok(())
}

/// Adds how many points a piece has that has too many.
fn put_large(text: &mut Vec<u8>, points: u64) -> Result<(), OutOfMemory>
    ensures { OnOk result (text.new.items ≡ text.old.items
        ++ (codes "piece of " ++ decimal points ++ codes " points")) }
{
    text.extend_from_slice(word(LARGE).as_bytes())?;
    text.push(b' ')?;
    put_number(text, points)?;
    text.extend_from_slice(b" points")?;
    Ok(())
}

/// Adds where a ring has vanished.
fn put_vanished(text: &mut Vec<u8>, at: Loc) -> Result<(), OutOfMemory>
    ensures { OnOk result (text.new.items ≡ text.old.items ++ vanished_text at) }
{
    text.extend_from_slice(b"ring at ")?;
    put_point(text, at)?;
    text.push(b' ')?;
    text.extend_from_slice(word(VANISHED).as_bytes())?;
    Ok(())
}

/// Adds what a line says.
fn put_text(text: &mut Vec<u8>, line: &CoastLine) -> Result<(), OutOfMemory>
    requires { HasItsKind line.now }
    ensures { OnOk result ((added : List ℕ) × IsCoastText line.now added
        × (text.new.items ≡ text.old.items ++ added)) }
{
    match *line {
        CoastLine::Missing { way, node } => put_missing(text, way, node),
        CoastLine::Short { way } => put_short(text, way),
        CoastLine::Antarctica { chain } => put_with_id(text, word(ANTARCTICA), chain),
        CoastLine::Gap { end_at, start_at } => put_with_ends(text, word(GAP), end_at, start_at),
        CoastLine::Unclosed {
            chain,
            start_at,
            end_at,
        } => put_unclosed(text, chain, start_at, end_at),
        CoastLine::Cut { ring, from, to } => put_cut(text, ring, from, to),
        CoastLine::LeftOut { ring } => put_left_out(text, ring),
        CoastLine::Conflict {
            kind,
            first,
            second,
        } => match kind {
            Kind::Crossing => put_crossing(text, word(CROSSING), first, second),
            Kind::Overlap => put_overlap(text, word(OVERLAP), first, second),
        },
        CoastLine::Repeated { seg, times } => put_repeated(text, word(REPEATED), seg, times),
        CoastLine::WrongWay { ring } => put_wrong_way(text, ring),
        CoastLine::Large { points } => put_large(text, points),
        CoastLine::Vanished { at } => put_vanished(text, at),
    }
}

/// A line of a coastline report: `error ` or `warning `, what it says, and LF.
///
/// Points are in degrees. The point of a crossing is rounded to whole units of 1e-7 degree.
pub fn coast_line(alloc: Global, line: &CoastLine) -> Result<Vec<u8>, OutOfMemory>
    requires { HasItsKind line.now }
    ensures { IfOk result (λ text. IsCoastLine line.now text.items) }
{
    let mut text = Vec::new(alloc);
    put_severity(&mut text, line)?;
    put_text(&mut text, line)?;
    text.push(b'\n')?;
    Ok(text)
}
