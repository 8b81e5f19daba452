//! Phrases that lines of several kinds share: words with an id, stretches, conflicts, repeated segments.

ghost use Rattle.std.specs.Prelude.{◌≡◌, ◌*◌, ◌≤◌, ◌++◌, ℕ, List, Some, unsigned_abs, OnOk, codes, decimal};
ghost use Rattle.std.specs.Fmt.{signed_decimal};
ghost use Rattle.osm_lattice.specs.Conflict.{conflict_of};
ghost use Rattle.osm_lattice.specs.Frac.{rounded};
ghost use Rattle.osm_notation.specs.Coordinates.{xy_text};
ghost use Rattle.osm_text.specs.Report.{segment_text, stretch_text, pair_text, shared_text, IsMeetingText};

use osm_geom::{Frac, Kind, Loc, Seg, meeting, overlap, round};
use osm_notation::{put_number, put_point, put_xy};
use std::alloc::AllocError as OutOfMemory;

/// Adds words that an id follows.
pub(crate) fn put_with_id(line: &mut Vec<u8>, words: &str, id: i64) -> Result<(), OutOfMemory>
    ensures { OnOk result (line.new.items ≡ line.old.items
        ++ (words.now ++ codes " " ++ signed_decimal id)) }
{
    line.extend_from_slice(words.as_bytes())?;
    line.push(b' ')?;
    put_number(line, id)
}

/// Adds a stretch between two points.
fn put_stretch(line: &mut Vec<u8>, from: Loc, to: Loc) -> Result<(), OutOfMemory>
    ensures { OnOk result (line.new.items ≡ line.old.items ++ stretch_text from to) }
{
    put_point(line, from)?;
    line.push(b',')?;
    put_point(line, to)
}

/// Adds the two segments of a conflict.
fn put_pair(line: &mut Vec<u8>, first: Seg, second: Seg) -> Result<(), OutOfMemory>
    ensures { OnOk result (line.new.items ≡ line.old.items ++ pair_text first second) }
{
    line.extend_from_slice(b" of ")?;
    put_stretch(line, first.a, first.b)?;
    line.extend_from_slice(b" and ")?;
    put_stretch(line, second.a, second.b)
}

/// Adds a point, its coordinates rounded to whole units.
fn put_rounded(line: &mut Vec<u8>, x: Frac, y: Frac) -> Result<(), OutOfMemory>
    requires x_in { unsigned_abs x.num ≤ 3_600_000_000 * x.den }
    requires y_in { unsigned_abs y.num ≤ 3_600_000_000 * y.den }
    ensures { OnOk result (line.new.items ≡ line.old.items
        ++ xy_text (rounded x.num x.den) (rounded y.num y.den)) }
{
    put_xy(line, round(x), round(y))
}

/// Adds the point in which two segments cross, rounded to whole units.
fn put_meeting(line: &mut Vec<u8>, first: Seg, second: Seg) -> Result<(), OutOfMemory>
    requires { conflict_of first second ≡ Some Kind.Crossing }
    ensures { OnOk result ((text : List ℕ) × IsMeetingText first second text
        × (line.new.items ≡ line.old.items ++ text)) }
{
    let (x, y) = meeting(first, second);
    put_rounded(line, x, y)?;
    Ok(())
}

/// Adds the stretch that two overlapping segments share.
fn put_shared(line: &mut Vec<u8>, first: Seg, second: Seg) -> Result<(), OutOfMemory>
    requires { conflict_of first second ≡ Some Kind.Overlap }
    ensures { OnOk result (line.new.items ≡ line.old.items ++ shared_text first second) }
{
    let shared = overlap(first, second);
    put_stretch(line, shared.a, shared.b)
}

/// Adds a crossing: the word for it, its point and its segments.
pub(crate) fn put_crossing(
    line: &mut Vec<u8>,
    word: &str,
    first: Seg,
    second: Seg,
) -> Result<(), OutOfMemory>
    requires { conflict_of first second ≡ Some Kind.Crossing }
    ensures { OnOk result ((point : List ℕ) × IsMeetingText first second point
        × (line.new.items ≡ line.old.items
        ++ (word.now ++ codes " " ++ point ++ pair_text first second))) }
{
    line.extend_from_slice(word.as_bytes())?;
    line.push(b' ')?;
    put_meeting(line, first, second)?;
    put_pair(line, first, second)?;
    Ok(())
}

/// Adds an overlap: the word for it, the stretch that is shared, and its segments.
pub(crate) fn put_overlap(
    line: &mut Vec<u8>,
    word: &str,
    first: Seg,
    second: Seg,
) -> Result<(), OutOfMemory>
    requires { conflict_of first second ≡ Some Kind.Overlap }
    ensures { OnOk result (line.new.items ≡ line.old.items
        ++ (word.now ++ codes " " ++ shared_text first second ++ pair_text first second)) }
{
    line.extend_from_slice(word.as_bytes())?;
    line.push(b' ')?;
    put_shared(line, first, second)?;
    put_pair(line, first, second)
}

/// Adds a segment that stands more than once, with the word for that.
pub(crate) fn put_repeated(
    line: &mut Vec<u8>,
    word: &str,
    seg: Seg,
    times: u64,
) -> Result<(), OutOfMemory>
    ensures { OnOk result (line.new.items ≡ line.old.items ++ (codes "segment "
        ++ segment_text seg ++ codes " " ++ word.now ++ codes " " ++ decimal times
        ++ codes " times")) }
{
    line.extend_from_slice(b"segment ")?;
    put_stretch(line, seg.a, seg.b)?;
    line.push(b' ')?;
    line.extend_from_slice(word.as_bytes())?;
    line.push(b' ')?;
    put_number(line, times)?;
    line.extend_from_slice(b" times")?;
    Ok(())
}
