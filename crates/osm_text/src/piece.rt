//! Pieces of land and of water, the lines of a coastline output.

ghost use Rattle.std.specs.Prelude.{◌≡◌, ◌++◌, ◌∷◌, [], IfOk, OnOk, OnErr, option_map};
ghost use Rattle.std.specs.List.{filter_map, flat_map};
ghost use Rattle.osm_notation.specs.Kept.{KeepsFront};
ghost use Rattle.osm_text.specs.Piece.{piece_kind_text, piece_text, vanished_in};
ghost use Rattle.osm_text.specs.PieceSteps.{hole_text};
ghost use Rattle.osm_text.specs.Rounded.{has_vanished, rounded_ring, vanished_at};

use crate::notation::{Notation, put_ring};
use crate::rounded::{least_near, rounded_ring};
use osm_geom::{Loc, Locs};
use osm_nest::Polygon;
use osm_rings::Ring;
use std::alloc::{AllocError as OutOfMemory, Global};

/// Room for the text of an ordinary piece, so that it seldom grows.
const FIRST_ROOM: usize = 1_024;

/// A ring of fewer locations has vanished.
const FEWEST: usize = 3;

/// What a piece covers.
#[derive(Clone, Copy, Debug, PartialEq, Eq)]
pub enum PieceKind {
    /// Land, to the left of the coast.
    Land,
    /// Water, to the right of the coast.
    Water,
}

/// A piece as it is printed.
#[derive(Debug, Drop)]
pub struct Piece {
    /// Its line; None where its outer ring has vanished.
    pub text: Option<Vec<u8>>,
    /// The least nodes, rounded, of the rings that have vanished, the outer one's first.
    pub vanished: Locs,
}

/// Adds what a piece is.
fn put_kind(text: &mut Vec<u8>, kind: PieceKind) -> Result<(), OutOfMemory>
    ensures text { OnOk result (text.new.items ≡ text.old.items ++ piece_kind_text kind) }
    ensures kept { OnErr result (KeepsFront text.old.items text.new.items) }
{
    let word = match kind {
        PieceKind::Land => "land ",
        PieceKind::Water => "water ",
    };
    text.extend_from_slice(word.as_bytes())?;
    Ok(())
}

/// Tells whether a ring of which this is left has vanished, and notes where.
fn note_vanished(
    alloc: Global,
    vanished: &mut Locs,
    ring: &Ring,
    left: &[Loc],
) -> Result<bool, OutOfMemory>
    requires { left.now ≡ rounded_ring ring.now }
    ensures has { IfOk result (λ has. has ≡ has_vanished ring.now) }
    ensures noted { OnOk result (vanished.new
        ≡ vanished.old ++ filter_map vanished_at (ring.now ∷ [])) }
{
    if left.len() < FEWEST {
        vanished.push(least_near(alloc, ring)?)?;
        return Ok(true);
    }
    Ok(false)
}

/// Adds a hole behind a comma, or notes where it has vanished.
fn put_hole(
    alloc: Global,
    text: &mut Vec<u8>,
    vanished: &mut Locs,
    ring: &Ring,
) -> Result<(), OutOfMemory>
    ensures text { OnOk result (text.new.items ≡ text.old.items ++ hole_text ring.now) }
    ensures kept { OnErr result (KeepsFront text.old.items text.new.items) }
    ensures noted { OnOk result (vanished.new
        ≡ vanished.old ++ filter_map vanished_at (ring.now ∷ [])) }
{
    let left = rounded_ring(alloc, ring)?;
    if note_vanished(alloc, vanished, ring, &left)? {
        return Ok(());
    }
    text.push(b',')?;
    put_ring(text, Notation::WellKnown, &left)
}

/// Adds holes, each behind a comma, and notes where some have vanished.
fn put_holes(
    alloc: Global,
    text: &mut Vec<u8>,
    vanished: &mut Locs,
    rings: &[Ring],
) -> Result<(), OutOfMemory>
    ensures text { OnOk result (text.new.items ≡ text.old.items ++ flat_map hole_text rings.now) }
    ensures kept { OnErr result (KeepsFront text.old.items text.new.items) }
    ensures noted { OnOk result (vanished.new ≡ vanished.old ++ filter_map vanished_at rings.now) }
{
    for ring in rings {
        put_hole(alloc, text, vanished, ring)?;
    }
    Ok(())
}

/// The line of a piece, `land ` or `water `, its polygon in well-known text, and LF; and what has vanished of it.
///
/// Each point is rounded to whole units of 1e-7 degree, a half upwards, and equal neighbours of a ring are then taken
/// once. A ring of which fewer than three points are left has vanished: it isn't printed, nor is the polygon where it
/// is the outer one. Each ring is printed with its first point again at the end, in degrees. The error is want of memory.
pub fn piece_text(alloc: Global, kind: PieceKind, polygon: &Polygon) -> Result<Piece, OutOfMemory>
    ensures text { IfOk result (λ piece. option_map (λ text. text.items) piece.text
        ≡ piece_text kind polygon.now) }
    ensures vanished { IfOk result (λ piece. piece.vanished ≡ vanished_in polygon.now) }
{
    let outer = rounded_ring(alloc, &polygon.outer)?;
    let mut vanished = Locs::new(alloc);
    let has_vanished = note_vanished(alloc, &mut vanished, &polygon.outer, &outer)?;
    let mut text = Vec::with_capacity(alloc, FIRST_ROOM)?;
    put_kind(&mut text, kind)?;
    text.extend_from_slice(b"POLYGON(")?;
    put_ring(&mut text, Notation::WellKnown, &outer)?;
    put_holes(alloc, &mut text, &mut vanished, polygon.inners.as_slice())?;
    text.extend_from_slice(b")\n")?;
    if has_vanished {
        return Ok(Piece {
            text: None,
            vanished,
        });
    }
    Ok(Piece {
        text: Some(text),
        vanished,
    })
}
