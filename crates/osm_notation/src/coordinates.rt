//! Coordinates and points.

ghost use Rattle.std.specs.Prelude.{◌≡◌, ◌∷◌, ◌++◌, OnOk, OnErr};
ghost use Rattle.osm_notation.specs.Decimal.{units_text};
ghost use Rattle.osm_notation.specs.Coordinates.{xy_text, point_text};
ghost use Rattle.osm_notation.specs.Kept.{KeepsFront};

use crate::decimal::{put_byte, put_decimal, put_units};
use osm_geom::Loc;
use std::alloc::AllocError as OutOfMemory;

/// Room for two coordinates and a byte between them.
const ROOM: usize = 45;

/// Adds a coordinate of `v` units of 1e-7 degree.
pub fn put_coordinate(text: &mut Vec<u8>, v: i64) -> Result<(), OutOfMemory>
    ensures text { OnOk result (text.new.items ≡ text.old.items ++ units_text v) }
    ensures kept { OnErr result (KeepsFront text.old.items text.new.items) }
{
    let mut buf = [0; 24];
    let len = put_decimal(&mut buf, v);
    text.extend_from_slice(&buf[..len])?;
    Ok(())
}

/// Adds two coordinates and the byte between them.
pub fn put_both(text: &mut Vec<u8>, x: i64, between: u8, y: i64) -> Result<(), OutOfMemory>
    ensures text { OnOk result (text.new.items
        ≡ text.old.items ++ units_text x ++ between ∷ units_text y) }
    ensures kept { OnErr result (KeepsFront text.old.items text.new.items) }
{
    let mut buf = [0; ROOM];
    let first = put_units(&mut buf, 0, x);
    let second = put_byte(&mut buf, first, between);
    let len = put_units(&mut buf, second, y);
    text.extend_from_slice(&buf[..len])?;
    Ok(())
}

/// Adds the point of these coordinates.
pub fn put_xy(text: &mut Vec<u8>, x: i64, y: i64) -> Result<(), OutOfMemory>
    ensures text { OnOk result (text.new.items ≡ text.old.items ++ xy_text x y) }
    ensures kept { OnErr result (KeepsFront text.old.items text.new.items) }
{
    put_both(text, x, b' ', y)
}

/// Adds a point.
pub fn put_point(text: &mut Vec<u8>, point: Loc) -> Result<(), OutOfMemory>
    ensures text { OnOk result (text.new.items ≡ text.old.items ++ point_text point) }
    ensures kept { OnErr result (KeepsFront text.old.items text.new.items) }
{
    put_xy(text, i64::from(point.x), i64::from(point.y))
}
