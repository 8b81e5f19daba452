//! Coordinates and the location that they make.

ghost use Rattle.std.specs.Prelude.{◌≡◌, pos, option_and_then};
ghost use Rattle.osm_elements.specs.Places.{location_from};
ghost use Rattle.opl_reader.specs.NumberReading.{decimal_of};
ghost use Rattle.osm_elements.specs.Places.{longitude, latitude};
ghost use Rattle.opl_reader.specs.CoordinateReading.{x_spelled, y_spelled};

use crate::number::decimal;
use osm_elements::{Latitude, Longitude};
use osm_lattice::Loc;

/// The longitude of a decimal.
fn longitude(bytes: &[u8]) -> Option<Longitude>
    ensures { result ≡ option_and_then longitude (decimal_of (pos 1800000000) bytes.now) }
{
    let units = decimal(bytes, 1_800_000_000)?;
    Some(Longitude {
        units: units as i32,
    })
}

/// The latitude of a decimal.
fn latitude(bytes: &[u8]) -> Option<Latitude>
    ensures { result ≡ option_and_then latitude (decimal_of (pos 900000000) bytes.now) }
{
    let units = decimal(bytes, 900_000_000)?;
    Some(Latitude {
        units: units as i32,
    })
}

/// Nothing, or a longitude.
#[tactic(auto, unfolding(crate::specs::CoordinateReading::x_spelled))]
pub fn x_spelled(bytes: &[u8]) -> Option<Option<Longitude>>
    ensures { result ≡ x_spelled bytes.now }
{
    if bytes.is_empty() {
        return Some(None);
    }
    let x = longitude(bytes)?;
    Some(Some(x))
}

/// Nothing, or a latitude.
#[tactic(auto, unfolding(crate::specs::CoordinateReading::y_spelled))]
pub fn y_spelled(bytes: &[u8]) -> Option<Option<Latitude>>
    ensures { result ≡ y_spelled bytes.now }
{
    if bytes.is_empty() {
        return Some(None);
    }
    let y = latitude(bytes)?;
    Some(Some(y))
}

/// A location, if both coordinates are there.
pub fn location_from(x: Option<Longitude>, y: Option<Latitude>) -> Option<Loc>
    ensures { result ≡ location_from x y }
{
    match (x, y) {
        (Some(x), Some(y)) => Some(Loc {
            x: x.units,
            y: y.units,
        }),
        _ => None,
    }
}
