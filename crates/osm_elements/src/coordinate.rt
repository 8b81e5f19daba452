//! Coordinates of a location, each within its range.

ghost use Rattle.osm_lattice.specs.Bounds.{IsLongitude, IsLatitude};

/// A longitude, in units of 1e-7 degree.
#[derive(Clone, Copy, Debug, PartialEq, Eq)]
pub struct Longitude {
    pub units: i32,
    pub ghost in_range: { IsLongitude units },
}

/// A latitude, in units of 1e-7 degree.
#[derive(Clone, Copy, Debug, PartialEq, Eq)]
pub struct Latitude {
    pub units: i32,
    pub ghost in_range: { IsLatitude units },
}
