//! Nodes and ways of the sample, each by itself.

ghost use Rattle.std.specs.Prelude.{◌≡◌, ◌≤◌, ◌+◌, IfOk, OnOk, [], ◌∷◌, ◌++◌, ℤ, map};
ghost use Rattle.osm_sample.specs.Objects.{node_at, place_at};

use osm_elements::{Object, Tags};
use osm_lattice::Loc;
use std::alloc::Global;

/// The location of these coordinates, in units of 1e-7 degree. None if they are out of range.
fn place_at(x: i64, y: i64) -> Option<Loc>
    ensures { result ≡ place_at x y }
{
    Loc::new(x, y)
}

/// A node without tags.
pub(crate) fn node_at(alloc: Global, id: u32, x: i64, y: i64) -> Object
    ensures { result ≡ node_at id x y }
{
    Object::Node {
        id: i64::from(id),
        live: true,
        tags: Tags::new(alloc),
        place: place_at(x, y),
    }
}
