//! The paths along which rings run.

ghost use Rattle.std.specs.Prelude.{◌≡◌, All, slice_get};
ghost use Rattle.osm_geom.specs.WholeSegment.{IsWholeSegment};
ghost use Rattle.osm_nest.specs.Polygons.{rings_of};
ghost use Rattle.osm_text.specs.Paths.{PathsPassAll, location_at, path_along};

use osm_geom::{Edge, Loc, Point};
use osm_nest::Polygons;

/// The location that a point is, where it is one.
pub(crate) fn location_at(point: Point) -> Option<Loc>
    ensures { result ≡ location_at point }
{
    match point {
        Point::Lattice(at) => Some(at),
        Point::OnVertical { .. } | Point::OnHorizontal { .. } => None,
    }
}

/// The first location that edges leave.
pub(crate) fn first_along(edges: &[Edge]) -> Option<Loc>
    ensures { result ≡ slice_get (path_along edges.now) 0 }
{
    for edge in edges {
        if let Some(at) = location_at(edge.from) {
            return Some(at);
        }
    }
    None
}

/// The law that the paths of rings along whole segments leave no point out.
#[tactic(auto, using(crate::proofs::WholePaths::all_pass))]
pub fn whole_segments_have_paths(_polygons: &Polygons)
    requires { All (All IsWholeSegment) (rings_of _polygons.now) }
    ensures { PathsPassAll _polygons.now }
{}
