//! Lists of edges between lattice points.
ghost use Rattle.osm_geom.specs.InPlane.SidedLaws.{LatticeEdgesAreWhole, LatticeIsSided};

/// A list of edges between lattice points is itself the multiplied list.
///
/// It is sided exactly if the plane's edges between the same points are.
pub fn lattice_edges_are_whole()
    ensures edges { LatticeEdgesAreWhole }
    ensures sided { LatticeIsSided }
{}
