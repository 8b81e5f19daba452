//! The polygons of sided edges.

ghost use Rattle.std.specs.Prelude.{IfOk};
ghost use Rattle.osm_nest.specs.Cover.{AreSided};
ghost use Rattle.osm_nest.specs.Nested.{ArePolygons};
ghost use Rattle.osm_geom.specs.InPlane.Sided.{IsSided};

use crate::grouping::nest_rings;
use crate::laws::rings_may_be_nested;
use crate::polygon::Polygons;
use osm_geom::Edges;
use osm_rings::rings;
use std::alloc::{AllocError as OutOfMemory, Global};

/// The polygons of sided edges: cut into rings, each inner ring put under the outer one that directly encloses it.
pub fn polygons(alloc: Global, edges: Edges) -> Result<Polygons, OutOfMemory>
    requires { IsSided edges }
    ensures polygons { IfOk result (λ polygons. ArePolygons edges polygons) }
    ensures sided { IfOk result (λ polygons. AreSided polygons) }
{
    rings_may_be_nested();
    let rings = rings(alloc, edges)?;
    nest_rings(alloc, rings)
}
