//! The area that surviving segments make.

ghost use Rattle.std.specs.Prelude.{◌≡◌, ◌≢◌, [], All, IfOk};
ghost use Rattle.osm_lattice.specs.Seg.{seg_cmp};
ghost use Rattle.lists.specs.Rising.{IsRising};
ghost use Rattle.osm_geom.specs.WholeSegment.{IsWholeSegment};
ghost use Rattle.osm_nest.specs.Nested.{HasKinds};
ghost use Rattle.osm_nest.specs.Polygons.{rings_of};
ghost use Rattle.osm_area.specs.Area.{IsArea};
ghost use Rattle.osm_area.specs.Made.{IsMade, IsOutlineAmong};

use osm_geom::{Edges, Seg};
use osm_nest::{Polygons, nest_rings, rings_may_be_nested};
use osm_rings::rings;
use osm_segments::{Outline, outline_of, survivors};
use osm_sides::direct;
use std::alloc::{AllocError as OutOfMemory, Global};

/// The polygons of an outline. Its segments are directed with their odd sides on the left and cut into rings.
///
/// Each inner ring is put under the outer one that directly encloses it.
pub(crate) fn area(alloc: Global, outline: Outline) -> Result<Polygons, OutOfMemory>
    requires { outline ≢ [] }
    ensures area { IfOk result (λ polygons. IsArea outline polygons) }
    ensures rings { IfOk result (λ polygons. All HasKinds polygons) }
    ensures whole { IfOk result (λ polygons. All (All IsWholeSegment) (rings_of polygons)) }
{
    let edges = direct(alloc, outline)?;
    rings_may_be_nested();
    let rings = rings(alloc, Edges::from_vec(edges))?;
    nest_rings(alloc, rings)
}

/// What surviving segments make.
#[derive(Drop)]
pub(crate) enum Made {
    /// The polygons of an area.
    Area(Polygons),
    /// Nothing, since there is no segment.
    Nothing,
    /// Nothing, since these segments aren't an outline.
    Faulty(Vec<Seg>),
}

/// What surviving segments make. No conflict is listed.
pub(crate) fn made_of(alloc: Global, survivors: Vec<Seg>) -> Result<Made, OutOfMemory>
    requires { IsRising seg_cmp survivors.items }
    ensures { IfOk result (IsMade survivors.items) }
{
    if survivors.is_empty() {
        return Ok(Made::Nothing);
    }
    match outline_of(alloc, survivors)? {
        Ok(outline) => {
            let polygons = area(alloc, outline)?;
            Ok(Made::Area(polygons))
        }
        Err(left) => Ok(Made::Faulty(left)),
    }
}

/// The outline of the surviving segments. None if nothing survives, or the survivors aren't an outline.
pub(crate) fn outline_among(alloc: Global, segs: &[Seg]) -> Result<Option<Outline>, OutOfMemory>
    ensures { IfOk result (IsOutlineAmong segs.now) }
{
    let left = survivors(alloc, segs)?;
    if left.is_empty() {
        return Ok(None);
    }
    match outline_of(alloc, left)? {
        Ok(outline) => Ok(Some(outline)),
        Err(_) => Ok(None),
    }
}
