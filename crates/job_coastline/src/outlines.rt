//! The outlines of the polygons of land and of water.

ghost use Rattle.std.specs.Prelude.{◌≡◌, ◌++◌, ◌∷◌, [], All, IfOk, List, OnOk, map};
ghost use Rattle.std.specs.List.{IsDistinct};
ghost use Rattle.std.specs.Ordering.{int_eq};
ghost use Rattle.job_coastline.specs.Coastline.{AreLand, AreWater};
ghost use Rattle.job_coastline.specs.OutlineSteps.{AreEdgesOf, AreOutlinesOf, IsShoreOf};
ghost use Rattle.coast_join.specs.declared.input.CoastInput.{CoastInput};
ghost use Rattle.coast_join.specs.declared.way.CoastWay.{CoastWay};
ghost use Rattle.job_coastline.specs.Pieces.{has_land, has_water};
ghost use Rattle.osm_geom.specs.InPlane.Sided.{IsSided};
ghost use Rattle.osm_geom.specs.WholeSegment.{IsWholeSegment};
ghost use Rattle.osm_nest.specs.Cover.{AreSided};
ghost use Rattle.osm_nest.specs.Polygons.{edges_in};
ghost use Rattle.osm_nest.specs.declared.polygon.Polygon.{Polygon};
ghost use Rattle.osm_words.specs.Answers.{coastline_seen};

use crate::coast::{Shore, shore_of};
use coast_join::CoastInput;
use coast_sides::water;
use osm_geom::Edges;
use osm_nest::{Polygon, Polygons, polygons};
use osm_text::CoastLine;
use osm_words::{CoastlineSettings, OutputPolygons};
use std::alloc::{AllocError as OutOfMemory, Global};

/// The edges of the polygons that are asked for, a list for each, and the report lines of the coast.
#[derive(Drop)]
pub(crate) struct Outlines {
    /// Of land; none where it isn't asked for.
    pub(crate) land: Vec<Edges>,
    /// Of water; none where it isn't asked for.
    pub(crate) water: Vec<Edges>,
    /// The lines of the report, but for those of leaves.
    pub(crate) lines: Vec<CoastLine>,
}

/// Whether the polygons of land are asked for.
fn has_land(asked: OutputPolygons) -> bool
    ensures { result ≡ has_land asked }
{
    match asked {
        OutputPolygons::Land | OutputPolygons::Both => true,
        OutputPolygons::Water | OutputPolygons::Neither => false,
    }
}

/// Whether those of water are.
fn has_water(asked: OutputPolygons) -> bool
    ensures { result ≡ has_water asked }
{
    match asked {
        OutputPolygons::Water | OutputPolygons::Both => true,
        OutputPolygons::Land | OutputPolygons::Neither => false,
    }
}

/// The edges of a polygon, ring by ring, in the memory of its outer ring.
fn edges_of(polygon: Polygon) -> Result<Edges, OutOfMemory>
    ensures { IfOk result (λ edges. edges ≡ edges_in polygon) }
{
    let Polygon { outer, inners } = polygon;
    let mut edges = outer.into_vec();
    for ring in inners.as_slice() {
        edges.extend_from_slice(ring.as_slice())?;
    }
    Ok(Edges::from_vec(edges))
}

/// The edges of polygons, a list for each.
fn edges_of_each(alloc: Global, polygons: Polygons) -> Result<Vec<Edges>, OutOfMemory>
    requires { AreSided polygons }
    ensures { IfOk result (λ lists. AreEdgesOf polygons lists.items) }
{
    let mut lists = Vec::new(alloc);
    for polygon in polygons.into_vec() {
        let edges = edges_of(polygon)?;
        lists.push(edges)?;
    }
    Ok(lists)
}

/// The polygons of land, if they are asked for. The edges of land go.
fn land_polygons(alloc: Global, asked: bool, land: Edges) -> Result<Polygons, OutOfMemory>
    requires { IsSided land }
    ensures land { IfOk result (λ polygons. AreLand asked land polygons) }
    ensures sided { IfOk result (λ polygons. AreSided polygons) }
{
    if asked {
        polygons(alloc, land)
    } else {
        Ok(Polygons::new(alloc))
    }
}

/// The polygons of water, if they are asked for.
fn water_polygons(alloc: Global, asked: bool, land: &Edges) -> Result<Polygons, OutOfMemory>
    requires whole { All IsWholeSegment land.now }
    requires sided { IsSided land.now }
    ensures water { IfOk result (λ polygons. AreWater asked land.now polygons) }
    ensures sided { IfOk result (λ polygons. AreSided polygons) }
{
    if asked {
        let edges = water(alloc, land)?;
        polygons(alloc, edges)
    } else {
        Ok(Polygons::new(alloc))
    }
}

/// The outlines of the polygons of land, if they are asked for. The edges of land go.
fn land_outlines(alloc: Global, asked: bool, land: Edges) -> Result<Vec<Edges>, OutOfMemory>
    requires { IsSided land }
    ensures { IfOk result (λ lists. (polygons : List Polygon)
        × AreLand asked land polygons × AreEdgesOf polygons lists.items) }
{
    let polygons = land_polygons(alloc, asked, land)?;
    edges_of_each(alloc, polygons)
}

/// Those of water, if they are asked for.
fn water_outlines(alloc: Global, asked: bool, land: &Edges) -> Result<Vec<Edges>, OutOfMemory>
    requires whole { All IsWholeSegment land.now }
    requires sided { IsSided land.now }
    ensures { IfOk result (λ lists. (polygons : List Polygon)
        × AreWater asked land.now polygons × AreEdgesOf polygons lists.items) }
{
    let polygons = water_polygons(alloc, asked, land)?;
    edges_of_each(alloc, polygons)
}

/// The outlines of the polygons that are asked for, from what is left of the coast. Those of water come first, since they
/// need the edges of land.
fn outlines_in(
    alloc: Global,
    shore: Shore,
    settings: &CoastlineSettings<'_>,
) -> Result<Outlines, OutOfMemory>
    requires whole { All IsWholeSegment shore.land }
    requires sided { IsSided shore.land }
    ensures { IfOk result (λ outlines. (input : CoastInput)
        → IsShoreOf (coastline_seen settings.now) input shore
        → AreOutlinesOf (coastline_seen settings.now) input outlines) }
{
    let Shore { land, lines } = shore;
    let water = water_outlines(alloc, has_water(settings.polygons), &land)?;
    let land = land_outlines(alloc, has_land(settings.polygons), land)?;
    Ok(Outlines { land, water, lines })
}

/// The outlines of the polygons that come of coastline ways and are asked for.
pub(crate) fn outlines_of(
    alloc: Global,
    input: CoastInput,
    settings: &CoastlineSettings<'_>,
) -> Result<Outlines, OutOfMemory>
    requires { IsDistinct int_eq (map (λ (w : CoastWay). w.id) input.ways) }
    ensures { IfOk result (λ outlines.
        AreOutlinesOf (coastline_seen settings.now) input outlines) }
{
    let shore = shore_of(alloc, input, settings)?;
    outlines_in(alloc, shore, settings)
}
