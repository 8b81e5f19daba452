//! The polygons of a ring list.
ghost use Rattle.std.specs.Prelude.{All, AllPairs, IfOk, List, OnOk, [], length, map, slice_index_or, true, ℕ, ◌++◌, ◌<◌, ◌∷◌, ◌≡◌, ◌≢◌};
ghost use Rattle.std.specs.List.{filter};
ghost use Rattle.osm_geom.specs.declared.edge.Edge.{Edge};
ghost use Rattle.osm_nest.specs.Cover.{AreSided, CoverAsRings};
ghost use Rattle.osm_nest.specs.Grouped.{ArePlaced, AreWithin, IsGrouping, MayBeGrouped, polygons_of, polygons_of_all, rings_under, stands_first, with_under};
ghost use Rattle.osm_nest.specs.Nested.{AreNested, HasKinds};
ghost use Rattle.osm_nest.specs.OneOuter.{IsOnlyOuter};
ghost use Rattle.osm_nest.specs.Polygons.{rings_of};
ghost use Rattle.osm_nest.specs.RingLists.{AreRings};
ghost use Rattle.osm_geom.specs.WholeSegment.{IsWholeSegment};

use crate::enclosers::direct_enclosers;
use crate::few::one_outer::{inside_one, only_outer};
use crate::polygon::{Polygon, Polygons};
use crate::rings_from_least::{RingFromLeast, are_in_order, sorted, turned};
use osm_rings::{Ring, Rings};
use std::alloc::{AllocError as OutOfMemory, Global};
use std::mem;

/// An empty list for each place.
fn no_rings(alloc: Global, places: usize) -> Result<Vec<Rings>, OutOfMemory>
    ensures sized { IfOk result (λ v. length v.items ≡ places) }
    ensures empty { IfOk result (λ v. All (λ (under : List (List Edge)). under ≡ []) v.items) }
{
    let mut under = Vec::with_capacity(alloc, places)?;
    for _ in 0..places {
        under.push(Rings::new(alloc))?;
    }
    Ok(under)
}

/// Adds one ring to the end of the outer ones, or of those under its encloser.
fn place_ring(
    outers: &mut Vec<RingFromLeast>,
    under: &mut Vec<Rings>,
    enclosers: &[Option<usize>],
    begun: RingFromLeast,
) -> Result<(), OutOfMemory>
    requires place { begun.place < length enclosers.now }
    requires enclosers { AreWithin enclosers.now }
    requires room { length under.old.items ≡ length enclosers.now }
    ensures outers { OnOk result (outers.new.items
        ≡ outers.old.items ++ filter (stands_first enclosers.now) (begun ∷ [])) }
    ensures room { OnOk result (length under.new.items ≡ length enclosers.now) }
    ensures under { OnOk result ((place : ℕ) → slice_index_or under.new.items place []
        ≡ slice_index_or under.old.items place [] ++ rings_under enclosers.now (begun ∷ []) place) }
{
    match enclosers[begun.place] {
        None => outers.push(begun)?,
        Some(encloser) => under[encloser].push(begun.ring)?,
    }
    Ok(())
}

/// Each outer ring with the rings under it.
fn with_inner_rings(
    alloc: Global,
    outers: Vec<RingFromLeast>,
    mut under: Vec<Rings>,
) -> Result<Polygons, OutOfMemory>
    requires within { All (λ b. b.place < length under.items) outers.items }
    requires once { AllPairs (λ b c. b.place ≢ c.place) outers.items }
    ensures { IfOk result (λ v. v ≡ map (with_under under.items) outers.items) }
{
    let mut polygons = Polygons::with_capacity(alloc, outers.len())?;
    for begun in outers {
        let inners = mem::replace(&mut under[begun.place], Rings::new(alloc));
        polygons.push(Polygon {
            outer: begun.ring,
            inners,
        })?;
    }
    Ok(polygons)
}

/// The rings without an encloser, each with the rings that it encloses.
fn polygons_of(
    alloc: Global,
    rings: Vec<RingFromLeast>,
    enclosers: &[Option<usize>],
) -> Result<Polygons, OutOfMemory>
    requires placed { ArePlaced (length enclosers.now) rings.items }
    requires enclosers { AreWithin enclosers.now }
    ensures { IfOk result (λ v. v ≡ polygons_of enclosers.now rings.items) }
{
    let mut outers = Vec::new(alloc);
    let mut under = no_rings(alloc, enclosers.len())?;
    for ring in rings {
        place_ring(&mut outers, &mut under, enclosers, ring)?;
    }
    with_inner_rings(alloc, outers, under)
}

/// The polygon of the ring at a place and all others, which are in order.
fn polygon_of_all(
    alloc: Global,
    mut rings: Vec<Ring>,
    outer: usize,
) -> Result<Polygons, OutOfMemory>
    requires { outer < length rings.items }
    ensures { IfOk result (λ v. v ≡ polygons_of_all outer rings.items) }
{
    let mut polygons = Polygons::with_capacity(alloc, 1)?;
    let outer = rings.remove(outer);
    let inners = Rings::from_vec(rings);
    polygons.push(Polygon { outer, inners })?;
    Ok(polygons)
}

/// Each outer ring with the rings that it encloses.
fn under_enclosers(
    alloc: Global,
    rings: Vec<Ring>,
    enclosers: &[Option<usize>],
) -> Result<Polygons, OutOfMemory>
    requires { (rs : List (List Edge)) × MayBeGrouped rs rings.items enclosers.now }
    ensures { IfOk result (λ v. (rs : List (List Edge)) → MayBeGrouped rs rings.items enclosers.now
        → IsGrouping rs v) }
{
    let begun = sorted(alloc, rings)?;
    polygons_of(alloc, begun, enclosers)
}

/// The only outer ring with all others. Mostly these are in order.
fn under_one(alloc: Global, rings: Rings, only: usize) -> Result<Polygons, OutOfMemory>
    requires rings { AreRings rings }
    requires only { IsOnlyOuter rings only }
    ensures { IfOk result (λ v. IsGrouping rings v) }
{
    let rings = turned(rings.into_vec());
    if are_in_order(&rings) {
        return polygon_of_all(alloc, rings, only);
    }
    let enclosers = inside_one(alloc, rings.len(), only)?;
    under_enclosers(alloc, rings, &enclosers)
}

/// Each outer ring with those that it directly encloses.
///
/// Ways: rings of which exactly one is outer (few); all others by direct enclosers.
fn group(alloc: Global, rings: Rings) -> Result<Polygons, OutOfMemory>
    requires { AreRings rings }
    ensures { IfOk result (λ v. IsGrouping rings v) }
{
    if let Some(only) = only_outer(rings.as_slice()) {
        return under_one(alloc, rings, only);
    }
    let enclosers = direct_enclosers(alloc, rings.as_slice())?;
    under_enclosers(alloc, turned(rings.into_vec()), &enclosers)
}

/// Copies of the rings.
fn copied(alloc: Global, rings: &[Ring]) -> Result<Rings, OutOfMemory>
    ensures { IfOk result (λ v. v ≡ rings.now) }
{
    let mut copies = Rings::with_capacity(alloc, rings.len())?;
    for ring in rings {
        copies.push(Ring::of_edges(Vec::from_slice(alloc, ring.as_slice())?))?;
    }
    Ok(copies)
}

/// The polygons of a ring list.
///
/// Each ring is in exactly one polygon, once, and begins at its least node. An outer ring comes first in a polygon of its
/// own, and an inner ring is under the outer one that directly encloses it. Polygons, by their outer rings, and inner rings
/// are in order of their least nodes, and then of the next.
///
/// If all edges run along whole segments, so do those of the polygons. Fails only if memory runs out.
pub fn nest(alloc: Global, rings: &[Ring]) -> Result<Polygons, OutOfMemory>
    requires { AreRings rings.now }
    ensures nested { IfOk result (λ polygons. AreNested rings.now polygons) }
    ensures kinds { IfOk result (λ polygons. All HasKinds polygons) }
    ensures whole { All (All IsWholeSegment) rings.now
        → IfOk result (λ polygons. All (All IsWholeSegment) (rings_of polygons)) }
    ensures sided { IfOk result (λ polygons. AreSided polygons) }
    ensures cover { IfOk result (λ polygons. CoverAsRings rings.now polygons) }
{
    nest_rings(alloc, copied(alloc, rings)?)
}

/// What `nest` gives for rings that aren't needed afterwards: they are turned in place.
pub fn nest_rings(alloc: Global, rings: Rings) -> Result<Polygons, OutOfMemory>
    requires { AreRings rings }
    ensures nested { IfOk result (λ polygons. AreNested rings polygons) }
    ensures kinds { IfOk result (λ polygons. All HasKinds polygons) }
    ensures whole { All (All IsWholeSegment) rings
        → IfOk result (λ polygons. All (All IsWholeSegment) (rings_of polygons)) }
    ensures sided { IfOk result (λ polygons. AreSided polygons) }
    ensures cover { IfOk result (λ polygons. CoverAsRings rings polygons) }
{
    group(alloc, rings)
}
