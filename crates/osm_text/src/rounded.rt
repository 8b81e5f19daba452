//! Rings of which each point is rounded to a location.

ghost use Rattle.std.specs.Prelude.{◌≡◌, Some, IfOk};
ghost use Rattle.osm_geom.specs.Part.{part_num};
ghost use Rattle.osm_geom.specs.Point.{IsInWorld, x_of, y_of};
ghost use Rattle.osm_lattice.specs.Frac.{rounded};
ghost use Rattle.osm_text.specs.Rounded.{least_near, location_near, rounded_ring};
ghost use Rattle.osm_text.specs.RoundedSteps.{location_left};

use osm_geom::{Edge, Loc, Part, Point, round};
use osm_rings::Ring;
use std::alloc::{AllocError as OutOfMemory, Global};

/// The whole number next to a coordinate that isn't whole.
fn part_near(part: Part) -> i32
    ensures { result ≡ rounded (part_num part.floor part.above part.den) part.den }
{
    round(part.frac()) as i32
}

/// The whole number next to a point's x.
#[tactic(auto, using(osm_notation::proofs::RoundedRange::rounded_longitude, osm_notation::proofs::RoundedRange::rounded_whole))]
fn x_near(point: Point) -> i32
    requires { IsInWorld point }
    ensures { result ≡ rounded (x_of point).num (x_of point).den }
{
    match point {
        Point::Lattice(at) => at.x,
        Point::OnVertical { c, .. } => c,
        Point::OnHorizontal { x, .. } => part_near(x),
    }
}

/// The whole number next to a point's y.
#[tactic(auto, using(osm_notation::proofs::RoundedRange::rounded_latitude, osm_notation::proofs::RoundedRange::rounded_whole))]
fn y_near(point: Point) -> i32
    requires { IsInWorld point }
    ensures { result ≡ rounded (y_of point).num (y_of point).den }
{
    match point {
        Point::Lattice(at) => at.y,
        Point::OnVertical { y, .. } => part_near(y),
        Point::OnHorizontal { d, .. } => d,
    }
}

/// The location next to a point: each of its coordinates is rounded to a whole number, and a half upwards.
#[tactic(auto, using(osm_notation::proofs::RoundedRange::rounded_longitude, osm_notation::proofs::RoundedRange::rounded_latitude))]
fn location_near(point: Point) -> Loc
    requires { IsInWorld point }
    ensures { (inside : IsInWorld point) → result ≡ location_near point inside }
{
    Loc {
        x: x_near(point),
        y: y_near(point),
    }
}

/// The location that an edge leaves once its ends are rounded, unless it ends at the same one.
fn location_left(edge: &Edge) -> Option<Loc>
    ensures { result ≡ location_left edge.now }
{
    let (from, to) = (location_near(edge.from), location_near(edge.to));
    if from == to { None } else { Some(from) }
}

/// What is left of a ring once its points are rounded: the locations in order, equal neighbours once.
pub(crate) fn rounded_ring(alloc: Global, ring: &Ring) -> Result<Vec<Loc>, OutOfMemory>
    ensures { IfOk result (λ left. left.items ≡ rounded_ring ring.now) }
{
    let edges = ring.as_slice();
    let mut left = Vec::with_capacity(alloc, edges.len())?;
    left.extend(edges.iter().filter_map(|edge| location_left(edge)))?;
    Ok(left)
}

/// The least node of a ring, rounded. The error is want of memory.
pub(crate) fn least_near(alloc: Global, ring: &Ring) -> Result<Loc, OutOfMemory>
    ensures { IfOk result (λ at. Some at ≡ least_near ring.now) }
{
    let begun = ring.from_least(alloc)?;
    Ok(location_near(begun.as_slice()[0].from))
}
