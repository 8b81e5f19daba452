//! Where locations lie relative to the segments that bound an area: by one sweep upwards over both.

ghost use Rattle.std.specs.Prelude.{◌≡◌, ◌||◌, ◌≤◌, ◌<◌, ◌-◌, ◌%◌, ◌==◌, IfOk, IfSome, List, count_by, false, length, map, nat_lt, true};
ghost use Rattle.std.specs.List.{AllWithin};
ghost use Rattle.plane.specs.Vector.{Vector};
ghost use Rattle.osm_lattice.specs.declared.seg.Seg.{Seg};
ghost use Rattle.osm_lattice.specs.Loc.{vector_of};
ghost use Rattle.osm_lattice.specs.Seg.{edge_of};
ghost use Rattle.osm_segments.specs.Outlines.{IsOutline};
ghost use Rattle.osm_segments.specs.Sweep.{AreByEnds};
ghost use Rattle.plane_lists.specs.Statuses.Status.{IsStatus};
ghost use Rattle.osm_sides.specs.PointPlaces.{HeightsNeverFall, place_among, place_by_parity};
ghost use Rattle.osm_sides.specs.PointSteps.{AreLevels, passes_through};
ghost use Rattle.osm_sides.specs.SideTests.{left_of};
ghost use Rattle.osm_sides.specs.Sweep.{AreEnds};

use crate::levels::Levels;
use crate::sweep::leaving::leaving;
use crate::sweep::rising::{Progress, rise};
use crate::sweep::rows::left_from;
use chunked_list::ChunkedList;
use osm_geom::{Loc, Seg};
use osm_segments::{Outline, in_order_of_ends};
use std::alloc::{AllocError as OutOfMemory, Global};

/// Where a location lies relative to the segments that bound an area.
#[derive(Clone, Copy, Debug, PartialEq, Eq)]
pub enum Place {
    /// Outside.
    Off,
    /// Inside, on none of the segments.
    In,
    /// On one of the segments.
    On,
}

/// Where a location lies, by three answers.
///
/// They say whether it is on the level part of a segment, whether a segment passes through it, and whether an odd number of
/// segments are on its right.
fn place_by(is_level: bool, is_passed: bool, is_odd: bool) -> Place
    ensures { result ≡ place_by_parity (is_level || is_passed) is_odd }
{
    if is_level || is_passed {
        Place::On
    } else if is_odd {
        Place::In
    } else {
        Place::Off
    }
}

/// Whether a segment of the status passes through `p`.
/// Those from a place on are right of it, so the last one before them decides.
fn is_passed(status: &ChunkedList<Seg>, from: usize, p: Loc) -> bool
    requires status { (segs : List Seg) × IsStatus edge_of (vector_of p) segs status.now }
    requires within { from ≤ length status.now }
    requires before { AllWithin (λ t. left_of p t ≡ false) status.now 0 from }
    requires after { AllWithin (λ t. left_of p t ≡ true) status.now from (length status.now) }
    ensures { result ≡ nat_lt 0 (count_by (passes_through p) status.now) }
{
    from > 0 && !status.get(from - 1).has_on_right(p)
}

/// Where `p` lies relative to segments, by the status of a sweep at its height and by their level parts.
fn place_of(status: &ChunkedList<Seg>, levels: &Levels, p: Loc) -> Place
    requires { (segs : List Seg) × IsOutline segs × AreLevels segs levels.now
        × (height : Vector) × (p.y ≡ height.y) × IsStatus edge_of height segs status.now }
    ensures { (segs : List Seg) → IsOutline segs → AreLevels segs levels.now
        → (height : Vector) → p.y ≡ height.y → IsStatus edge_of height segs status.now
        → result ≡ place_among p segs }
{
    let from = left_from(status, status.last_changed(), p);
    place_by(
        levels.has(p),
        is_passed(status, from, p),
        (status.len() - from) % 2 == 1,
    )
}

/// Where each location lies, by the segments in the order in which they leave the sweep, and by their level parts.
fn places_along(
    alloc: Global,
    segs: &[Seg],
    ends: &[Seg],
    levels: &Levels,
    points: &[Loc],
) -> Result<Vec<Place>, OutOfMemory>
    requires outline { IsOutline segs.now }
    requires ends { AreEnds segs.now ends.now }
    requires levels { AreLevels segs.now levels.now }
    requires points { HeightsNeverFall points.now }
    ensures { IfOk result (λ v. v.items ≡ map (λ p. place_among p segs.now) points.now) }
{
    let mut places = Vec::with_capacity(alloc, points.len())?;
    let mut status = ChunkedList::new(alloc);
    let mut progress = Progress { begun: 0, left: 0 };
    for &p in points {
        progress = rise(&mut status, segs, ends, progress, p)?;
        places.push(place_of(&status, levels, p))?;
    }
    Ok(places)
}

/// The segments in the order of their upper ends.
fn in_order_to_leave(
    alloc: Global,
    segs: &[Seg],
    ends: Option<Vec<Seg>>,
) -> Result<Vec<Seg>, OutOfMemory>
    requires { IfSome ends (λ ends. AreByEnds segs.now ends.items) }
    ensures { IfOk result (λ ends. AreEnds segs.now ends.items) }
{
    match ends {
        Some(ends) => Ok(leaving(ends)),
        None => Ok(leaving(in_order_of_ends(Vec::from_slice(alloc, segs)?))),
    }
}

/// Where each of some locations lies relative to the segments of an outline. The locations are in order of height.
///
/// Fails only if memory runs out.
pub fn places_among(
    alloc: Global,
    outline: Outline,
    points: &[Loc],
) -> Result<Vec<Place>, OutOfMemory>
    requires { HeightsNeverFall points.now }
    ensures { IfOk result (λ v. v.items ≡ map (λ p. place_among p outline) points.now) }
{
    let (segs, ends) = outline.into_parts();
    let levels = Levels::of(alloc, &segs)?;
    let ends = in_order_to_leave(alloc, &segs, ends)?;
    places_along(alloc, &segs, &ends, &levels, points)
}
