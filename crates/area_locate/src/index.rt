//! An index over points: stretches of them at several levels, by which those in a rectangle are found.
//!
//! Each stretch is right in itself. How long they are and how they lie bears on speed alone.

ghost use Rattle.std.specs.Prelude.{◌≡◌, ◌<◌, ◌≤◌, All, IfOk, IfSome, List, OnOk};
ghost use Rattle.osm_lattice.specs.declared.loc.Loc.{Loc};
ghost use Rattle.area_locate.specs.Index.{BeginsAt, IsIndex, IsPointLevel, IsStretch};

use crate::stretch::{Stretch, joined, stretch_at};
use osm_lattice::Loc;
use std::alloc::{AllocError as OutOfMemory, Global};

/// How many points the shortest stretches have.
const SHORTEST: usize = 64;

/// How many stretches make one of the next level.
const PARTS: usize = 8;

/// How many rectangles have a point at their heights, on average, before there are stretches. Making these takes about as long.
const PAYS_FROM: usize = 32;

/// Stretches of so many points, one after another. The last may have fewer.
#[derive(Drop)]
pub(crate) struct Level {
    pub(crate) width: usize,
    pub(crate) stretches: Vec<Stretch>,
}

/// Levels, the longest stretches first. There are none until many points have been at the heights of rectangles.
#[derive(Drop)]
pub(crate) struct PointIndex {
    pub(crate) levels: Vec<Level>,
    pub(crate) at_heights: usize,
}

impl Level {
    /// The stretch that begins at a place, if it ends by another.
    fn stretch(&self, place: usize, to: usize) -> Option<&Stretch>
        ensures { (points : List Loc) → IsPointLevel points self.now
            → IfSome result (λ s. BeginsAt points place to s.now) }
    {
        let stretch = self.stretches.get(place.checked_div(self.width)?)?;
        if stretch.first == place && place < stretch.end && stretch.end <= to {
            return Some(stretch);
        }
        None
    }
}

/// The shortest stretches.
fn shortest(alloc: Global, points: &[Loc]) -> Result<Vec<Stretch>, OutOfMemory>
    ensures { IfOk result (λ v. All (IsStretch points.now) v.items) }
{
    let all = points.len().min(u32::MAX as usize);
    let mut stretches = Vec::new(alloc);
    let mut first = 0;
    while first < all {
        let end = all.min(first + SHORTEST);
        stretches.push(stretch_at(alloc, points, first, end)?)?;
        first = end;
    }
    Ok(stretches)
}

/// Stretches of the next level.
fn longer(alloc: Global, stretches: &[Stretch]) -> Result<Vec<Stretch>, OutOfMemory>
    ensures { (points : List Loc) → All (IsStretch points) stretches.now
        → IfOk result (λ v. All (IsStretch points) v.items) }
{
    let mut longer = Vec::new(alloc);
    let mut from = 0;
    while from < stretches.len() {
        let to = stretches.len().min(from.saturating_add(PARTS));
        longer.push(joined(alloc, &stretches[from..to])?)?;
        from = to;
    }
    Ok(longer)
}

/// Adds the level above the last one.
fn add_level(alloc: Global, levels: &mut Vec<Level>, width: usize) -> Result<(), OutOfMemory>
    ensures { (points : List Loc) → All (IsPointLevel points) levels.old.items
        → OnOk result (All (IsPointLevel points) levels.new.items) }
{
    let stretches = match levels.last() {
        Some(level) => longer(alloc, &level.stretches)?,
        None => return Ok(()),
    };
    levels.push(Level { width, stretches })?;
    Ok(())
}

/// The levels of stretches of points, the longest ones first.
fn levels_of(alloc: Global, points: &[Loc]) -> Result<Vec<Level>, OutOfMemory>
    ensures { IfOk result (λ v. All (IsPointLevel points.now) v.items) }
{
    let mut width = SHORTEST;
    let stretches = shortest(alloc, points)?;
    let mut levels = Vec::new(alloc);
    levels.push(Level { width, stretches })?;
    while width < points.len() {
        width = width.saturating_mul(PARTS);
        add_level(alloc, &mut levels, width)?;
    }
    levels.reverse();
    Ok(levels)
}

impl PointIndex {
    /// One that has no stretches yet.
    pub(crate) fn new(alloc: Global) -> PointIndex
        ensures { (points : List Loc) → IsIndex points result }
    {
        PointIndex {
            levels: Vec::new(alloc),
            at_heights: 0,
        }
    }

    /// Counts the points at the heights of a rectangle, and makes the stretches once there were many.
    pub(crate) fn prepare(
        &mut self,
        alloc: Global,
        points: &[Loc],
        count: usize,
    ) -> Result<(), OutOfMemory>
        requires { IsIndex points.now self.old }
        ensures { OnOk result (IsIndex points.now self.new) }
    {
        self.at_heights = self.at_heights.saturating_add(count);
        if self.levels.is_empty() && points.len() < self.at_heights / PAYS_FROM {
            self.levels = levels_of(alloc, points)?;
        }
        Ok(())
    }

    /// The longest stretch that begins at a place and ends by another.
    pub(crate) fn longest(&self, place: usize, to: usize) -> Option<&Stretch>
        ensures { (points : List Loc) → IsIndex points self.now
            → IfSome result (λ s. BeginsAt points place to s.now) }
    {
        if place % SHORTEST != 0 {
            return None;
        }
        for level in &self.levels {
            if let Some(stretch) = level.stretch(place, to) {
                return Some(stretch);
            }
        }
        None
    }
}
