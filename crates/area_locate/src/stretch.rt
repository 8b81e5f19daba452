//! Stretches of points, each with its points in order of x.

ghost use Rattle.std.specs.Prelude.{◌≡◌, ◌≤◌, All, Contains, IfOk, List, false, length};
ghost use lib.Signed.{lt_z};
ghost use Rattle.osm_lattice.specs.declared.loc.Loc.{Loc};
ghost use Rattle.area_locate.specs.declared.stretch.Entry.{Entry};
ghost use Rattle.area_locate.specs.Index.{AreEntries, IsStretch, XNeverFalls};

use osm_lattice::Loc;
use std::alloc::{AllocError as OutOfMemory, Global};

/// The x of a point, and where the point stands.
#[derive(Clone, Copy)]
pub(crate) struct Entry {
    pub(crate) x: i32,
    pub(crate) place: u32,
}

/// Points that stand one after another, in order of x.
#[derive(Drop)]
pub(crate) struct Stretch {
    pub(crate) first: usize,
    pub(crate) end: usize,
    pub(crate) by_x: Vec<Entry>,
}

impl Stretch {
    /// The entries from one x to another, both included.
    pub(crate) fn between(&self, left: i32, right: i32) -> &[Entry]
        requires { XNeverFalls self.now.by_x.items }
        ensures of_all { (e : Entry) → Contains result.now e → Contains self.now.by_x.items e }
        ensures whole { (e : Entry) → Contains self.now.by_x.items e → lt_z e.x left ≡ false
            → lt_z right e.x ≡ false → Contains result.now e }
    {
        let from = self.by_x.partition_point(|entry| entry.x < left);
        let to = self.by_x.partition_point(|entry| entry.x <= right);
        &self.by_x[from..to.max(from)]
    }
}

/// The stretch of some entries, which it puts in order of x.
fn stretch_of(first: usize, end: usize, entries: Vec<Entry>) -> Result<Stretch, OutOfMemory>
    ensures { (points : List Loc) → AreEntries points first end entries.items
        → IfOk result (IsStretch points) }
{
    let mut by_x = entries;
    by_x.sort_by_key(|entry| entry.x)?;
    Ok(Stretch { first, end, by_x })
}

/// The entries of the points at these places.
fn entries_of(
    alloc: Global,
    points: &[Loc],
    first: usize,
    end: usize,
) -> Result<Vec<Entry>, OutOfMemory>
    requires order { first ≤ end }
    requires inside { end ≤ length points.now }
    requires few { end ≤ 4294967295 }
    ensures { IfOk result (λ v. AreEntries points.now first end v.items) }
{
    let mut entries = Vec::with_capacity(alloc, end - first)?;
    for place in first..end {
        entries.push(Entry {
            x: points[place].x,
            place: place as u32,
        })?;
    }
    Ok(entries)
}

/// The stretch of the points at these places.
pub(crate) fn stretch_at(
    alloc: Global,
    points: &[Loc],
    first: usize,
    end: usize,
) -> Result<Stretch, OutOfMemory>
    requires order { first ≤ end }
    requires inside { end ≤ length points.now }
    requires few { end ≤ 4294967295 }
    ensures { IfOk result (IsStretch points.now) }
{
    stretch_of(first, end, entries_of(alloc, points, first, end)?)
}

/// The stretch that some make which stand one after another.
pub(crate) fn joined(alloc: Global, parts: &[Stretch]) -> Result<Stretch, OutOfMemory>
    ensures { (points : List Loc) → All (IsStretch points) parts.now
        → IfOk result (IsStretch points) }
{
    let first = parts.first().map_or(0, |part| part.first);
    let mut end = first;
    let mut entries = Vec::new(alloc);
    for part in parts {
        if part.first == end {
            entries.extend_from_slice(&part.by_x)?;
            end = part.end;
        }
    }
    stretch_of(first, end, entries)
}
