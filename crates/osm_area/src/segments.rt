//! The segments of a candidate's ways.

ghost use Rattle.std.specs.Prelude.{◌≡◌, ◌++◌, ◌↔◌, [], ℤ, true, length, map, IfOk, IfSome, IsSome, IsTrue, OnOk};
ghost use Rattle.std.specs.List.{filter_map, flat_map};
ghost use Rattle.osm_objects.specs.Objects.{place_of};
ghost use Rattle.osm_area.specs.Missing.{nodes_missing, way_missing};
ghost use Rattle.osm_area.specs.Segments.{segments_along, way_segments};
ghost use Rattle.osm_area.specs.SegmentSteps.{step_from};

use osm_elements::Refs;
use osm_geom::{Loc, Seg};
use osm_objects::Store;
use std::alloc::{AllocError as OutOfMemory, Global};

/// Room is made for this many segments for each way, and as many besides; more are seldom needed.
const ROOM: usize = 4;

/// The segments of ways, one way after the other, and how many each way has.
#[derive(Drop)]
pub struct WaySegments {
    pub segs: Vec<Seg>,
    pub counts: Vec<usize>,
}

/// Adds the segment from the location before, if there is one and it differs.
fn add_step(segments: &mut Vec<Seg>, before: Option<Loc>, at: Loc) -> Result<(), OutOfMemory>
    ensures { OnOk result (segments.new.items ≡ segments.old.items ++ step_from before at) }
{
    let Some(before) = before else {
        return Ok(());
    };
    if let Some(seg) = Seg::new(before, at) {
        segments.push(seg)?;
    }
    Ok(())
}

/// Adds the segments along references. False if one of them has no location.
fn add_along_refs(segments: &mut Vec<Seg>, store: &Store, refs: &Refs) -> Result<bool, OutOfMemory>
    ensures whole { IfOk result (λ whole. IsTrue whole ↔ (nodes_missing store.now refs.now ≡ [])) }
    ensures added { IfOk result (λ whole. whole ≡ true
        → segments.new.items
        ≡ segments.old.items ++ segments_along (filter_map (place_of store.now) refs.now)) }
{
    let mut before = None;
    for reference in refs.iter() {
        let Some(at) = store.place_of(&reference) else {
            return Ok(false);
        };
        add_step(segments, before, at)?;
        before = Some(at);
    }
    Ok(true)
}

/// Adds the segments of a way. False if it isn't held, or one of its references has no location.
fn add_segments(segments: &mut Vec<Seg>, store: &Store, way: i64) -> Result<bool, OutOfMemory>
    ensures whole { IfOk result (λ whole. IsTrue whole ↔ (way_missing store.now way ≡ [])) }
    ensures added { IfOk result (λ whole. whole ≡ true
        → segments.new.items ≡ segments.old.items ++ way_segments store.now way) }
{
    match store.way(way) {
        Some(found) => add_along_refs(segments, store, found.refs),
        None => Ok(false),
    }
}

/// The segments of ways, one way after the other.
///
/// None if a way isn't held, or a reference of one has no location.
pub fn segments(
    alloc: Global,
    store: &Store,
    ways: &[i64],
) -> Result<Option<WaySegments>, OutOfMemory>
    ensures some { IfOk result (λ found.
        IfSome found (λ v. v.segs.items ≡ flat_map (way_segments store.now) ways.now)) }
    ensures counts { IfOk result (λ found.
        IfSome found (λ v. v.counts.items
        ≡ map (λ (way : ℤ). length (way_segments store.now way)) ways.now)) }
    ensures whole { IfOk result (λ found.
        IsSome found ↔ (flat_map (way_missing store.now) ways.now ≡ [])) }
{
    let room = ways.len().saturating_add(1).saturating_mul(ROOM);
    let mut segs = Vec::with_capacity(alloc, room)?;
    let mut counts = Vec::with_capacity(alloc, ways.len())?;
    for &way in ways {
        let before = segs.len();
        if !add_segments(&mut segs, store, way)? {
            return Ok(None);
        }
        counts.push(segs.len().saturating_sub(before))?;
    }
    Ok(Some(WaySegments { segs, counts }))
}
