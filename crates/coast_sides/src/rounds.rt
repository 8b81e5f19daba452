//! Rounds of shortcuts, until no ring conflicts with itself.

ghost use Rattle.std.specs.Prelude.{◌≡◌, ◌≤◌, false, IfOk, MatchOption, OnOk, length};
ghost use Rattle.std.specs.BTreeSet.{contains};
ghost use Rattle.osm_lattice.specs.Seg.{seg_cmp};
ghost use Rattle.osm_segments.specs.Counts.{AreDistinct};
ghost use Rattle.coast_rings.specs.declared.ring.CoastRing.{CoastRing};
ghost use Rattle.coast_rings.specs.Round.{IsRound};
ghost use Rattle.coast_sides.specs.CutSteps.{AreCrossed, IsCutLine, IsCutRing, IsFoundBy, IsLeftBehind, IsShortened};
ghost use Rattle.coast_sides.specs.Rounds.{AreCutDown, conflicts_itself};
ghost use Rattle.coast_sides.specs.Segments.{segments_round};

use crate::conflicting::runs_along;
use crate::cut::Cuts;
use crate::ring_segments::segments_round;
use crate::shortcuts::cut_out;
use coast_rings::{CoastRing, CoastRings};
use osm_geom::{Loc, Path, Seg, conflicts_are_symmetric, orders_are_exact};
use osm_segments::{conflict_places, distinct};
use std::alloc::{AllocError as OutOfMemory, Global};
use std::collections::BTreeSet;

/// What is left of rings once they don't conflict with themselves, in order, and what was cut out of them.
#[derive(Debug, Drop)]
pub(crate) struct CutDown {
    pub left: CoastRings,
    pub cuts: Cuts,
}

/// The segments of a closed line, each once, in order.
fn distinct_round(alloc: Global, path: &[Loc]) -> Result<Vec<Seg>, OutOfMemory>
    ensures { IfOk result (λ v. AreDistinct (segments_round path.now) v.items) }
{
    let segs = segments_round(alloc, path)?;
    distinct(alloc, &segs)
}

/// One round over the closed line of a ring with these distinct segments: the shorter line, if it conflicts with itself.
fn round_along(
    alloc: Global,
    cuts: &mut Cuts,
    ring: i64,
    path: &[Loc],
    segs: &[Seg],
) -> Result<Option<Path>, OutOfMemory>
    requires { AreDistinct (segments_round path.now) segs.now }
    ensures { IfOk result (λ o. MatchOption o
        ((conflicts_itself path.now ≡ false) × (cuts.new ≡ cuts.old))
        (λ shorter. IsShortened ring path.now cuts.old shorter cuts.new)) }
{
    orders_are_exact();
    conflicts_are_symmetric();
    let conflicts = conflict_places(alloc, segs)?;
    if conflicts.is_empty() {
        return Ok(None);
    }
    let shorter = cut_out(alloc, cuts, ring, path, segs, &conflicts)?;
    Ok(Some(shorter))
}

/// One round over the closed line of a ring: the shorter line, if it conflicts with itself.
fn round(
    alloc: Global,
    cuts: &mut Cuts,
    ring: i64,
    path: &[Loc],
) -> Result<Option<Path>, OutOfMemory>
    ensures { IfOk result (λ o. MatchOption o
        ((conflicts_itself path.now ≡ false) × (cuts.new ≡ cuts.old))
        (λ shorter. IsShortened ring path.now cuts.old shorter cuts.new)) }
{
    let segs = distinct_round(alloc, path)?;
    round_along(alloc, cuts, ring, path, &segs)
}

/// A copy of a line.
fn copy_of(alloc: Global, path: &[Loc]) -> Result<Path, OutOfMemory>
    ensures { IfOk result (λ copy. copy ≡ path.now) }
{
    Ok(Path::from_vec(Vec::from_slice(alloc, path)?))
}

/// What the rounds leave of the closed line of a ring.
fn cut_line(alloc: Global, cuts: &mut Cuts, ring: i64, path: &[Loc]) -> Result<Path, OutOfMemory>
    requires { 2 ≤ length path.now → IsRound path.now }
    ensures { IfOk result (λ last. IsCutLine ring path.now cuts.old last cuts.new) }
{
    let mut left = copy_of(alloc, path)?;
    while let Some(shorter) = round(alloc, cuts, ring, left.as_slice())? {
        left = shorter;
    }
    Ok(left)
}

/// What the rounds leave of the line of a ring. A ring none of whose segments is crossed is not looked at.
fn line_left(
    alloc: Global,
    cuts: &mut Cuts,
    ring: &CoastRing,
    crossed: &BTreeSet<Seg>,
) -> Result<Path, OutOfMemory>
    requires { IsFoundBy (contains seg_cmp crossed.now) ring.now }
    ensures { IfOk result (λ last. IsCutLine ring.now.name ring.now.path cuts.old last cuts.new) }
{
    if runs_along(crossed, ring.path.as_slice()) {
        return cut_line(alloc, cuts, ring.name, ring.path.as_slice());
    }
    copy_of(alloc, ring.path.as_slice())
}

/// Adds a ring of this name and line, if it has two locations.
fn add_ring(left: &mut CoastRings, name: i64, path: Path) -> Result<(), OutOfMemory>
    requires { 2 ≤ length path → IsRound path }
    ensures { OnOk result ((ring : CoastRing) → ring.name ≡ name
        → IsLeftBehind ring path left.old left.new) }
{
    if path.as_slice().len() < 2 {
        return Ok(());
    }
    left.push(CoastRing { name, path })?;
    Ok(())
}

/// Adds what is left of a ring, and what is cut out of it.
fn add_left(
    alloc: Global,
    left: &mut CoastRings,
    cuts: &mut Cuts,
    ring: &CoastRing,
    crossed: &BTreeSet<Seg>,
) -> Result<(), OutOfMemory>
    requires { IsFoundBy (contains seg_cmp crossed.now) ring.now }
    ensures { OnOk result (IsCutRing ring.now left.old cuts.old left.new cuts.new) }
{
    let path = line_left(alloc, cuts, ring, crossed)?;
    add_ring(left, ring.name, path)
}

/// Cuts shortcuts into each ring until it doesn't conflict with itself, the segments of all conflicts among the rings being these. A ring
/// of which fewer than two locations are left is gone. Fails only if memory runs out.
pub(crate) fn cut_down(
    alloc: Global,
    rings: &[CoastRing],
    crossed: &BTreeSet<Seg>,
) -> Result<CutDown, OutOfMemory>
    requires { AreCrossed rings.now (contains seg_cmp crossed.now) }
    ensures { IfOk result (λ down. AreCutDown rings.now down.left down.cuts) }
{
    orders_are_exact();
    conflicts_are_symmetric();
    let mut left = CoastRings::new(alloc);
    let mut cuts = Cuts::new(alloc);
    for ring in rings {
        add_left(alloc, &mut left, &mut cuts, ring, crossed)?;
    }
    Ok(CutDown { left, cuts })
}
