//! The foes of segments: those that conflict with them.

ghost use Rattle.std.specs.Prelude.{◌≡◌, ◌&&◌, ◌||◌, not, IfOk, OnOk};
ghost use Rattle.std.specs.List.{list_any};
ghost use Rattle.std.specs.BTreeSet.{contains};
ghost use Rattle.osm_lattice.specs.declared.seg.Seg.{Seg};
ghost use Rattle.osm_lattice.specs.Seg.{seg_cmp};
ghost use Rattle.coast_sides.specs.ChoiceSteps.{are_paired, is_same_segment, knows};

use osm_geom::{Seg, orders_are_exact};
use osm_segments::Pair;
use std::alloc::{AllocError as OutOfMemory, Global};
use std::collections::{BTreeMap, BTreeSet};

/// Some segments, each with foes.
pub(crate) type Foes = BTreeMap<Seg, Vec<Seg>>;

/// Adds a foe of a segment.
fn add_foe(alloc: Global, foes: &mut Foes, seg: Seg, foe: Seg) -> Result<(), OutOfMemory>
    ensures { OnOk result ((s t : Seg) → knows foes.new s t
        ≡ (knows foes.old s t || (is_same_segment seg s && is_same_segment foe t))) }
{
    orders_are_exact();
    let mut known = foes.remove(&seg).unwrap_or(Vec::new(alloc));
    known.push(foe)?;
    foes.insert(seg, known)?;
    Ok(())
}

/// The foes of the segments of pairs.
pub(crate) fn foes_of(alloc: Global, pairs: &[Pair]) -> Result<Foes, OutOfMemory>
    ensures { IfOk result (λ foes. (s t : Seg) → knows foes s t
        ≡ list_any (are_paired s t) pairs.now) }
{
    let mut foes = BTreeMap::new(alloc);
    for pair in pairs {
        add_foe(alloc, &mut foes, pair.first, pair.second)?;
        add_foe(alloc, &mut foes, pair.second, pair.first)?;
    }
    Ok(foes)
}

/// Adds segments to a set.
fn add_all(segs: &mut BTreeSet<Seg>, more: &[Seg]) -> Result<(), OutOfMemory>
    ensures { OnOk result ((s : Seg) → contains seg_cmp segs.new s
        ≡ (contains seg_cmp segs.old s || list_any (λ t. is_same_segment t s) more.now)) }
{
    for &seg in more {
        segs.insert(seg)?;
    }
    Ok(())
}

/// Moves the foes of a segment to the blocked ones.
pub(crate) fn block_foes(
    foes: &mut Foes,
    blocked: &mut BTreeSet<Seg>,
    seg: &Seg,
) -> Result<(), OutOfMemory>
    ensures blocked { OnOk result ((s : Seg) → contains seg_cmp blocked.new s
        ≡ (contains seg_cmp blocked.old s || knows foes.old seg.now s)) }
    ensures left { OnOk result ((s t : Seg) → knows foes.new s t
        ≡ (not (is_same_segment seg.now s) && knows foes.old s t)) }
{
    match foes.remove(seg) {
        Some(known) => add_all(blocked, &known),
        None => Ok(()),
    }
}
