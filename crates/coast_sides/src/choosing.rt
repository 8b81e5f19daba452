//! Which rings are kept: in order of rank, each unless a ring kept before conflicts with it.

ghost use Rattle.std.specs.Prelude.{◌≡◌, ◌&&◌, ◌||◌, ◌++◌, [], Bool, All, Contains, IfOk, List, OnOk, ℤ, false, filter, if◌then◌else◌, not};
ghost use Rattle.std.specs.List.{list_any};
ghost use Rattle.std.specs.BTreeSet.{contains};
ghost use Rattle.std.specs.Ordering.{int_cmp, is_eq};
ghost use Rattle.osm_lattice.specs.declared.seg.Seg.{Seg};
ghost use Rattle.osm_lattice.specs.Seg.{seg_cmp};
ghost use Rattle.coast_rings.specs.declared.ring.CoastRing.{CoastRing};
ghost use Rattle.coast_sides.specs.Choice.{AreChosen, KeepsUnbeaten};
ghost use Rattle.coast_sides.specs.ChoiceSteps.{AreBlocked, AreByRank, is_free, knows};
ghost use Rattle.coast_sides.specs.CutSorting.{NamesOfRingsRise};
ghost use Rattle.coast_sides.specs.Segments.{all_segments, segments_round};

use crate::conflicting::{any_among, distinct_conflicts};
use crate::foes::{Foes, block_foes, foes_of};
use crate::ranking::places_by_rank;
use crate::ring_segments::{all_segments, segments_round};
use crate::sorting::{copy_of, put};
use coast_rings::{CoastRing, CoastRings};
use osm_geom::{Seg, conflicts_are_symmetric, orders_are_exact};
use std::alloc::{AllocError as OutOfMemory, Global};
use std::collections::BTreeSet;

/// Blocks the foes of each segment.
fn block_round(
    foes: &mut Foes,
    blocked: &mut BTreeSet<Seg>,
    round: &[Seg],
) -> Result<(), OutOfMemory>
    ensures { OnOk result ((segs held : List Seg) → All (Contains segs) round.now
        → AreBlocked segs held (knows foes.old) (contains seg_cmp blocked.old)
        → AreBlocked segs (held ++ round.now) (knows foes.new) (contains seg_cmp blocked.new)) }
{
    orders_are_exact();
    conflicts_are_symmetric();
    for seg in round {
        block_foes(foes, blocked, seg)?;
    }
    Ok(())
}

/// Keeps a ring, unless one of its segments is blocked: adds its name, and blocks the foes of its segments.
fn choose(
    alloc: Global,
    foes: &mut Foes,
    blocked: &mut BTreeSet<Seg>,
    names: &mut BTreeSet<i64>,
    ring: &CoastRing,
) -> Result<(), OutOfMemory>
    ensures names { OnOk result ((n : ℤ) → contains int_cmp names.new n
        ≡ (contains int_cmp names.old n || (is_free (contains seg_cmp blocked.old) ring.now
        && is_eq (int_cmp ring.now.name n)))) }
    ensures blocked { OnOk result ((segs held : List Seg)
        → All (Contains segs) (segments_round ring.now.path)
        → AreBlocked segs held (knows foes.old) (contains seg_cmp blocked.old)
        → AreBlocked segs (held ++ (if is_free (contains seg_cmp blocked.old) ring.now
        then segments_round ring.now.path else []))
        (knows foes.new) (contains seg_cmp blocked.new)) }
{
    let round = segments_round(alloc, ring.path.as_slice())?;
    if any_among(blocked, &round) {
        return Ok(());
    }
    names.insert(ring.name)?;
    block_round(foes, blocked, &round)
}

/// The names of the rings that are kept, of those at places in order of rank.
fn names_along(
    alloc: Global,
    rings: &[CoastRing],
    places: &[usize],
    mut foes: Foes,
) -> Result<BTreeSet<i64>, OutOfMemory>
    requires names { NamesOfRingsRise rings.now }
    requires order { AreByRank rings.now places.now }
    requires foes { AreBlocked (all_segments rings.now) [] (knows foes) (λ s. false) }
    ensures { IfOk result (λ names. (choice : CoastRing → Bool) → KeepsUnbeaten rings.now choice
        → (ring : CoastRing) → Contains rings.now ring
        → contains int_cmp names ring.name ≡ choice ring) }
{
    conflicts_are_symmetric();
    let mut blocked = BTreeSet::new(alloc);
    let mut names = BTreeSet::new(alloc);
    for &place in places {
        choose(alloc, &mut foes, &mut blocked, &mut names, &rings[place])?;
    }
    Ok(names)
}

/// The foes among the segments of rings.
fn foes_among(alloc: Global, rings: &[CoastRing]) -> Result<Foes, OutOfMemory>
    ensures { IfOk result (λ foes. AreBlocked (all_segments rings.now) [] (knows foes)
        (λ s. false)) }
{
    orders_are_exact();
    conflicts_are_symmetric();
    let segs = all_segments(alloc, rings)?;
    let pairs = distinct_conflicts(alloc, segs)?;
    foes_of(alloc, &pairs)
}

/// The names of the rings that are kept.
fn kept_names(alloc: Global, rings: &[CoastRing]) -> Result<BTreeSet<i64>, OutOfMemory>
    requires { NamesOfRingsRise rings.now }
    ensures { IfOk result (λ names. (choice : CoastRing → Bool) → KeepsUnbeaten rings.now choice
        → (ring : CoastRing) → Contains rings.now ring
        → contains int_cmp names ring.name ≡ choice ring) }
{
    let places = places_by_rank(alloc, rings)?;
    let foes = foes_among(alloc, rings)?;
    names_along(alloc, rings, &places, foes)
}

/// The rings that have one of these names, and then the others.
fn parted_by_name(
    alloc: Global,
    rings: &[CoastRing],
    names: &BTreeSet<i64>,
) -> Result<(CoastRings, CoastRings), OutOfMemory>
    ensures named { IfOk result (λ parts. parts.0
        ≡ filter (λ ring. contains int_cmp names.now ring.name) rings.now) }
    ensures others { IfOk result (λ parts. parts.1
        ≡ filter (λ ring. not (contains int_cmp names.now ring.name)) rings.now) }
{
    let mut named = CoastRings::new(alloc);
    let mut others = CoastRings::new(alloc);
    for ring in rings {
        let copy = copy_of(alloc, ring)?;
        let is_named = names.contains(&ring.name);
        put(&mut others, &mut named, copy, is_named)?;
    }
    Ok((named, others))
}

/// The rings that are kept, and those that are left out: a ring is kept exactly where no kept ring that outranks it conflicts
/// with it. A ring outranks those of fewer locations, and those of as many and a greater name.
pub(crate) fn chosen(
    alloc: Global,
    rings: &[CoastRing],
) -> Result<(CoastRings, CoastRings), OutOfMemory>
    requires { NamesOfRingsRise rings.now }
    ensures { IfOk result (λ parts. AreChosen rings.now parts.0 parts.1) }
{
    let names = kept_names(alloc, rings)?;
    parted_by_name(alloc, rings, &names)
}
