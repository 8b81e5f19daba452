//! The conflicts among few segments: each pair is tried.
ghost use Rattle.std.specs.Prelude.{◌≡◌, ◌++◌, IfOk, OnOk};
ghost use Rattle.std.specs.List.{filter_map};
ghost use Rattle.osm_segments.specs.Pairs.{pair_of, conflicts_of};

use crate::pairs::Pair;
use osm_lattice::{Seg, are_apart, conflict_of_near};
use std::alloc::{AllocError as OutOfMemory, Global};

/// For at most this many segments, trying all pairs is faster than a sweep.
pub(crate) const FEW: usize = 32;

/// Two segments, if they conflict.
#[tactic(auto, unfolding(crate::specs::Pairs::pair_of))]
pub(crate) fn pair_of(first: Seg, second: Seg) -> Option<Pair>
    ensures { result ≡ pair_of first second }
{
    if are_apart(first, second) {
        return None;
    }
    match conflict_of_near(first, second) {
        Some(kind) => Some(Pair {
            first,
            second,
            kind,
        }),
        None => None,
    }
}

/// Adds each of `rest` that conflicts with `first`.
fn push_conflicts(pairs: &mut Vec<Pair>, first: Seg, rest: &[Seg]) -> Result<(), OutOfMemory>
    ensures { OnOk result (pairs.new.items ≡ pairs.old.items
        ++ filter_map (pair_of first) rest.now) }
{
    for &second in rest {
        if let Some(pair) = pair_of(first, second) {
            pairs.push(pair)?;
        }
    }
    Ok(())
}

/// Adds each conflict, each segment being tried with all later ones.
pub fn push_all_pairs(pairs: &mut Vec<Pair>, segs: &[Seg]) -> Result<(), OutOfMemory>
    ensures { OnOk result (pairs.new.items ≡ pairs.old.items ++ conflicts_of segs.now) }
{
    let mut rest = segs;
    while let [first, later @ ..] = rest {
        push_conflicts(pairs, *first, later)?;
        rest = later;
    }
    Ok(())
}

/// The conflicts among few segments: each pair is tried.
pub(crate) fn conflicts_of_few(alloc: Global, segs: &[Seg]) -> Result<Vec<Pair>, OutOfMemory>
    ensures { IfOk result (λ v. v.items ≡ conflicts_of segs.now) }
{
    let mut pairs = Vec::new(alloc);
    push_all_pairs(&mut pairs, segs)?;
    Ok(pairs)
}
