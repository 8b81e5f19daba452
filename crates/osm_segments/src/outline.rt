//! Outlines: segments of which rings can be made.
ghost use Rattle.std.specs.Prelude.{◌≡◌, ◌↔◌, ◌≤◌, [], false, IfOk, IfSome, IsPermutation, length};
ghost use Rattle.osm_lattice.specs.Seg.{seg_cmp};
ghost use Rattle.lists.specs.Rising.{IsRising};
ghost use Rattle.osm_segments.specs.Counts.{AreOddNodes, HasEvenNodes};
ghost use Rattle.osm_segments.specs.Outlines.{IsOutline, IsOutlineOf};
ghost use Rattle.osm_segments.specs.OutlineSteps.{IsTold};
ghost use Rattle.osm_segments.specs.Pairs.{conflicts_of};
ghost use Rattle.osm_segments.specs.Sweep.{AreByEnds};

use crate::counts::odd_nodes;
use crate::few::pairs::{FEW, conflicts_of_few};
use crate::parity::are_even;
use crate::ranges::division::has_conflict;
use crate::sweep::steps::{by_ends, sort_by_ends};
use osm_lattice::{Loc, Seg};
use std::alloc::{AllocError as OutOfMemory, Global};
use std::marker::Model;

/// Segments of which rings can be made: in strict order, no two in conflict, an even number of them at each location.
///
/// Contracts see them as their list.
#[derive(Drop)]
pub struct Outline {
    segs: Vec<Seg>,
    ends: Option<Vec<Seg>>,
}

impl Model for Outline {
    ghost use Rattle.std.specs.Prelude.{List};
    ghost use Rattle.osm_lattice.specs.declared.seg.Seg.{Seg};

    ghost Value = { List Seg };

    ghost view = { λ outline. outline.segs.items };

    ghost use Rattle.osm_segments.specs.OutlinesInside.{IsOutlineInside};

    ghost invariant = { IsOutlineInside };
}

impl Outline {
    /// The outline of segments that are known to be one.
    pub fn new(segs: Vec<Seg>) -> Outline
        requires { IsOutline segs.items }
        ensures { result ≡ segs.items }
    {
        Outline { segs, ends: None }
    }

    /// The same of segments that are also given in the order of their upper ends.
    pub fn sorted(segs: Vec<Seg>, ends: Vec<Seg>) -> Outline
        requires outline { IsOutline segs.items }
        requires ends { AreByEnds segs.items ends.items }
        ensures { result ≡ segs.items }
    {
        let ends = Some(ends);
        Outline { segs, ends }
    }

    /// The segments, in order.
    pub fn as_slice(&self) -> &[Seg]
        ensures segments { result.now ≡ self.now }
        ensures outline { IsOutline self.now }
    {
        &self.segs
    }

    /// The segments in order, and, if they were sorted like that, the same in the order of their upper ends.
    pub fn into_parts(self) -> (Vec<Seg>, Option<Vec<Seg>>)
        ensures segments { result.0.items ≡ self }
        ensures outline { IsOutline self }
        ensures ends { IfSome result.1 (λ ends. AreByEnds self ends.items) }
    {
        (self.segs, self.ends)
    }
}

/// The odd nodes of segments, which are also given in the order of their upper ends.
///
/// Ways: ends of which an even number lie at each location, passed by twos; all others by counting.
fn odd_nodes_along(alloc: Global, segs: &[Seg], ends: &[Seg]) -> Result<Vec<Loc>, OutOfMemory>
    requires { IsPermutation segs.now ends.now }
    ensures { IfOk result (λ v. AreOddNodes segs.now v.items) }
{
    if are_even(segs, ends) {
        return Ok(Vec::new(alloc));
    }
    odd_nodes(alloc, segs)
}

/// Whether an odd number of segments end at any location.
fn has_odd_node(alloc: Global, segs: &[Seg], ends: &[Seg]) -> Result<bool, OutOfMemory>
    requires { IsPermutation segs.now ends.now }
    ensures { IfOk result (λ found. (found ≡ false) ↔ HasEvenNodes segs.now) }
{
    let nodes = odd_nodes_along(alloc, segs, ends)?;
    Ok(!nodes.is_empty())
}

/// The same for few segments.
fn has_odd_node_of_few(alloc: Global, segs: &[Seg]) -> Result<bool, OutOfMemory>
    requires { length segs.now ≤ 32 }
    ensures { IfOk result (λ found. (found ≡ false) ↔ HasEvenNodes segs.now) }
{
    let Some(&first) = segs.first() else {
        return has_odd_node(alloc, segs, segs);
    };
    let mut room = [first; FEW];
    let ends = &mut room[..segs.len()];
    ends.copy_from_slice(segs);
    sort_by_ends(ends);
    has_odd_node(alloc, segs, ends)
}

/// Whether any two of few segments conflict.
fn has_conflict_of_few(alloc: Global, segs: &[Seg]) -> Result<bool, OutOfMemory>
    ensures { IfOk result (λ found. (found ≡ false) ↔ (conflicts_of segs.now ≡ [])) }
{
    let pairs = conflicts_of_few(alloc, segs)?;
    Ok(!pairs.is_empty())
}

/// Whether few segments in strict order aren't an outline.
fn has_fault_of_few(alloc: Global, segs: &[Seg]) -> Result<bool, OutOfMemory>
    requires rising { IsRising seg_cmp segs.now }
    requires few { length segs.now ≤ 32 }
    ensures { IfOk result (λ found. (found ≡ false) ↔ IsOutline segs.now) }
{
    if has_odd_node_of_few(alloc, segs)? {
        return Ok(true);
    }
    has_conflict_of_few(alloc, segs)
}

/// Whether segments in strict order aren't an outline. They are also given in the order of their upper ends.
fn has_fault(alloc: Global, segs: &[Seg], ends: &[Seg]) -> Result<bool, OutOfMemory>
    requires rising { IsRising seg_cmp segs.now }
    requires ends { AreByEnds segs.now ends.now }
    ensures { IfOk result (λ found. (found ≡ false) ↔ IsOutline segs.now) }
{
    if has_odd_node(alloc, segs, ends)? {
        return Ok(true);
    }
    has_conflict(alloc, segs, ends)
}

/// What is found out about segments in strict order.
#[derive(Drop)]
enum Told {
    /// They are an outline.
    Whole,
    /// They are one, and this is their list in order of upper ends.
    Sorted(Vec<Seg>),
    /// They aren't one.
    Faulty,
}

/// Whether few segments are an outline.
fn told_of_few(alloc: Global, segs: &[Seg]) -> Result<Told, OutOfMemory>
    requires rising { IsRising seg_cmp segs.now }
    requires few { length segs.now ≤ 32 }
    ensures { IfOk result (IsTold segs.now) }
{
    if has_fault_of_few(alloc, segs)? {
        return Ok(Told::Faulty);
    }
    Ok(Told::Whole)
}

/// Whether segments are an outline, by their list in order of upper ends.
fn told_along(alloc: Global, segs: &[Seg], ends: Vec<Seg>) -> Result<Told, OutOfMemory>
    requires rising { IsRising seg_cmp segs.now }
    requires ends { AreByEnds segs.now ends.items }
    ensures { IfOk result (IsTold segs.now) }
{
    match has_fault(alloc, segs, &ends) {
        Ok(true) => Ok(Told::Faulty),
        Ok(false) => Ok(Told::Sorted(ends)),
        Err(OutOfMemory) => Err(OutOfMemory),
    }
}

/// Whether segments in strict order are an outline.
///
/// Ways: up to 32 segments by pairs, without a list by upper ends (few); all others by that list.
fn told_of(alloc: Global, segs: &[Seg]) -> Result<Told, OutOfMemory>
    requires { IsRising seg_cmp segs.now }
    ensures { IfOk result (IsTold segs.now) }
{
    if segs.len() <= FEW {
        return told_of_few(alloc, segs);
    }
    let ends = by_ends(alloc, segs)?;
    told_along(alloc, segs, ends)
}

/// The outline of segments in strict order, exactly if they are one, and otherwise the same segments. It lists no conflict.
pub fn outline_of(alloc: Global, segs: Vec<Seg>) -> Result<Result<Outline, Vec<Seg>>, OutOfMemory>
    requires { IsRising seg_cmp segs.items }
    ensures { IfOk result (IsOutlineOf segs.items) }
{
    match told_of(alloc, &segs) {
        Ok(Told::Whole) => Ok(Ok(Outline { segs, ends: None })),
        Ok(Told::Sorted(ends)) => {
            let ends = Some(ends);
            Ok(Ok(Outline { segs, ends }))
        }
        Ok(Told::Faulty) => Ok(Err(segs)),
        Err(OutOfMemory) => Err(OutOfMemory),
    }
}
