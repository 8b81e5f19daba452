//! Halves.
ghost use Rattle.std.specs.Prelude.{◌≡◌, ◌≢◌, ◌++◌, ◌≤◌, ◌<◌, ◌+◌, ◌^◌, [], All, IfOk, List, OnOk, length};
ghost use Rattle.std.specs.Ordering.{is_lt};
ghost use Rattle.plane.specs.Sign.{is_plus};
ghost use Rattle.osm_geom.specs.declared.edge.Edge.{Edge};
ghost use Rattle.osm_geom.specs.Cut.{carrier_of_cut};
ghost use Rattle.osm_lattice.specs.OrderLaws.{ordering_of};
ghost use Rattle.osm_geom.specs.InPlane.Sided.{IsSided};
ghost use Rattle.coast_split.specs.Batches.{AddsPortions, AreBatches, IsBatch, batch_edges, batched_edges};
ghost use Rattle.coast_split.specs.Half.{ArePortions, IsHalf, IsLink, line_order, runs_forward};
ghost use Rattle.coast_split.specs.HalfCount.{CountsAsKept, CountsNothingBeyond};
ghost use Rattle.coast_split.specs.Walk.{AddsLink, AddsWalk, AddsWalked, AreSortedEnds, IsEndOnLine, end_on, ends_on, is_skipped};

use crate::batches::{Batch, Batches};
use crate::envelope::Placing;
use crate::portion::portion;
use osm_geom::{Axis, Carrier, Cut, Edge, Edges, Point, Side, compare_points, compare_to_cut};
use std::alloc::{AllocError as OutOfMemory, Global};
use std::cmp::Ordering;

/// The portions of the edges that have one.
fn portions(alloc: Global, edges: &[Edge], cut: Cut, side: Side) -> Result<Edges, OutOfMemory>
    ensures { IfOk result (λ list. ArePortions cut side edges.now list) }
{
    let mut portions = Edges::with_capacity(alloc, edges.len())?;
    for e in edges {
        if let Some(t) = portion(e, cut, side) {
            portions.push(t)?;
        }
    }
    Ok(portions)
}

/// Adds a point that is on the line.
fn push_end(ends: &mut Vec<Point>, p: &Point, cut: Cut) -> Result<(), OutOfMemory>
    ensures { OnOk result (ends.new.items ≡ ends.old.items ++ end_on cut p.now) }
{
    if compare_to_cut(p, cut) == Ordering::Equal {
        ends.push(*p)?;
    }
    Ok(())
}

/// Adds the ends of edges that are on the line.
fn push_ends(ends: &mut Vec<Point>, edges: &[Edge], cut: Cut) -> Result<(), OutOfMemory>
    ensures { OnOk result (ends.new.items ≡ ends.old.items ++ ends_on cut edges.now) }
{
    for e in edges {
        push_end(ends, &e.from, cut)?;
        push_end(ends, &e.to, cut)?;
    }
    Ok(())
}

/// Whether the side is on the left of the line when the line runs in the order of points.
fn runs_forward(axis: Axis, side: Side) -> bool
    ensures { result ≡ runs_forward axis side }
{
    match axis {
        Axis::X => match side {
            Side::Low => true,
            Side::High => false,
        },
        Axis::Y => match side {
            Side::Low => false,
            Side::High => true,
        },
    }
}

/// The order of points along the line.
#[tactic(auto, unfolding(osm_geom::specs::Point::point_cmp))]
fn compare_along(p: Point, q: Point, cut: Cut, side: Side) -> Ordering
    ensures { result ≡ ordering_of (line_order cut side p q) }
{
    if runs_forward(cut.axis, side) {
        compare_points(p, q)
    } else {
        compare_points(q, p)
    }
}

/// The line as a carrier of edges.
fn line_carrier(cut: Cut) -> Carrier
    ensures { result ≡ carrier_of_cut cut }
{
    match cut.axis {
        Axis::X => Carrier::Vertical(cut.at),
        Axis::Y => Carrier::Horizontal(cut.at),
    }
}

/// The edge on the line from one end to the next.
fn link(z: Point, w: Point, cut: Cut) -> Edge
    requires z_end { IsEndOnLine cut z }
    requires w_end { IsEndOnLine cut w }
    requires apart { z ≢ w }
    ensures { IsLink cut z w result }
{
    Edge {
        from: z,
        to: w,
        carrier: line_carrier(cut),
    }
}

/// Whether there is no edge between an end and the next, after `passed` ends of `count`.
fn is_skipped(z: Point, w: Point, passed: usize, count: usize, cut: Cut, side: Side) -> bool
    requires { passed ≤ count }
    ensures { result ≡ is_skipped cut side count passed z w }
{
    let up_to_lower = if runs_forward(cut.axis, side) {
        passed
    } else {
        count - passed
    };
    compare_along(z, w, cut, side) != Ordering::Less || up_to_lower % 2 == 0
}

/// Adds the edge from an end to the next, if there is one.
fn push_link(
    edges: &mut Edges,
    z: Point,
    w: Point,
    passed: usize,
    count: usize,
    cut: Cut,
    side: Side,
) -> Result<(), OutOfMemory>
    requires z_end { IsEndOnLine cut z }
    requires w_end { IsEndOnLine cut w }
    requires passed { passed ≤ count }
    ensures { OnOk result (AddsLink cut z w (is_skipped cut side count passed z w) edges.old
        edges.new) }
{
    if !is_skipped(z, w, passed, count, cut, side) {
        edges.push(link(z, w, cut))?;
    }
    Ok(())
}

/// Adds the edges on the line from its first end on.
fn push_links_from(
    edges: &mut Edges,
    first: Point,
    rest: &[Point],
    cut: Cut,
    side: Side,
) -> Result<(), OutOfMemory>
    requires first_end { IsEndOnLine cut first }
    requires rest_ends { All (IsEndOnLine cut) rest.now }
    requires small { length rest.now + 1 < 2 ^ 64 }
    ensures { OnOk result (AddsWalk cut side (length rest.now + 1) first rest.now edges.old
        edges.new) }
{
    let count = rest.len() + 1;
    let mut before = first;
    for (place, &end) in rest.iter().enumerate() {
        push_link(edges, before, end, place + 1, count, cut, side)?;
        before = end;
    }
    Ok(())
}

/// The same order, in the form that a sort needs.
fn compare_ends(p: Point, q: Point, cut: Cut, side: Side) -> Ordering
    ensures { is_lt result ≡ is_plus (line_order cut side p q) }
{
    compare_along(p, q, cut, side)
}

/// Puts ends in order along the line.
fn sort_ends(ends: &mut Vec<Point>, cut: Cut, side: Side) -> Result<(), OutOfMemory>
    ensures { OnOk result ((ts : List Edge) → ends.old.items ≡ ends_on cut ts
        → AreSortedEnds cut side ts ends.new.items) }
{
    ends.sort_by(|p, q| compare_ends(*p, *q, cut, side))?;
    Ok(())
}

/// Adds the edges on the line.
fn push_links(edges: &mut Edges, ends: &[Point], cut: Cut, side: Side) -> Result<(), OutOfMemory>
    requires { All (IsEndOnLine cut) ends.now }
    ensures { OnOk result (AddsWalked cut side ends.now edges.old edges.new) }
{
    match ends.split_first() {
        None => Ok(()),
        Some((first, rest)) => push_links_from(edges, *first, rest, cut, side),
    }
}

/// The edges on the line that close portions which have these ends there.
fn links(alloc: Global, ends: Vec<Point>, cut: Cut, side: Side) -> Result<Edges, OutOfMemory>
    requires { (ts : List Edge) × (ends.items ≡ ends_on cut ts) }
    ensures { IfOk result (λ links. (es ts : List Edge) → ArePortions cut side es ts
        → ends.items ≡ ends_on cut ts → IsHalf cut side es (ts ++ links)) }
{
    let mut sorted = ends;
    sort_ends(&mut sorted, cut, side)?;
    let mut links = Edges::new(alloc);
    push_links(&mut links, &sorted, cut, side)?;
    Ok(links)
}

/// BatchedPortions in batches, and their ends on the line.
#[derive(Drop)]
struct BatchedPortions {
    batches: Batches,
    ends: Vec<Point>,
}

impl BatchedPortions {
    /// No portions.
    fn new(alloc: Global) -> BatchedPortions
        ensures batches { (whole : List Edge) → AreBatches whole result.batches
            × (batched_edges whole result.batches ≡ []) }
        ensures ends { result.ends.items ≡ [] }
    {
        BatchedPortions {
            batches: Batches::new(alloc),
            ends: Vec::new(alloc),
        }
    }

    /// Adds those of some edges, one by one.
    fn add_each(
        &mut self,
        alloc: Global,
        edges: &[Edge],
        cut: Cut,
        side: Side,
    ) -> Result<(), OutOfMemory>
        ensures { OnOk result ((whole : List Edge) → AreBatches whole self.old.batches
            → AddsPortions whole cut side edges.now self.old.batches self.new.batches
            self.old.ends.items self.new.ends.items) }
    {
        let portions = portions(alloc, edges, cut, side)?;
        push_ends(&mut self.ends, portions.as_slice(), cut)?;
        if let Some(batch) = Batch::own(portions) {
            self.batches.push(batch)?;
        }
        Ok(())
    }

    /// Adds those of a batch.
    fn add(
        &mut self,
        alloc: Global,
        whole: &[Edge],
        batch: &Batch,
        cut: Cut,
        side: Side,
    ) -> Result<(), OutOfMemory>
        requires batches { AreBatches whole.now self.old.batches }
        requires batch { IsBatch whole.now batch.now }
        ensures { OnOk result (AddsPortions whole.now cut side (batch_edges whole.now batch.now)
            self.old.batches self.new.batches self.old.ends.items self.new.ends.items) }
    {
        match batch.placing(cut, side) {
            Placing::Beyond => Ok(()),
            Placing::Kept => {
                let copy = batch.copied(alloc)?;
                self.batches.push(copy)
            }
            Placing::Across => self.add_each(alloc, batch.edges(whole), cut, side),
        }
    }
}

/// The portions of a list in batches.
fn portions_in(
    alloc: Global,
    whole: &[Edge],
    list: &Batches,
    cut: Cut,
    side: Side,
) -> Result<BatchedPortions, OutOfMemory>
    requires { AreBatches whole.now list.now }
    ensures batches { IfOk result (λ portions. AreBatches whole.now portions.batches) }
    ensures portions { IfOk result (λ portions. ArePortions cut side
        (batched_edges whole.now list.now) (batched_edges whole.now portions.batches)) }
    ensures ends { IfOk result (λ portions. portions.ends.items
        ≡ ends_on cut (batched_edges whole.now portions.batches)) }
{
    let mut portions = BatchedPortions::new(alloc);
    for batch in &list.batches {
        portions.add(alloc, whole, batch, cut, side)?;
    }
    Ok(portions)
}

/// The half of a list in batches.
pub(crate) fn half_in_batches(
    alloc: Global,
    whole: &[Edge],
    list: &Batches,
    cut: Cut,
    side: Side,
) -> Result<Batches, OutOfMemory>
    requires { AreBatches whole.now list.now }
    ensures batches { IfOk result (λ half. AreBatches whole.now half) }
    ensures half { IfOk result (λ half. IsHalf cut side (batched_edges whole.now list.now)
        (batched_edges whole.now half)) }
{
    let BatchedPortions { batches, ends } = portions_in(alloc, whole, list, cut, side)?;
    let mut half = batches;
    let links = links(alloc, ends, cut, side)?;
    if let Some(batch) = Batch::own(links) {
        half.push(batch)?;
    }
    Ok(half)
}

/// The half of a list of edges on one side of a cut line.
///
/// It has the portions of the list's edges on that side, and edges on the line that close them, with the side on their left.
/// It is sided. At points strictly on the side and off the list, it counts what the list counts. At points strictly on the
/// other side it counts nothing.
pub fn half(alloc: Global, edges: &Edges, cut: Cut, side: Side) -> Result<Edges, OutOfMemory>
    requires { IsSided edges.now }
    ensures half { IfOk result (λ hs. IsHalf cut side edges.now hs) }
    ensures sided { IfOk result (λ hs. IsSided hs) }
    ensures kept { IfOk result (λ hs. CountsAsKept cut side edges.now hs) }
    ensures beyond { IfOk result (λ hs. CountsNothingBeyond cut side hs) }
{
    let whole = edges.as_slice();
    let list = Batches::of(alloc, whole)?;
    let half = half_in_batches(alloc, whole, &list, cut, side)?;
    let edges = half.edges(alloc, whole)?;
    Ok(edges)
}
