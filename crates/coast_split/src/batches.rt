//! Lists that are cut, in batches: neighbouring edges together, with their envelope.
//!
//! A cut leaves most batches as they are, or nothing of them. Only the edges of a batch that reaches the line are looked at one by one.
ghost use Rattle.std.specs.Prelude.{◌≡◌, ◌++◌, ◌-◌, ◌≤◌, ◌<◌, [], IfOk, List, MatchOption, OnOk, drop, length, take};
ghost use Rattle.osm_geom.specs.declared.edge.Edge.{Edge};
ghost use Rattle.coast_split.specs.Batches.{AddsEdges, AreAt, AreBatches, IsBatch, batch_edges, batched_edges};
ghost use Rattle.coast_split.specs.Envelope.{envelope_of};
ghost use Rattle.coast_split.specs.Splitting.{IsMiddle};

use crate::envelope::{Envelope, Placing, envelope_of, is_wide};
use crate::leaves::{Settings, has_many};
use osm_geom::{Cut, Edge, Edges, Side};
use std::alloc::{AllocError as OutOfMemory, Global};

/// How many edges of a whole list come in a batch, but for the last.
const BATCH: usize = 32;

/// Where the edges of a batch are.
#[derive(Drop)]
pub(crate) enum Source {
    /// In the whole list, from one place up to another.
    Lent { from: usize, end: usize },
    /// In the batch: a line has cut some of them, or they are on one.
    Own(Edges),
}

/// Edges that follow each other in a list, at least one, and their envelope.
#[derive(Drop)]
pub(crate) struct Batch {
    pub(crate) source: Source,
    pub(crate) envelope: Envelope,
}

/// A list in batches, in order. Some of its edges are lent from the whole list of which it is a part.
#[derive(Drop)]
pub(crate) struct Batches {
    pub(crate) batches: Vec<Batch>,
    /// How many edges all of them have.
    pub(crate) edge_count: usize,
    pub(crate) envelope: Envelope,
}

/// The edges of a list from one place up to another.
fn part(edges: &[Edge], from: usize, end: usize) -> &[Edge]
    requires order { from ≤ end }
    requires inside { end ≤ length edges.now }
    ensures { result.now ≡ take (end - from) (drop from edges.now) }
{
    &edges[from..end]
}

impl Batch {
    /// The edges of the whole list from one place up to another.
    fn lent(whole: &[Edge], from: usize, end: usize) -> Batch
        requires some { from < end }
        requires inside { end ≤ length whole.now }
        ensures batch { IsBatch whole.now result }
        ensures edges { batch_edges whole.now result ≡ take (end - from) (drop from whole.now) }
    {
        Batch {
            source: Source::Lent { from, end },
            envelope: envelope_of(part(whole, from, end)),
        }
    }

    /// Edges of its own; None where there are none.
    pub(crate) fn own(edges: Edges) -> Option<Batch>
        ensures { (whole : List Edge) → MatchOption result (edges ≡ []) (λ batch.
            IsBatch whole batch × (batch_edges whole batch ≡ edges)) }
    {
        if edges.as_slice().is_empty() {
            return None;
        }
        let envelope = envelope_of(edges.as_slice());
        Some(Batch {
            source: Source::Own(edges),
            envelope,
        })
    }

    /// Its edges, in order.
    pub(crate) fn edges<'e>(&'e self, whole: &'e [Edge]) -> &'e [Edge]
        requires { IsBatch whole.now self.now }
        ensures { result.now ≡ batch_edges whole.now self.now }
    {
        match &self.source {
            Source::Lent { from, end } => part(whole, *from, *end),
            Source::Own(edges) => edges.as_slice(),
        }
    }

    /// How many edges it has.
    fn edge_count(&self) -> usize
        ensures { (whole : List Edge) → IsBatch whole self.now
            → result ≡ length (batch_edges whole self.now) }
    {
        match &self.source {
            Source::Lent { from, end } => end.saturating_sub(*from),
            Source::Own(edges) => edges.as_slice().len(),
        }
    }

    /// The same batch once more.
    pub(crate) fn copied(&self, alloc: Global) -> Result<Batch, OutOfMemory>
        ensures { IfOk result (λ batch. batch ≡ self.now) }
    {
        let source = match &self.source {
            Source::Lent { from, end } => Source::Lent {
                from: *from,
                end: *end,
            },
            Source::Own(edges) => {
                Source::Own(Edges::from_vec(Vec::from_slice(alloc, edges.as_slice())?))
            }
        };
        Ok(Batch {
            source,
            envelope: self.envelope,
        })
    }

    /// How its edges lie to a cut line.
    pub(crate) fn placing(&self, cut: Cut, side: Side) -> Placing
        ensures { (whole : List Edge) → IsBatch whole self.now
            → AreAt cut side result (batch_edges whole self.now) }
    {
        self.envelope.placing(cut, side)
    }
}

/// Where the batch from a place ends, in a list of so many edges.
fn batch_end(from: usize, count: usize) -> usize
    requires { from < count }
    ensures behind { from < result }
    ensures inside { result ≤ count }
{
    if count - from > BATCH {
        from + BATCH
    } else {
        count
    }
}

impl Batches {
    /// No edges.
    pub(crate) fn new(alloc: Global) -> Batches
        ensures { (whole : List Edge) → AreBatches whole result
            × (batched_edges whole result ≡ []) }
    {
        Batches {
            batches: Vec::new(alloc),
            edge_count: 0,
            envelope: envelope_of(&[]),
        }
    }

    /// A whole list.
    pub(crate) fn of(alloc: Global, whole: &[Edge]) -> Result<Batches, OutOfMemory>
        ensures { IfOk result (λ list. AreBatches whole.now list
            × (batched_edges whole.now list ≡ whole.now)) }
    {
        let mut list = Batches::new(alloc);
        let mut from = 0;
        while from < whole.len() {
            let end = batch_end(from, whole.len());
            list.push(Batch::lent(whole, from, end))?;
            from = end;
        }
        Ok(list)
    }

    /// The envelope with that of one more batch.
    fn envelope_with(&self, batch: &Batch) -> Envelope
        ensures { (whole : List Edge) → AreBatches whole self.now → IsBatch whole batch.now
            → result ≡ envelope_of (batched_edges whole self.now ++ batch_edges whole batch.now) }
    {
        if self.edge_count == 0 {
            batch.envelope
        } else {
            self.envelope.joined(batch.envelope)
        }
    }

    /// Adds a batch.
    pub(crate) fn push(&mut self, batch: Batch) -> Result<(), OutOfMemory>
        ensures { OnOk result ((whole : List Edge) → AreBatches whole self.old
            → IsBatch whole batch
            → AddsEdges whole self.old self.new (batch_edges whole batch)) }
    {
        let edge_count = self
            .edge_count
            .checked_add(batch.edge_count())
            .ok_or(OutOfMemory)?;
        self.envelope = self.envelope_with(&batch);
        self.edge_count = edge_count;
        self.batches.push(batch)?;
        Ok(())
    }

    /// The middle of the longer side of a list that is cut; None for a leaf.
    pub(crate) fn middle(&self, settings: &Settings) -> Option<Cut>
        requires { (whole : List Edge) × AreBatches whole self.now }
        ensures { (whole : List Edge) → AreBatches whole self.now
            → IsMiddle settings.now.most_points settings.now.overlap (batched_edges whole self.now)
            result }
    {
        if !has_many(self.edge_count, settings) {
            return None;
        }
        let axis = self.envelope.longer();
        if !is_wide(self.envelope.width(axis), settings.overlap) {
            return None;
        }
        Some(Cut {
            axis,
            at: self.envelope.middle(axis) as i32,
        })
    }

    /// Its edges, in order.
    pub(crate) fn edges(&self, alloc: Global, whole: &[Edge]) -> Result<Edges, OutOfMemory>
        requires { AreBatches whole.now self.now }
        ensures { IfOk result (λ edges. edges ≡ batched_edges whole.now self.now) }
    {
        let mut edges = Vec::with_capacity(alloc, self.edge_count)?;
        for batch in &self.batches {
            edges.extend_from_slice(batch.edges(whole))?;
        }
        Ok(Edges::from_vec(edges))
    }
}
