//! The leaves of a list in turn: each is cut out when it is asked for.
ghost use Rattle.std.specs.Prelude.{◌≡◌, ◌∷◌, [], All, IfNone, IfOk, IfSome, Some};
ghost use Rattle.osm_geom.specs.InPlane.Sided.{IsSided};
ghost use Rattle.coast_split.specs.Batches.{batched_edges};
ghost use Rattle.coast_split.specs.LeavesLeft.{IsNextLeaf};
ghost use Rattle.coast_split.specs.SplitTree.{leaf_of};
ghost use Rattle.coast_split.specs.Splitting.{IsCutOff, IsMiddle};
ghost use Rattle.coast_split.specs.Waiting.{AreWaiting, IsWaiting, lists_in};

use crate::batches::Batches;
use crate::halves::half_in_batches;
use crate::leaves::{Leaf, Settings, has_many, high_cut, low_cut};
use osm_geom::{Cut, Edge, Edges, Side};
use std::alloc::{AllocError as OutOfMemory, Global};
use std::marker::Model;

/// Cuts a list. Its high half waits, and the low one is given.
fn cut_off(
    alloc: Global,
    whole: &[Edge],
    settings: &Settings,
    list: &Batches,
    middle: Cut,
    waiting: &mut Vec<Batches>,
) -> Result<Batches, OutOfMemory>
    requires part { IsWaiting whole.now list.now }
    requires cut { IsMiddle settings.now.most_points settings.now.overlap
        (batched_edges whole.now list.now) (Some middle) }
    requires waiting { AreWaiting whole.now waiting.old.items }
    ensures waiting { AreWaiting whole.now waiting.new.items }
    ensures low { IfOk result (IsWaiting whole.now) }
    ensures cut { IfOk result (λ low. IsCutOff settings.now.most_points settings.now.overlap
        (batched_edges whole.now list.now) (lists_in whole.now waiting.old.items)
        (batched_edges whole.now low) (lists_in whole.now waiting.new.items)) }
{
    let high_line = high_cut(middle, settings.overlap);
    let high = half_in_batches(alloc, whole, list, high_line, Side::High)?;
    let low_line = low_cut(middle, settings.overlap);
    let low = half_in_batches(alloc, whole, list, low_line, Side::Low)?;
    waiting.push(high)?;
    Ok(low)
}

/// Takes the next leaf of lists that wait, the next one last; None if none is left.
///
/// A list is cut, and each low half, until that is a leaf.
pub(crate) fn next_leaf(
    alloc: Global,
    whole: &[Edge],
    settings: &Settings,
    waiting: &mut Vec<Batches>,
) -> Result<Option<Batches>, OutOfMemory>
    requires { AreWaiting whole.now waiting.old.items }
    ensures waiting { AreWaiting whole.now waiting.new.items }
    ensures part { IfOk result (λ next. IfSome next (IsWaiting whole.now)) }
    ensures leaf { IfOk result (λ next. IfSome next (λ list.
        IsNextLeaf settings.now.most_points settings.now.overlap
        (lists_in whole.now waiting.old.items)
        (leaf_of settings.now.most_points (batched_edges whole.now list))
        (lists_in whole.now waiting.new.items))) }
    ensures none { IfOk result (λ next. IfNone next (waiting.old.items ≡ [])) }
    ensures ended { IfOk result (λ next. IfNone next (waiting.new.items ≡ [])) }
{
    let Some(mut list) = waiting.pop() else {
        return Ok(None);
    };
    while let Some(middle) = list.middle(settings) {
        list = cut_off(alloc, whole, settings, &list, middle, waiting)?;
    }
    Ok(Some(list))
}

/// The leaves of a list, handed out one after the other.
///
/// Contracts see the lists that are still to be cut. Held are the whole list, and on one path of the split tree the high halves
/// that wait.
#[derive(Drop)]
pub struct Leaves {
    alloc: Global,
    settings: Settings,
    // A list that has so few edges that it isn't cut.
    only: Option<Edges>,
    whole: Edges,
    // Parts of the whole list. The next one comes last.
    waiting: Vec<Batches>,
}

impl Model for Leaves {
    ghost use Rattle.std.specs.Prelude.{IfSome, false, ◌≡◌, ◌++◌};
    ghost use Rattle.coast_split.specs.SplitTree.{is_large};
    ghost use Rattle.coast_split.specs.ToCut.{ToCut};
    ghost use Rattle.coast_split.specs.Splitting.{IsCutOff, IsMiddle};
    ghost use Rattle.coast_split.specs.Waiting.{AreWaiting, lists_in, lists_of_only};
    ghost use Rattle.osm_geom.specs.InPlane.Sided.{IsSided};

    ghost Value = { ToCut };

    ghost view = { λ leaves. record { most_points = leaves.settings.most_points; overlap = leaves.settings.overlap; waiting = lists_of_only leaves.only ++ lists_in leaves.whole leaves.waiting.items } };

    ghost invariant = { λ leaves. AreWaiting leaves.whole leaves.waiting.items × IfSome leaves.only (λ es. IsSided es × (is_large leaves.settings.most_points es ≡ false)) };
}

impl Leaves {
    /// The leaves of a sided list, however many there are.
    pub fn of(alloc: Global, edges: Edges, settings: &Settings) -> Result<Leaves, OutOfMemory>
        requires { IsSided edges }
        ensures { IfOk result (λ leaves. leaves ≡ record {
          most_points = settings.now.most_points;
          overlap = settings.now.overlap;
          waiting = edges ∷ [];
        }) }
    {
        let settings = *settings;
        let mut waiting = Vec::new(alloc);
        if !has_many(edges.as_slice().len(), &settings) {
            return Ok(Leaves {
                alloc,
                settings,
                only: Some(edges),
                whole: Edges::new(alloc),
                waiting,
            });
        }
        waiting.push(Batches::of(alloc, edges.as_slice())?)?;
        Ok(Leaves {
            alloc,
            settings,
            only: None,
            whole: edges,
            waiting,
        })
    }

    /// Takes the next leaf; None if none is left.
    pub fn next(&mut self) -> Result<Option<Leaf>, OutOfMemory>
        ensures kept { (self.new.most_points ≡ self.old.most_points)
            × (self.new.overlap ≡ self.old.overlap) }
        ensures some { IfOk result (λ next. IfSome next (λ leaf. IsNextLeaf self.old.most_points
            self.old.overlap self.old.waiting leaf self.new.waiting)) }
        ensures none { IfOk result (λ next. IfNone next (self.old.waiting ≡ [])) }
        ensures ended { IfOk result (λ next. IfNone next (self.new.waiting ≡ [])) }
        ensures sided { IfOk result (λ next. IfSome next (λ leaf. IsSided leaf.edges)) }
    {
        if let Some(edges) = self.only.take() {
            return Ok(Some(Leaf {
                edges,
                large: false,
            }));
        }
        let whole = self.whole.as_slice();
        let next = next_leaf(self.alloc, whole, &self.settings, &mut self.waiting)?;
        let Some(list) = next else {
            return Ok(None);
        };
        let large = has_many(list.edge_count, &self.settings);
        let edges = list.edges(self.alloc, whole)?;
        Ok(Some(Leaf { edges, large }))
    }
}
