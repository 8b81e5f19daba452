//! How many leaves a list has.
ghost use Rattle.std.specs.Prelude.{◌≡◌, ◌≤◌, ◌<◌, [], IfErr, IfOk, List, length, false, true, ℕ};
ghost use Rattle.osm_geom.specs.InPlane.Sided.{IsSided};
ghost use Rattle.coast_split.specs.declared.leaves.Leaf.{Leaf};
ghost use Rattle.coast_split.specs.declared.leaves.SplitError.TheVariants.{TooManyPieces};
ghost use Rattle.coast_split.specs.LeavesLeft.{AreLeft, IsNextLeaf};
ghost use Rattle.coast_split.specs.SplitTree.{AreLeaves, HasMoreLeaves};
ghost use Rattle.coast_split.specs.Splitting.{HaveMoreLeft};
ghost use Rattle.coast_split.specs.Waiting.{AreWaiting, lists_in};

use crate::batches::Batches;
use crate::in_turn::next_leaf;
use crate::laws::split_trees_exist;
use crate::leaves::{Settings, SplitError, has_many};
use osm_geom::{Edge, Edges};
use std::alloc::{AllocError as OutOfMemory, Global};

/// Takes the next leaf; gives whether there was one.
fn pass_leaf(
    alloc: Global,
    whole: &[Edge],
    settings: &Settings,
    waiting: &mut Vec<Batches>,
) -> Result<bool, OutOfMemory>
    requires { AreWaiting whole.now waiting.old.items }
    ensures waiting { AreWaiting whole.now waiting.new.items }
    ensures passed { IfOk result (λ passed. passed ≡ true → (leaf : Leaf)
        × IsNextLeaf settings.now.most_points settings.now.overlap
        (lists_in whole.now waiting.old.items) leaf (lists_in whole.now waiting.new.items)) }
    ensures none { IfOk result (λ passed. passed ≡ false → waiting.old.items ≡ []) }
{
    match next_leaf(alloc, whole, settings, waiting)? {
        None => Ok(false),
        Some(_) => Ok(true),
    }
}

/// How many leaves lists that wait have; refused if they are more than `most_leaves`.
fn count_waiting(
    alloc: Global,
    whole: &[Edge],
    settings: &Settings,
    waiting: &mut Vec<Batches>,
) -> Result<u64, SplitError>
    requires { AreWaiting whole.now waiting.old.items }
    ensures counted { IfOk result (λ n. (ls : List Leaf)
        × AreLeft settings.now.most_points settings.now.overlap
        (lists_in whole.now waiting.old.items) ls
        × (n ≡ length ls) × (n ≤ settings.now.most_leaves)) }
    ensures many { IfErr result (λ e. (m : ℕ) → e ≡ TooManyPieces m
        → (m ≡ settings.now.most_leaves)
        × HaveMoreLeft settings.now.most_points settings.now.overlap settings.now.most_leaves
        (lists_in whole.now waiting.old.items)) }
{
    // By law: there are leaves after one too many.
    split_trees_exist();
    let most = settings.most_leaves;
    for count in 0..most {
        if !pass_leaf(alloc, whole, settings, waiting)? {
            return Ok(count);
        }
    }
    if pass_leaf(alloc, whole, settings, waiting)? {
        return Err(SplitError::TooManyPieces { most });
    }
    Ok(most)
}

/// The number of leaves of a list that isn't cut.
fn count_of_one(settings: &Settings) -> Result<u64, SplitError>
    ensures counted { IfOk result (λ n. (n ≡ 1) × (n ≤ settings.now.most_leaves)) }
    ensures many { IfErr result (λ e. (m : ℕ) → e ≡ TooManyPieces m
        → (m ≡ settings.now.most_leaves) × (settings.now.most_leaves < 1)) }
{
    if settings.most_leaves < 1 {
        return Err(SplitError::TooManyPieces {
            most: settings.most_leaves,
        });
    }
    Ok(1)
}

/// How many leaves a sided list has.
///
/// There are too many pieces exactly if the split tree has more leaves than `most_leaves`. One path of the tree is held at a
/// time.
pub fn count_leaves(alloc: Global, edges: &Edges, settings: &Settings) -> Result<u64, SplitError>
    requires { IsSided edges.now }
    ensures counted { IfOk result (λ n. (ls : List Leaf)
        × AreLeaves settings.now.most_points settings.now.overlap edges.now ls × (n ≡ length ls)
        × (n ≤ settings.now.most_leaves)) }
    ensures many { IfErr result (λ e. (m : ℕ) → e ≡ TooManyPieces m
        → (m ≡ settings.now.most_leaves) × HasMoreLeaves settings.now.most_points
        settings.now.overlap settings.now.most_leaves edges.now) }
{
    let whole = edges.as_slice();
    if !has_many(whole.len(), settings) {
        return count_of_one(settings);
    }
    let mut waiting = Vec::new(alloc);
    waiting.push(Batches::of(alloc, whole)?)?;
    count_waiting(alloc, whole, settings, &mut waiting)
}
