//! The pieces that are cut off walks where they return to a node.
ghost use Rattle.std.specs.Prelude.{◌≡◌, ◌≢◌, ◌<◌, ◌++◌, ◌∷◌, [], All, IfOk, List, OnOk, false, length, slice_index_or, true, ℕ};
ghost use Rattle.osm_rings.specs.Pieces.{AreAdded, AreCutAlong, AreWalksBelow, HaveOwnNumbers};
ghost use Rattle.orbits.specs.Along.{StandAlong};

use crate::nodes::Nodes;
use orbits::{ClosedWalks, cut};
use std::alloc::{AllocError as OutOfMemory, Global};

/// Whether no item of a walk leaves a node that others leave.
fn is_apart(walk: &[usize], shared: &[bool]) -> bool
    requires { All (λ i. i < length shared.now) walk.now }
    ensures { result ≡ true → All (λ i. slice_index_or shared.now i true ≡ false) walk.now }
{
    for &item in walk {
        if shared[item] {
            return false;
        }
    }
    true
}

/// Adds a piece to those that stand one after the other.
fn add_piece(pieces: &mut ClosedWalks, piece: &[usize]) -> Result<(), OutOfMemory>
    ensures { OnOk result ((before : List (List ℕ))
        → StandAlong before pieces.old.places.items pieces.old.sizes.items
        → StandAlong (before ++ piece.now ∷ []) pieces.new.places.items pieces.new.sizes.items) }
{
    pieces.places.extend_from_slice(piece)?;
    pieces.sizes.push(piece.len())?;
    Ok(())
}

/// Adds the pieces that a walk is cut into.
fn add_cut(
    alloc: Global,
    pieces: &mut ClosedWalks,
    walk: &[usize],
    numbers: &[usize],
    depths: &mut [usize],
) -> Result<(), OutOfMemory>
    requires within { All (λ i. i < length numbers.now) walk.now }
    requires room { All (λ k. k < length depths.old) numbers.now }
    ensures { OnOk result (AreAdded numbers.now walk.now pieces.old pieces.new) }
{
    let cut = cut(alloc, walk, numbers, depths)?;
    for piece in &cut {
        add_piece(pieces, piece)?;
    }
    Ok(())
}

/// Adds the pieces of a walk: the walk itself, if it leaves no node that others leave, or what it is cut into.
fn add_walk(
    alloc: Global,
    pieces: &mut ClosedWalks,
    walk: &[usize],
    nodes: &Nodes,
    depths: &mut [usize],
) -> Result<(), OutOfMemory>
    requires within { All (λ i. i < length nodes.now.numbers.items) walk.now }
    requires some { 0 < length walk.now }
    requires once { (i j : ℕ) → i < j → j < length walk.now
        → slice_index_or walk.now i 0 ≢ slice_index_or walk.now j 0 }
    requires marked { length nodes.now.shared.items ≡ length nodes.now.numbers.items }
    requires own { HaveOwnNumbers nodes.now.numbers.items nodes.now.shared.items }
    requires room { All (λ k. k < length depths.old) nodes.now.numbers.items }
    ensures { OnOk result (AreAdded nodes.now.numbers.items walk.now pieces.old pieces.new) }
{
    if is_apart(walk, &nodes.shared) {
        add_piece(pieces, walk)?;
        return Ok(());
    }
    add_cut(alloc, pieces, walk, &nodes.numbers, depths)
}

/// No pieces, with room for so many places.
fn no_pieces(alloc: Global, room: usize) -> Result<ClosedWalks, OutOfMemory>
    ensures { IfOk result (λ v. StandAlong [] v.places.items v.sizes.items) }
{
    Ok(ClosedWalks {
        places: Vec::with_capacity(alloc, room)?,
        sizes: Vec::new(alloc),
    })
}

/// The pieces that are cut off walks. `places` has the walks one after the other, and `sizes` how many places each has.
pub fn pieces(
    alloc: Global,
    places: &[usize],
    sizes: &[usize],
    nodes: &Nodes,
) -> Result<ClosedWalks, OutOfMemory>
    requires walks { (walks : List (List ℕ))
        × AreWalksBelow (length nodes.now.numbers.items) walks places.now sizes.now }
    requires marked { length nodes.now.shared.items ≡ length nodes.now.numbers.items }
    requires own { HaveOwnNumbers nodes.now.numbers.items nodes.now.shared.items }
    requires room { All (λ k. k < length nodes.now.numbers.items) nodes.now.numbers.items }
    ensures { IfOk result (λ v. (walks : List (List ℕ))
        → AreWalksBelow (length nodes.now.numbers.items) walks places.now sizes.now
        → AreCutAlong nodes.now.numbers.items walks v.places.items v.sizes.items) }
{
    let mut depths = vec![in alloc; 0; nodes.numbers.len()]?;
    let mut pieces = no_pieces(alloc, places.len())?;
    let mut left = places;
    for &size in sizes {
        let (walk, rest) = left.split_at(size);
        add_walk(alloc, &mut pieces, walk, nodes, &mut depths)?;
        left = rest;
    }
    Ok(pieces)
}
