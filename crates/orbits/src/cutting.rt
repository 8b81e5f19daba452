//! Closed walks cut into pieces that leave no key twice.
ghost use Rattle.std.specs.Prelude.{◌≡◌, ◌<◌, length, All, IfOk, map};
ghost use Rattle.orbits.specs.Cutting.{AreCutOff};
ghost use Rattle.orbits.specs.Taking.{has_key_at, IsTaken};

use std::alloc::{AllocError as OutOfMemory, Global};

/// Cuts a closed walk into closed walks that leave no key twice.
///
/// The walk is a list of items, each a number below `keys.len()`. Item i leaves the key `keys[i]` and enters the key that
/// the next item leaves; the last enters that of the first. The pieces are lists of items too.
///
/// `depths` is room to work in, one number for each key; what it holds before and after doesn't matter. It takes time in
/// proportion to the walk. Fails only if memory runs out.
pub fn cut(
    alloc: Global,
    walk: &[usize],
    keys: &[usize],
    depths: &mut [usize],
) -> Result<Vec<Vec<usize>>, OutOfMemory>
    requires keyed { All (λ i. i < length keys.now) walk.now }
    requires room { All (λ k. k < length depths.old) keys.now }
    ensures { IfOk result (λ v. AreCutOff keys.now walk.now (map (λ p. p.items) v.items)) }
{
    let mut pieces = Vec::new(alloc);
    let mut stack: Vec<usize> = Vec::with_capacity(alloc, walk.len())?;
    for &item in walk {
        take_item(item, keys, depths, &mut stack, &mut pieces)?;
    }
    if !stack.is_empty() {
        pieces.push(stack)?;
    }
    Ok(pieces)
}

/// Cuts off the stack from an item's key on, if the stack has that key, and then puts the item on the stack.
fn take_item(
    item: usize,
    keys: &[usize],
    depths: &mut [usize],
    stack: &mut Vec<usize>,
    pieces: &mut Vec<Vec<usize>>,
) -> Result<(), OutOfMemory>
    requires item { item < length keys.now }
    requires keyed { All (λ i. i < length keys.now) stack.old.items }
    requires room { All (λ k. k < length depths.old) keys.now }
    ensures { IfOk result (λ u. IsTaken keys.now item depths.old depths.new
        stack.old.items stack.new.items (map (λ p. p.items) pieces.old.items) (map (λ p. p.items) pieces.new.items)) }
{
    let key = keys[item];
    // A depth counts only if the stack has the key there, so none is ever cleared.
    let depth = depths[key];
    if has_key(keys, stack, depth, key) {
        pieces.push(stack.split_off(depth)?)?;
    }
    depths[key] = stack.len();
    stack.push(item)?;
    Ok(())
}

/// Whether the item of the stack at a depth leaves a key.
fn has_key(keys: &[usize], stack: &[usize], depth: usize, key: usize) -> bool
    requires { All (λ i. i < length keys.now) stack.now }
    ensures { result ≡ has_key_at keys.now stack.now depth key }
{
    depth < stack.len() && keys[stack[depth]] == key
}
