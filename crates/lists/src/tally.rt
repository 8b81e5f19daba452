//! How often each item stands in a list, counted along the sorted list.

ghost use Rattle.std.specs.Prelude.{◌≡◌, ◌+◌, ◌%◌, ◌==◌, ◌<◌, ◌^◌, ◌++◌, ◌∷◌, [], if◌then◌else◌, nat_le, All, List, IfOk, OnOk, count_by, filter, map, min};
ghost use Rattle.std.specs.Ordering.{is_eq, on};
ghost use Rattle.lists.specs.Rising.{IsRising, count_of};
ghost use Rattle.lists.specs.Tallied.{UpTo, IsTallied};

use std::alloc::{AllocError as OutOfMemory, Global};

/// An item of a list, and how often it stands there.
#[derive(Clone, Copy, Debug, PartialEq, Eq)]
pub struct Tally<T> {
    pub item: T,
    pub times: u64,
}

/// Counts one more item, which is not less than any before it.
fn count_in<T: Ord + Copy>(tallies: &mut Vec<Tally<T>>, item: T) -> Result<(), OutOfMemory>
    requires room { All (λ t. t.times + 1 < 2 ^ 64) tallies.old.items }
    ensures counted { OnOk result ((passed : List T) → IsTallied T.cmp passed tallies.old.items
        → UpTo T.cmp item passed → IsTallied T.cmp (passed ++ item ∷ []) tallies.new.items) }
{
    match tallies.last().copied() {
        Some(last) if last.item == item => {
            tallies.pop();
            tallies.push(Tally {
                item: last.item,
                times: last.times + 1,
            })?;
        }
        _ => tallies.push(Tally { item, times: 1 })?,
    }
    Ok(())
}

/// Each different item of a list, in order, and how often it stands there.
pub fn tallies<T: Ord + Copy>(alloc: Global, items: &[T]) -> Result<Vec<Tally<T>>, OutOfMemory>
    ensures rising { IfOk result (λ v. IsRising (on (λ t. t.item) T.cmp) v.items) }
    ensures times { IfOk result (λ v. All (λ t. t.times ≡ count_of T.cmp t.item items.now)
        v.items) }
    ensures each { IfOk result (λ v. (x : T) → count_by (λ t. is_eq (T.cmp t.item x)) v.items
        ≡ min 1 (count_of T.cmp x items.now)) }
{
    let mut sorted = Vec::from_slice(alloc, items)?;
    sorted.sort()?;
    let mut tallies = Vec::with_capacity(alloc, sorted.len())?;
    for &item in &sorted {
        count_in(&mut tallies, item)?;
    }
    Ok(tallies)
}

/// The items of tallies.
pub fn items_of<T: Copy>(alloc: Global, tallies: &[Tally<T>]) -> Result<Vec<T>, OutOfMemory>
    ensures { IfOk result (λ v. v.items ≡ map (λ t. t.item) tallies.now) }
{
    tallies.iter().map(|t| t.item).collect(alloc)
}

/// The tallies of at least two.
fn repeated_of<T: Copy>(alloc: Global, tallies: &[Tally<T>]) -> Result<Vec<Tally<T>>, OutOfMemory>
    ensures { IfOk result (λ v. v.items ≡ filter (λ t. nat_le 2 t.times) tallies.now) }
{
    tallies
        .iter()
        .filter(|t| t.times >= 2)
        .copied()
        .collect(alloc)
}

/// The items of a list, each once, in strict order.
pub fn distinct_items<T: Ord + Copy>(alloc: Global, items: &[T]) -> Result<Vec<T>, OutOfMemory>
    ensures once { IfOk result (λ v. (x : T) → count_of T.cmp x v.items
        ≡ min 1 (count_of T.cmp x items.now)) }
    ensures rising { IfOk result (λ v. IsRising T.cmp v.items) }
{
    let tallies = tallies(alloc, items)?;
    items_of(alloc, &tallies)
}

/// What `distinct_items` gives of a list that isn't needed any more: it is sorted, and repeated items leave it, where it stands.
pub fn distinct_items_of<T: Ord + Copy>(mut items: Vec<T>) -> Vec<T>
    ensures once { (x : T) → count_of T.cmp x result.items
        ≡ min 1 (count_of T.cmp x items.items) }
    ensures rising { IsRising T.cmp result.items }
{
    items.sort_unstable();
    items.dedup();
    items
}

/// The items that stand at least twice in a list, each once and with its number, in strict order.
pub fn repeated_items<T: Ord + Copy>(
    alloc: Global,
    items: &[T],
) -> Result<Vec<Tally<T>>, OutOfMemory>
    ensures repeated { IfOk result (λ v. (x : T)
        → count_of T.cmp x (map (λ t. t.item) v.items)
        ≡ (if nat_le 2 (count_of T.cmp x items.now) then 1 else 0)) }
    ensures times { IfOk result (λ v. All (λ t. t.times ≡ count_of T.cmp t.item items.now)
        v.items) }
    ensures rising { IfOk result (λ v. IsRising T.cmp (map (λ t. t.item) v.items)) }
{
    let tallies = tallies(alloc, items)?;
    repeated_of(alloc, &tallies)
}
