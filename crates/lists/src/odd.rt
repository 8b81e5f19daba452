//! The items that stand an odd number of times in a list: along the sorted list each two that tie cancel each other.

ghost use Rattle.std.specs.Prelude.{◌≡◌, ◌≤◌, ◌<◌, ◌%◌, ◌+◌, ◌++◌, ◌∷◌, [], List, IfOk, ℕ, length, slice_index_or, take};
ghost use Rattle.std.specs.List.Sorted.{IsSorted};
ghost use Rattle.lists.specs.Rising.{IsRising, count_of};
ghost use Rattle.lists.specs.Tallied.{IsCancelled, UpTo};

use std::alloc::{AllocError as OutOfMemory, Global};

/// One more item, which is not less than any before it, cancels the last of the first ones, which are left, if they tie;
/// else it is left too. Gives how many are left.
fn cancel_in<T: Ord + Copy>(items: &mut Vec<T>, left: usize, place: usize) -> usize
    requires before { left ≤ place }
    requires inside { place < length items.old.items }
    ensures within { result ≤ place + 1 }
    ensures long { length items.new.items ≡ length items.old.items }
    ensures later { (k : ℕ) (d : T) → place < k
        → slice_index_or items.new.items k d ≡ slice_index_or items.old.items k d }
    ensures left { (passed : List T) (x : T) → x ≡ slice_index_or items.old.items place x
        → IsCancelled T.cmp passed (take left items.old.items) → UpTo T.cmp x passed
        → IsCancelled T.cmp (passed ++ x ∷ []) (take result items.new.items) }
{
    let item = items[place];
    if left > 0 && items[left - 1] == item {
        return left - 1;
    }
    items[left] = item;
    left + 1
}

/// Of the items of a sorted list those are left that don't cancel each other.
fn cancel_each<T: Ord + Copy>(items: &mut Vec<T>)
    requires { IsSorted T.cmp items.old.items }
    ensures { IsCancelled T.cmp items.old.items items.new.items }
{
    let mut left = 0;
    for place in 0..items.len() {
        left = cancel_in(items, left, place);
    }
    items.truncate(left);
}

/// What `odd_items` gives of a list that isn't needed any more, and that mostly is in order in parts: it is sorted, and its items cancel,
/// where they stand.
pub fn odd_items_of<T: Ord + Copy>(mut items: Vec<T>) -> Result<Vec<T>, OutOfMemory>
    ensures odd { IfOk result (λ v. (x : T) → count_of T.cmp x v.items
        ≡ count_of T.cmp x items.items % 2) }
    ensures rising { IfOk result (λ v. IsRising T.cmp v.items) }
    ensures once { IfOk result (λ v. length v.items ≡ length items.items
        → (x : T) → count_of T.cmp x items.items ≤ 1) }
{
    items.sort()?;
    cancel_each(&mut items);
    Ok(items)
}

/// The items that stand an odd number of times in a list, each once, in strict order. Where they are as many as the
/// list has, none stands twice.
pub fn odd_items<T: Ord + Copy>(alloc: Global, items: &[T]) -> Result<Vec<T>, OutOfMemory>
    ensures odd { IfOk result (λ v. (x : T) → count_of T.cmp x v.items
        ≡ count_of T.cmp x items.now % 2) }
    ensures rising { IfOk result (λ v. IsRising T.cmp v.items) }
    ensures once { IfOk result (λ v. length v.items ≡ length items.now
        → (x : T) → count_of T.cmp x items.now ≤ 1) }
{
    let mut odd = Vec::from_slice(alloc, items)?;
    odd.sort_unstable();
    cancel_each(&mut odd);
    Ok(odd)
}
