//! Lists without repetition, and lists in order, searched by halves.

ghost use Rattle.std.specs.Prelude.{◌≡◌, IfOk};
ghost use Rattle.std.specs.List.{list_any};
ghost use Rattle.std.specs.List.Sorted.{IsSorted};
ghost use Rattle.std.specs.Ordering.{is_eq};
ghost use Rattle.lists.specs.Once.{each_once};

use std::alloc::{AllocError as OutOfMemory, Global};
use std::collections::BTreeSet;

/// Each item of a list once, in the order of their first places.
pub fn each_once<T: Ord + Copy>(alloc: Global, items: &[T]) -> Result<Vec<T>, OutOfMemory>
    ensures { IfOk result (λ v. v.items ≡ each_once T.eq items.now) }
{
    let mut seen = BTreeSet::new(alloc);
    let mut once = Vec::new(alloc);
    for &item in items {
        if seen.insert(item)? {
            once.push(item)?;
        }
    }
    Ok(once)
}

/// Whether an item is among these, which are in order.
pub fn is_among<T: Ord>(sorted: &[T], item: &T) -> bool
    requires { IsSorted T.cmp sorted.now }
    ensures { result ≡ list_any (λ other. is_eq (T.cmp other item.now)) sorted.now }
{
    sorted.binary_search(item).is_ok()
}
