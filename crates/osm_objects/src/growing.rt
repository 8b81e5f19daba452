//! Lists that may hold most of an input.

ghost use Rattle.std.specs.Prelude.{◌≡◌, ◌++◌, ◌∷◌, [], OnOk, OnErr};

use std::alloc::AllocError as OutOfMemory;

/// The least number of items by which the room of a list grows.
const LEAST_STEP: usize = 64;

/// Adds an item at the end. After an `Err` the list is unchanged. Its room grows by an eighth.
pub(crate) fn push_last<T: Drop>(list: &mut Vec<T>, item: T) -> Result<(), OutOfMemory>
    ensures ok { OnOk result (list.new.items ≡ list.old.items ++ item ∷ []) }
    ensures err { OnErr result (list.new.items ≡ list.old.items) }
{
    if list.len() == list.capacity() {
        list.reserve_exact(list.len() / 8 + LEAST_STEP)?;
    }
    list.push(item)?;
    Ok(())
}
