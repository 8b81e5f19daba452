//! Whether names of ways are all different.

ghost use Rattle.std.specs.Prelude.{◌≡◌, true, IfOk};
ghost use Rattle.osm_area.specs.Names.{differ};

use lists::odd_items;
use std::alloc::{AllocError as OutOfMemory, Global};

/// So many names are compared each with each other; more are sorted.
const FEW: usize = 8;

/// Whether no two of these names are the same.
fn differ(names: &[i64]) -> bool
    ensures { result ≡ differ names.now }
{
    let mut rest = names;
    while let [first, behind @ ..] = rest {
        if behind.contains(first) {
            return false;
        }
        rest = behind;
    }
    true
}

/// Whether no two of these names are the same.
///
/// Ways: up to 8 names by pairs; all others by a sorted copy.
pub fn all_differ(alloc: Global, names: &[i64]) -> Result<bool, OutOfMemory>
    ensures { IfOk result (λ all. all ≡ true → differ names.now ≡ true) }
{
    if names.len() <= FEW {
        return Ok(differ(names));
    }
    let odd = odd_items(alloc, names)?;
    Ok(odd.len() == names.len())
}
