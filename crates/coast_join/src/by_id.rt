//! Places of a list in order of id.

ghost use Rattle.std.specs.Prelude.{◌≡◌, IfOk, map};
ghost use Rattle.std.specs.List.{IsDistinct};
ghost use Rattle.std.specs.Ordering.{int_eq};
ghost use Rattle.coast_join.specs.ById.{AreById, ids_with_places};

use std::alloc::{AllocError as OutOfMemory, Global};

/// Each id with its place.
fn ids_with_places(alloc: Global, ids: &[i64]) -> Result<Vec<(i64, usize)>, OutOfMemory>
    ensures { IfOk result (λ v. v.items ≡ ids_with_places ids.now) }
{
    let mut placed = Vec::with_capacity(alloc, ids.len())?;
    for (place, &id) in ids.iter().enumerate() {
        placed.push((id, place))?;
    }
    Ok(placed)
}

/// The places alone.
fn places(alloc: Global, placed: &[(i64, usize)]) -> Result<Vec<usize>, OutOfMemory>
    ensures { IfOk result (λ v. v.items ≡ map (λ p. p.1) placed.now) }
{
    placed.iter().map(|p| p.1).collect(alloc)
}

/// The places of ids in order of these, which differ.
pub fn by_id(alloc: Global, ids: &[i64]) -> Result<Vec<usize>, OutOfMemory>
    requires { IsDistinct int_eq ids.now }
    ensures { IfOk result (λ v. AreById ids.now v.items) }
{
    let mut placed = ids_with_places(alloc, ids)?;
    placed.sort()?;
    places(alloc, &placed)
}
