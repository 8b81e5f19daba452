//! Lines without equal neighbours.

ghost use Rattle.std.specs.Prelude.{◌≡◌, ◌≤◌, IfOk, length};
ghost use Rattle.coast_rings.specs.Round.{IsRound, is_same_location, once, once_round, opened};

use osm_geom::{Loc, Path, orders_are_exact};
use std::alloc::{AllocError as OutOfMemory, Global};

/// Whether two locations are one.
fn is_same_location(p: Loc, q: Loc) -> bool
    ensures { result ≡ is_same_location p q }
{
    p == q
}

/// The path of locations.
fn path_of(alloc: Global, locs: &[Loc]) -> Result<Path, OutOfMemory>
    ensures { IfOk result (λ path. path ≡ locs.now) }
{
    let mut path = Path::new(alloc);
    for &loc in locs {
        path.push(loc)?;
    }
    Ok(path)
}

/// Equal neighbours taken once.
fn once(mut locs: Vec<Loc>) -> Vec<Loc>
    ensures { result.items ≡ once locs.items }
{
    locs.dedup();
    locs
}

/// Without the last location, where it is the first again.
fn opened(locs: &[Loc]) -> &[Loc]
    ensures { result.now ≡ opened locs.now }
{
    if locs.is_empty() {
        return locs;
    }
    let end = locs.len() - 1;
    if is_same_location(locs[end], locs[0]) {
        &locs[..end]
    } else {
        locs
    }
}

/// The line of locations with equal neighbours taken once.
pub fn once_path(locs: Vec<Loc>) -> Path
    ensures { result ≡ once locs.items }
{
    Path::from_vec(once(locs))
}

/// The closed line of locations with equal neighbours taken once, the last and the first included. Where at least two are left, it doesn't
/// end where it starts. Fails only if memory runs out.
pub fn round_path(alloc: Global, locs: Vec<Loc>) -> Result<Path, OutOfMemory>
    ensures path { IfOk result (λ path. path ≡ once_round locs.items) }
    ensures round { IfOk result (λ path. 2 ≤ length path → IsRound path) }
{
    orders_are_exact();
    let line = once(locs);
    path_of(alloc, opened(&line))
}
