//! The closed orbits of a map in which each number goes on.
ghost use Rattle.std.specs.Prelude.{◌≡◌, ◌<◌, length, IfOk};
ghost use Rattle.orbits.specs.Along.{AreOrbitsAlong};
ghost use Rattle.orbits.specs.OrbitSteps.{IsPassed};
ghost use Rattle.orbits.specs.Orbits.{IsOneToOne, total_map};

use std::alloc::{AllocError as OutOfMemory, Global};

/// Closed walks one after the other.
#[derive(Drop)]
pub struct ClosedWalks {
    /// The numbers that they pass.
    pub places: Vec<usize>,
    /// How many each of them passes.
    pub sizes: Vec<usize>,
}

/// The orbits of a one-to-one map in which i goes on to `next[i]`, so that all orbits are closed.
///
/// They are in order of their first numbers, and each begins with its least. It takes time in proportion to the map, and
/// makes no list for each orbit. Fails only if memory runs out.
pub fn cycles(alloc: Global, next: &[usize]) -> Result<ClosedWalks, OutOfMemory>
    requires { IsOneToOne (total_map next.now) }
    ensures { IfOk result (λ v. AreOrbitsAlong (total_map next.now) v.places.items v.sizes.items) }
{
    let mut passed = vec![in alloc; false; next.len()]?;
    let mut places = Vec::with_capacity(alloc, next.len())?;
    let mut sizes = Vec::new(alloc);
    for place in 0..next.len() {
        if !passed[place] {
            let size = pass(next, place, &mut passed, &mut places)?;
            sizes.push(size)?;
        }
    }
    Ok(ClosedWalks { places, sizes })
}

/// Passes the numbers from `from` on, each going on to the one after it, up to where they close.
///
/// It marks them and gives how many there are.
fn pass(
    next: &[usize],
    from: usize,
    passed: &mut [bool],
    places: &mut Vec<usize>,
) -> Result<usize, OutOfMemory>
    requires map { IsOneToOne (total_map next.now) }
    requires inside { from < length next.now }
    requires sized { length passed.old ≡ length next.now }
    ensures { IfOk result (λ size. IsPassed (total_map next.now) from size places.old.items
        places.new.items passed.old passed.new) }
{
    let done = places.len();
    places.push(from)?;
    passed[from] = true;
    let mut place = from;
    while next[place] != from {
        place = next[place];
        places.push(place)?;
        passed[place] = true;
    }
    Ok(places.len() - done)
}
