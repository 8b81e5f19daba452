//! Orbits of a partial one-to-one map.
ghost use Rattle.std.specs.Prelude.{◌≡◌, ◌<◌, length, All, IfOk, map};
ghost use Rattle.orbits.specs.Marks.{AreChained, begins_orbit, IsOrbitAdded};
ghost use Rattle.orbits.specs.Orbits.{IsOneToOne, AreOrbits, AreOrbitsInOrder};
ghost use Rattle.orbits.specs.OrbitSteps.{IsWholeWalk, AreStarts, AreMarkedAlso};

use std::alloc::{AllocError as OutOfMemory, Global};

/// The orbits of a partial one-to-one map, in which i goes on to j if `next[i]` is `Some(j)`.
///
/// They are in order of their first numbers. An open one begins with the number that nothing goes on to, a closed one with
/// its least. It takes time in proportion to the map. Fails only if memory runs out.
pub fn orbits(alloc: Global, next: &[Option<usize>]) -> Result<Vec<Vec<usize>>, OutOfMemory>
    requires { IsOneToOne next.now }
    ensures orbits { IfOk result (λ v. AreOrbits next.now (map (λ o. o.items) v.items)) }
    ensures order { IfOk result (λ v. AreOrbitsInOrder next.now (map (λ o. o.items) v.items)) }
{
    let starts = starts(alloc, next)?;
    let chained = chained(alloc, next, &starts)?;
    in_order(alloc, next, &starts, &chained)
}

/// For each number whether it is on an open orbit.
fn chained(alloc: Global, next: &[Option<usize>], starts: &[bool]) -> Result<Vec<bool>, OutOfMemory>
    requires map { IsOneToOne next.now }
    requires starts { AreStarts next.now starts.now }
    ensures { IfOk result (λ v. AreChained next.now starts.now (length next.now) v.items) }
{
    let mut chained = vec![in alloc; false; next.len()]?;
    for place in 0..next.len() {
        if starts[place] {
            mark_walk(alloc, next, place, &mut chained)?;
        }
    }
    Ok(chained)
}

/// The orbits. They begin at the starts, and at the least numbers of those on no open orbit.
fn in_order(
    alloc: Global,
    next: &[Option<usize>],
    starts: &[bool],
    chained: &[bool],
) -> Result<Vec<Vec<usize>>, OutOfMemory>
    requires map { IsOneToOne next.now }
    requires starts { AreStarts next.now starts.now }
    requires chained { AreChained next.now starts.now (length next.now) chained.now }
    ensures orbits { IfOk result (λ v. AreOrbits next.now (map (λ o. o.items) v.items)) }
    ensures order { IfOk result (λ v. AreOrbitsInOrder next.now (map (λ o. o.items) v.items)) }
{
    let mut seen = vec![in alloc; false; next.len()]?;
    let mut orbits = Vec::new(alloc);
    for place in 0..next.len() {
        // A number on no open orbit is on a closed one, and the first number met there is its least.
        if is_first(starts, chained, &seen, place) {
            add_orbit(alloc, next, place, &mut seen, &mut orbits)?;
        }
    }
    Ok(orbits)
}

/// Whether an unseen orbit begins at this place.
fn is_first(starts: &[bool], chained: &[bool], seen: &[bool], place: usize) -> bool
    requires starts { place < length starts.now }
    requires chained { place < length chained.now }
    requires seen { place < length seen.now }
    ensures { result ≡ begins_orbit starts.now chained.now seen.now place }
{
    starts[place] || !chained[place] && !seen[place]
}

/// Adds the orbit from `from` on, and marks it as seen.
fn add_orbit(
    alloc: Global,
    next: &[Option<usize>],
    from: usize,
    seen: &mut [bool],
    orbits: &mut Vec<Vec<usize>>,
) -> Result<(), OutOfMemory>
    requires map { IsOneToOne next.now }
    requires inside { from < length next.now }
    requires sized { length seen.old ≡ length next.now }
    ensures { IfOk result (λ u. IsOrbitAdded next.now from seen.old seen.new
        (map (λ o. o.items) orbits.old.items) (map (λ o. o.items) orbits.new.items)) }
{
    orbits.push(mark_walk(alloc, next, from, seen)?)?;
    Ok(())
}

/// The numbers from `from` on, as [`walk`] gives them. They are marked too.
fn mark_walk(
    alloc: Global,
    next: &[Option<usize>],
    from: usize,
    marks: &mut [bool],
) -> Result<Vec<usize>, OutOfMemory>
    requires map { IsOneToOne next.now }
    requires inside { from < length next.now }
    requires sized { length marks.old ≡ length next.now }
    ensures whole { IfOk result (λ v. IsWholeWalk next.now from v.items) }
    ensures also { IfOk result (λ v. AreMarkedAlso marks.old v.items marks.new) }
{
    let orbit = walk(alloc, next, from)?;
    mark(marks, &orbit);
    Ok(orbit)
}

/// For each number whether nothing goes on to it.
fn starts(alloc: Global, next: &[Option<usize>]) -> Result<Vec<bool>, OutOfMemory>
    requires { IsOneToOne next.now }
    ensures { IfOk result (λ v. AreStarts next.now v.items) }
{
    let mut starts = vec![in alloc; true; next.len()]?;
    for &after in next {
        if let Some(place) = after {
            starts[place] = false;
        }
    }
    Ok(starts)
}

/// The numbers from `from` on, each going on to the one after it, up to where they end or close.
fn walk(alloc: Global, next: &[Option<usize>], from: usize) -> Result<Vec<usize>, OutOfMemory>
    requires map { IsOneToOne next.now }
    requires inside { from < length next.now }
    ensures { IfOk result (λ v. IsWholeWalk next.now from v.items) }
{
    let mut walk = Vec::new(alloc);
    walk.push(from)?;
    let mut place = from;
    while let Some(after) = next[place] {
        if after == from {
            return Ok(walk);
        }
        walk.push(after)?;
        place = after;
    }
    Ok(walk)
}

/// Marks these places too.
fn mark(marks: &mut [bool], places: &[usize])
    requires { All (λ i. i < length marks.old) places.now }
    ensures { AreMarkedAlso marks.old places.now marks.new }
{
    for &place in places {
        marks[place] = true;
    }
}
