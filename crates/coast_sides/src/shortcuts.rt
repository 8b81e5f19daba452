//! One round of shortcuts: where two steps of a closed line conflict, the fewer of the locations between them are cut out.

ghost use Rattle.std.specs.Prelude.{◌≡◌, ◌||◌, ◌≤◌, ◌<◌, ◌++◌, ◌∷◌, [], ℕ, Bool, if◌then◌else◌, All, IfOk, OnOk, length, replicate};
ghost use Rattle.std.specs.List.{list_any};
ghost use Rattle.std.specs.List.Sorted.{IsSorted};
ghost use Rattle.osm_lattice.specs.declared.loc.Loc.{Loc};
ghost use Rattle.osm_segments.specs.Counts.{AreDistinct};
ghost use Rattle.osm_segments.specs.Places.{AreConflictPlaces, pair_at};
ghost use Rattle.coast_rings.specs.Round.{IsRound, once_round};
ghost use Rattle.coast_sides.specs.declared.steps_along.StepAlong.{StepAlong};
ghost use Rattle.coast_sides.specs.Rounds.{round_cuts};
ghost use Rattle.coast_sides.specs.Segments.{segments_round};
ghost use Rattle.coast_sides.specs.Shortcuts.{marked, remaining, runs, shortened};
ghost use Rattle.coast_sides.specs.ShortcutSteps.{AreReaches, AreStepsAlong, IsCarriedRound, cuts_of, is_reached, places_left, run_to, step_along_cmp, told_cuts_out};

use crate::cut::{Cut, Cuts};
use crate::ring_segments::next_round;
use crate::steps_along::{StepAlong, steps_along};
use crate::stretches::reach_between;
use coast_rings::round_path;
use osm_geom::{Loc, Path, Seg, conflicts_are_symmetric, orders_are_exact};
use osm_segments::{Pair, Places, pair_at};
use std::alloc::{AllocError as OutOfMemory, Global};

/// Reaches what is cut out between steps along the segments of a pair, if there is one.
fn reach_told(reach: &mut [usize], steps: &[StepAlong], told: Option<Pair>)
    requires sorted { IsSorted step_along_cmp steps.now }
    requires inside { All (λ (t : StepAlong). t.place < length reach.old) steps.now }
    ensures { (k : ℕ) → k < length reach.old → is_reached reach.new k
        ≡ (is_reached reach.old k || told_cuts_out (length reach.old) k steps.now told) }
{
    let Some(pair) = told else {
        return;
    };
    reach_between(reach, steps, &pair);
}

/// Reaches what is cut out between steps along the segments of each conflict.
fn reach_all(reach: &mut [usize], steps: &[StepAlong], segs: &[Seg], conflicts: &[Places])
    requires sorted { IsSorted step_along_cmp steps.now }
    requires inside { All (λ (t : StepAlong). t.place < length reach.old) steps.now }
    ensures { (k : ℕ) → k < length reach.old → is_reached reach.new k
        ≡ (is_reached reach.old k || list_any (λ places. told_cuts_out (length reach.old) k
        steps.now (pair_at segs.now places)) conflicts.now) }
{
    for places in conflicts {
        reach_told(reach, steps, pair_at(segs, *places));
    }
}

/// So many numbers 0.
fn zeros(alloc: Global, count: usize) -> Result<Vec<usize>, OutOfMemory>
    ensures { IfOk result (λ v. v.items ≡ replicate count 0) }
{
    vec![in alloc; 0; count]
}

/// How many locations are cut out behind each step of a closed line, at most.
fn reaches_along(
    alloc: Global,
    path: &[Loc],
    steps: &[StepAlong],
    segs: &[Seg],
    conflicts: &[Places],
) -> Result<Vec<usize>, OutOfMemory>
    requires steps { AreStepsAlong path.now steps.now }
    requires distinct { AreDistinct (segments_round path.now) segs.now }
    requires conflicts { AreConflictPlaces segs.now conflicts.now }
    ensures { IfOk result (λ v. AreReaches path.now v.items) }
{
    orders_are_exact();
    conflicts_are_symmetric();
    let mut reach = zeros(alloc, path.len())?;
    reach_all(&mut reach, steps, segs, conflicts);
    Ok(reach)
}

/// The same, where the steps aren't in order of their segments yet.
fn reaches(
    alloc: Global,
    path: &[Loc],
    segs: &[Seg],
    conflicts: &[Places],
) -> Result<Vec<usize>, OutOfMemory>
    requires distinct { AreDistinct (segments_round path.now) segs.now }
    requires conflicts { AreConflictPlaces segs.now conflicts.now }
    ensures { IfOk result (λ v. AreReaches path.now v.items) }
{
    let steps = steps_along(alloc, path)?;
    reaches_along(alloc, path, &steps, segs, conflicts)
}

/// How many locations from the first on are reached behind steps before it.
fn carried(reach: &[usize]) -> usize
    ensures { IsCarriedRound reach.now 0 result }
{
    let mut left = 0usize;
    for &count in reach {
        left = left.saturating_sub(1).max(count);
    }
    left
}

/// The locations of a closed line, each with whether it is reached.
fn marks_along(
    alloc: Global,
    path: &[Loc],
    reach: &[usize],
) -> Result<Vec<(Loc, bool)>, OutOfMemory>
    requires { AreReaches path.now reach.now }
    ensures { IfOk result (λ v. v.items ≡ marked path.now) }
{
    let mut left = carried(reach);
    let mut marks = Vec::with_capacity(alloc, path.len())?;
    for place in 0..path.len() {
        marks.push((path[place], left > 0))?;
        left = left.saturating_sub(1).max(reach[place]);
    }
    Ok(marks)
}

/// The locations of a closed line, each with whether it is cut out.
fn marked(
    alloc: Global,
    path: &[Loc],
    segs: &[Seg],
    conflicts: &[Places],
) -> Result<Vec<(Loc, bool)>, OutOfMemory>
    requires distinct { AreDistinct (segments_round path.now) segs.now }
    requires conflicts { AreConflictPlaces segs.now conflicts.now }
    ensures { IfOk result (λ v. v.items ≡ marked path.now) }
{
    let reach = reaches(alloc, path, segs, conflicts)?;
    marks_along(alloc, path, &reach)
}

/// The locations that remain, in order.
fn remaining(alloc: Global, marks: &[(Loc, bool)]) -> Result<Vec<Loc>, OutOfMemory>
    ensures { IfOk result (λ v. v.items ≡ remaining marks.now) }
{
    marks
        .iter()
        .filter(|mark| !mark.1)
        .map(|mark| mark.0)
        .collect(alloc)
}

/// Adds a place, if its location remains.
fn add_place(left: &mut Vec<usize>, place: usize, remains: bool) -> Result<(), OutOfMemory>
    ensures { OnOk result (left.new.items ≡ left.old.items
        ++ (if remains then place ∷ [] else [])) }
{
    if remains {
        left.push(place)?;
    }
    Ok(())
}

/// The places of the locations that remain, in order.
fn places_left(alloc: Global, marks: &[(Loc, bool)]) -> Result<Vec<usize>, OutOfMemory>
    ensures { IfOk result (λ v. v.items ≡ places_left marks.now) }
{
    let mut left = Vec::new(alloc);
    for (place, mark) in marks.iter().enumerate() {
        add_place(&mut left, place, !mark.1)?;
    }
    Ok(left)
}

/// Adds the run behind a location that remains, if the next one is cut out, where the next that remains stands at `next`.
fn add_run(
    cuts: &mut Cuts,
    ring: i64,
    marks: &[(Loc, bool)],
    place: usize,
    next: usize,
) -> Result<(), OutOfMemory>
    requires place { place < length marks.now }
    requires next { next < length marks.now }
    ensures { (d : Loc × Bool) → OnOk result (cuts.new ≡ cuts.old
        ++ cuts_of ring (run_to d marks.now place next)) }
{
    if marks[next_round(place, marks.len())].1 {
        let from = marks[place].0;
        let to = marks[next].0;
        cuts.push(Cut { ring, from, to })?;
    }
    Ok(())
}

/// Adds the runs that are cut out, the places of the locations that remain being these.
fn add_runs(
    cuts: &mut Cuts,
    ring: i64,
    marks: &[(Loc, bool)],
    left: &[usize],
) -> Result<(), OutOfMemory>
    requires { left.now ≡ places_left marks.now }
    ensures { OnOk result (cuts.new ≡ cuts.old ++ cuts_of ring (runs marks.now)) }
{
    for index in 0..left.len() {
        let next = left[next_round(index, left.len())];
        add_run(cuts, ring, marks, left[index], next)?;
    }
    Ok(())
}

/// Adds the runs that are cut out of a ring.
fn add_cuts(
    alloc: Global,
    cuts: &mut Cuts,
    ring: i64,
    marks: &[(Loc, bool)],
) -> Result<(), OutOfMemory>
    ensures { OnOk result (cuts.new ≡ cuts.old ++ cuts_of ring (runs marks.now)) }
{
    let left = places_left(alloc, marks)?;
    add_runs(cuts, ring, marks, &left)
}

/// The closed line of the locations that remain.
fn line_left(alloc: Global, marks: &[(Loc, bool)]) -> Result<Path, OutOfMemory>
    ensures path { IfOk result (λ path. path ≡ once_round (remaining marks.now)) }
    ensures round { IfOk result (λ path. 2 ≤ length path → IsRound path) }
{
    let left = remaining(alloc, marks)?;
    round_path(alloc, left)
}

/// Adds the runs that are cut out of a ring, and gives the closed line of the locations that remain.
fn cut_marked(
    alloc: Global,
    cuts: &mut Cuts,
    ring: i64,
    marks: &[(Loc, bool)],
) -> Result<Path, OutOfMemory>
    ensures path { IfOk result (λ path. path ≡ once_round (remaining marks.now)) }
    ensures round { IfOk result (λ path. 2 ≤ length path → IsRound path) }
    ensures told { OnOk result (cuts.new ≡ cuts.old ++ cuts_of ring (runs marks.now)) }
{
    add_cuts(alloc, cuts, ring, marks)?;
    line_left(alloc, marks)
}

/// Cuts out of the closed line of a ring what the conflicts among its distinct segments tell.
pub(crate) fn cut_out(
    alloc: Global,
    cuts: &mut Cuts,
    ring: i64,
    path: &[Loc],
    segs: &[Seg],
    conflicts: &[Places],
) -> Result<Path, OutOfMemory>
    requires distinct { AreDistinct (segments_round path.now) segs.now }
    requires conflicts { AreConflictPlaces segs.now conflicts.now }
    ensures path { IfOk result (λ shorter. shorter ≡ shortened path.now) }
    ensures round { IfOk result (λ shorter. 2 ≤ length shorter → IsRound shorter) }
    ensures told { OnOk result (cuts.new ≡ cuts.old ++ round_cuts ring path.now) }
{
    let marks = marked(alloc, path, segs, conflicts)?;
    cut_marked(alloc, cuts, ring, &marks)
}
