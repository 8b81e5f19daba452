//! Steps of a closed line, by the segments along which they run.

ghost use Rattle.std.specs.Prelude.{◌≡◌, ◌-◌, ◌≤◌, ◌++◌, ◌∷◌, [], IfOk, OnOk, drop, length, take};
ghost use Rattle.std.specs.Option.{option_to_list};
ghost use Rattle.std.specs.List.Sorted.{IsSorted};
ghost use Rattle.std.specs.Ordering.{is_le, is_lt};
ghost use Rattle.osm_lattice.specs.Seg.{seg_cmp};
ghost use Rattle.coast_sides.specs.ShortcutSteps.{AreAlong, AreStepsAlong, step_along, step_along_cmp, steps_along};

use crate::ring_segments::next_round;
use osm_geom::{Loc, Seg, orders_are_exact};
use std::alloc::{AllocError as OutOfMemory, Global};

/// A step along a segment, and its place.
#[derive(Clone, Copy, Debug, PartialEq, Eq, PartialOrd, Ord)]
pub struct StepAlong {
    pub seg: Seg,
    pub place: usize,
}

/// Adds a step, if it runs along a segment.
fn add_step_along(
    steps: &mut Vec<StepAlong>,
    place: usize,
    from: Loc,
    to: Loc,
) -> Result<(), OutOfMemory>
    ensures { OnOk result (steps.new.items ≡ steps.old.items
        ++ option_to_list (step_along (place, (from, to)))) }
{
    if let Some(seg) = Seg::new(from, to) {
        steps.push(StepAlong { seg, place })?;
    }
    Ok(())
}

/// The steps of a closed line that run along segments, in order of places.
fn steps_in_order(alloc: Global, path: &[Loc]) -> Result<Vec<StepAlong>, OutOfMemory>
    ensures { IfOk result (λ v. v.items ≡ steps_along path.now) }
{
    let mut steps = Vec::with_capacity(alloc, path.len())?;
    for place in 0..path.len() {
        let next = next_round(place, path.len());
        add_step_along(&mut steps, place, path[place], path[next])?;
    }
    Ok(steps)
}

/// The steps of a closed line that run along segments, in order of segments and then of places.
pub(crate) fn steps_along(alloc: Global, path: &[Loc]) -> Result<Vec<StepAlong>, OutOfMemory>
    ensures { IfOk result (λ v. AreStepsAlong path.now v.items) }
{
    let mut steps = steps_in_order(alloc, path)?;
    steps.sort_unstable();
    Ok(steps)
}

/// The steps from one place up to another.
fn part(steps: &[StepAlong], from: usize, end: usize) -> &[StepAlong]
    requires order { from ≤ end }
    requires inside { end ≤ length steps.now }
    ensures { result.now ≡ take (end - from) (drop from steps.now) }
{
    &steps[from..end]
}

/// Whether a step runs along a lesser segment.
fn is_below(step: &StepAlong, seg: Seg) -> bool
    ensures { result ≡ is_lt (seg_cmp step.now.seg seg) }
{
    step.seg < seg
}

/// Whether a step runs along a segment or a lesser one.
fn is_up_to(step: &StepAlong, seg: Seg) -> bool
    ensures { result ≡ is_le (seg_cmp step.now.seg seg) }
{
    step.seg <= seg
}

/// The steps along one segment, in order of places.
pub(crate) fn along(steps: &[StepAlong], seg: Seg) -> &[StepAlong]
    requires { IsSorted step_along_cmp steps.now }
    ensures { AreAlong steps.now seg result.now }
{
    orders_are_exact();
    let from = steps.partition_point(|step| is_below(step, seg));
    let end = steps.partition_point(|step| is_up_to(step, seg));
    part(steps, from, end)
}
