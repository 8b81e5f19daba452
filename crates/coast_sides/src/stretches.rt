//! Stretches of locations behind steps of a closed line: how far what is cut out behind each step reaches.

ghost use Rattle.std.specs.Prelude.{◌≡◌, ◌||◌, ◌<◌, ◌^◌, ℕ, All, Contains, MatchOption, length};
ghost use Rattle.std.specs.List.{list_any};
ghost use Rattle.std.specs.List.Sorted.{IsNonDecreasingBy, IsSorted};
ghost use Rattle.coast_sides.specs.declared.steps_along.StepAlong.{StepAlong};
ghost use Rattle.coast_sides.specs.ShortcutSteps.{IsFarthest, IsFirstPlaceFrom, IsLastPlaceUpTo, IsShorter, ahead, is_reached, is_on_stretch, lies_between, pair_cuts_out, place_before, step_along_cmp};

use crate::steps_along::{StepAlong, along};
use osm_geom::orders_are_exact;
use osm_segments::Pair;

/// Reaches at least so many locations behind a step.
fn raise(reach: &mut [usize], from: usize, count: usize)
    requires { from < length reach.old }
    ensures { (k : ℕ) → is_reached reach.new k
        ≡ (is_reached reach.old k || is_on_stretch (length reach.old) from count k) }
{
    if reach[from] < count {
        reach[from] = count;
    }
}

/// The last place of steps up to a limit.
fn last_up_to(steps: &[StepAlong], limit: usize) -> Option<usize>
    requires { IsNonDecreasingBy (λ (t : StepAlong). t.place) steps.now }
    ensures { MatchOption result ((t : StepAlong) → Contains steps.now t → limit < t.place)
        (IsLastPlaceUpTo steps.now limit) }
{
    let count = steps.partition_point(|step| step.place <= limit);
    if count == 0 {
        return None;
    }
    Some(steps[count - 1].place)
}

/// The first place of steps from a limit on.
fn first_from(steps: &[StepAlong], limit: usize) -> Option<usize>
    requires { IsNonDecreasingBy (λ (t : StepAlong). t.place) steps.now }
    ensures { MatchOption result ((t : StepAlong) → Contains steps.now t → t.place < limit)
        (IsFirstPlaceFrom steps.now limit) }
{
    let count = steps.partition_point(|step| step.place < limit);
    if count == steps.len() {
        return None;
    }
    Some(steps[count].place)
}

/// How far the farthest is of those ahead of a step that come before it in the line, and that have the fewer locations between.
fn ahead_round(places: usize, at: usize, others: &[StepAlong]) -> Option<usize>
    requires at { at < places }
    requires fits { places < 2 ^ 62 }
    requires rise { IsNonDecreasingBy (λ (t : StepAlong). t.place) others.now }
    requires inside { All (λ (t : StepAlong). t.place < places) others.now }
    ensures { MatchOption result
        ((t : StepAlong) → Contains others.now t → IsShorter places at t.place → at < t.place)
        (IsFarthest (IsShorter places at) (ahead places at) others.now) }
{
    let limit = at + (places - 1) / 2;
    if limit < places {
        return None;
    }
    let Some(place) = last_up_to(others, limit - places) else {
        return None;
    };
    Some(place + places - at)
}

/// How far the farthest is of those ahead of a step that have the fewer locations between; 0 where there is none.
fn farthest_ahead(places: usize, at: usize, others: &[StepAlong]) -> usize
    requires at { at < places }
    requires fits { places < 2 ^ 62 }
    requires rise { IsNonDecreasingBy (λ (t : StepAlong). t.place) others.now }
    requires inside { All (λ (t : StepAlong). t.place < places) others.now }
    ensures { IsFarthest (IsShorter places at) (ahead places at) others.now result }
{
    if let Some(far) = ahead_round(places, at, others) {
        return far;
    }
    match last_up_to(others, at + places / 2) {
        Some(place) if place > at => place - at,
        _ => 0,
    }
}

/// How far the farthest is of those behind a step that come after it in the line, and that have the fewer locations between.
fn behind_round(places: usize, at: usize, others: &[StepAlong]) -> Option<usize>
    requires at { at < places }
    requires fits { places < 2 ^ 62 }
    requires rise { IsNonDecreasingBy (λ (t : StepAlong). t.place) others.now }
    requires inside { All (λ (t : StepAlong). t.place < places) others.now }
    ensures { MatchOption result
        ((t : StepAlong) → Contains others.now t → IsShorter places t.place at → t.place < at)
        (IsFarthest (λ place. IsShorter places place at) (λ place. ahead places place at)
        others.now) }
{
    let Some(place) = first_from(others, at + places - (places - 1) / 2) else {
        return None;
    };
    Some(at + places - place)
}

/// How far the farthest is of those behind a step that have the fewer locations between; 0 where there is none.
fn farthest_behind(places: usize, at: usize, others: &[StepAlong]) -> usize
    requires at { at < places }
    requires fits { places < 2 ^ 62 }
    requires rise { IsNonDecreasingBy (λ (t : StepAlong). t.place) others.now }
    requires inside { All (λ (t : StepAlong). t.place < places) others.now }
    ensures { IsFarthest (λ place. IsShorter places place at) (λ place. ahead places place at)
        others.now result }
{
    if let Some(far) = behind_round(places, at, others) {
        return far;
    }
    match first_from(others, at.saturating_sub(places / 2)) {
        Some(place) if place < at => at - place,
        _ => 0,
    }
}

/// The place so many before another, going round.
fn place_before(places: usize, at: usize, count: usize) -> usize
    requires at { at < places }
    requires fits { places < 2 ^ 62 }
    requires count { count < places }
    ensures value { result ≡ place_before places at count }
    ensures inside { result < places }
{
    if count <= at {
        at - count
    } else {
        at + places - count
    }
}

/// Reaches what is cut out between a step and others.
fn reach_from(reach: &mut [usize], at: usize, others: &[StepAlong])
    requires at { at < length reach.old }
    requires rise { IsNonDecreasingBy (λ (t : StepAlong). t.place) others.now }
    requires inside { All (λ (t : StepAlong). t.place < length reach.old) others.now }
    ensures { (k : ℕ) → k < length reach.old → is_reached reach.new k
        ≡ (is_reached reach.old k
        || list_any (λ t. lies_between (length reach.old) at t.place k) others.now) }
{
    let places = reach.len();
    let far = farthest_ahead(places, at, others);
    raise(reach, at, far);
    let behind = farthest_behind(places, at, others);
    let from = place_before(places, at, behind);
    raise(reach, from, behind);
}

/// Reaches what is cut out between steps and others.
fn reach_over(reach: &mut [usize], steps: &[StepAlong], others: &[StepAlong])
    requires steps { All (λ (t : StepAlong). t.place < length reach.old) steps.now }
    requires rise { IsNonDecreasingBy (λ (t : StepAlong). t.place) others.now }
    requires inside { All (λ (t : StepAlong). t.place < length reach.old) others.now }
    ensures { (k : ℕ) → k < length reach.old → is_reached reach.new k
        ≡ (is_reached reach.old k || list_any (λ s. list_any
        (λ t. lies_between (length reach.old) s.place t.place k) others.now) steps.now) }
{
    for step in steps {
        reach_from(reach, step.place, others);
    }
}

/// Reaches what is cut out between the steps along the segments of a pair. The fewer of them are looked at one by one.
pub(crate) fn reach_between(reach: &mut [usize], steps: &[StepAlong], pair: &Pair)
    requires sorted { IsSorted step_along_cmp steps.now }
    requires inside { All (λ (t : StepAlong). t.place < length reach.old) steps.now }
    ensures { (k : ℕ) → k < length reach.old → is_reached reach.new k
        ≡ (is_reached reach.old k || pair_cuts_out (length reach.old) k steps.now pair.now) }
{
    orders_are_exact();
    let first = along(steps, pair.first);
    let second = along(steps, pair.second);
    if first.len() <= second.len() {
        reach_over(reach, first, second);
    } else {
        reach_over(reach, second, first);
    }
}
