//! The edges of a list as they leave their points, in order, and the edges that leave one.
//!
//! The places of departures are searched by ranks of points, and then tested against the points themselves.
ghost use Rattle.std.specs.Prelude.{◌≡◌, ◌<◌, ◌≤◌, ◌-◌, [], All, IfOk, IsPermutation, List, OnOk, false, length, not, slice_index_or, true};
ghost use Rattle.std.specs.Ordering.{is_lt};
ghost use Rattle.osm_geom.specs.declared.edge.Edge.{Edge};
ghost use Rattle.osm_geom.specs.Point.{IsInWorld, point_cmp};
ghost use Rattle.osm_rings.specs.Apart.{LeaveApart};
ghost use Rattle.osm_rings.specs.Departures.{AreClockwiseRound, AreDepartures, AreFrom, AreInTwoLists, AreRising, IsEndAt, IsFirstAt, TellStarts, stands_before};

use crate::departure::Departure;
use crate::keys::guess_first;
use crate::ranks::rank;
use crate::rounds::sort_rounds;
use osm_geom::{Dir, Edge, Point, clockwise, compare_points, order_points};
use std::alloc::{AllocError as OutOfMemory, Global};
use std::cmp::Ordering;
use std::mem;

/// The direction from which the departures round a point are ordered, clockwise.
pub const EAST: Dir = Dir { dx: 1, dy: 0 };

/// The order of departures: by the points that they leave, and round one point clockwise from the east.
fn compare_departures(departure: &Departure, other: &Departure) -> Ordering
    ensures { is_lt result ≡ stands_before departure.now other.now }
{
    match order_points(&departure.edge.from, &other.edge.from) {
        Ordering::Equal => clockwise(EAST, departure.edge.dir(), other.edge.dir()),
        order => order,
    }
}

/// Whether the second doesn't belong before the first.
fn is_in_order(departure: &Departure, next: &Departure) -> bool
    ensures { result ≡ not (stands_before next.now departure.now) }
{
    if departure.leaves_before(next) {
        return true;
    }
    !compare_departures(next, departure).is_lt()
}

/// Whether departures are in order.
fn are_in_order(departures: &[Departure]) -> bool
    ensures rising { result ≡ true → AreRising departures.now }
    ensures round { result ≡ true → AreClockwiseRound departures.now }
{
    departures.is_sorted_by(|departure, next| is_in_order(departure, next))
}

/// The departures in order.
fn sorted<'a>(departures: Vec<Departure<'a>>) -> Result<Vec<Departure<'a>>, OutOfMemory>
    ensures moved { IfOk result (λ v. IsPermutation departures.entry.items v.items) }
    ensures rising { IfOk result (λ v. AreRising v.items) }
    ensures round { IfOk result (λ v. AreClockwiseRound v.items) }
{
    let mut departures = departures;
    departures.sort_by(|departure, other| compare_departures(departure, other))?;
    Ok(departures)
}

/// The departures in order: by their ranks alone, if that is their order, as when no two leave one point.
///
/// Ways: departures that their ranks put in order; those that also need directions round each point; all others by their
/// points.
fn in_order<'a>(departures: Vec<Departure<'a>>) -> Result<Vec<Departure<'a>>, OutOfMemory>
    ensures moved { IfOk result (λ v. IsPermutation departures.entry.items v.items) }
    ensures rising { IfOk result (λ v. AreRising v.items) }
    ensures round { IfOk result (λ v. AreClockwiseRound v.items) }
{
    let mut departures = departures;
    departures.sort_by_key(|departure| departure.key)?;
    if are_in_order(&departures) {
        return Ok(departures);
    }
    sort_rounds(&mut departures);
    if are_in_order(&departures) {
        return Ok(departures);
    }
    sorted(departures)
}

/// Whether an edge runs from its lower end to its upper one.
fn runs_up(edge: &Edge) -> bool {
    order_points(&edge.from, &edge.to).is_lt()
}

/// Lists the departures of edges: those of edges that run up, and the others.
fn list_departures<'a>(
    up: &mut Vec<Departure<'a>>,
    down: &mut Vec<Departure<'a>>,
    edges: &'a [Edge],
) -> Result<(), OutOfMemory>
    requires up { up.old.items ≡ [] }
    requires down { down.old.items ≡ [] }
    ensures { OnOk result (AreInTwoLists edges.now (length edges.now) up.new.items down.new.items) }
{
    up.reserve(edges.len())?;
    down.reserve(edges.len())?;
    for (place, edge) in edges.iter().enumerate() {
        let departure = Departure::of(edge, place);
        if runs_up(edge) {
            up.push(departure)?;
        } else {
            down.push(departure)?;
        }
    }
    Ok(())
}

/// The departures of the edges, in order.
pub fn departures<'a>(alloc: Global, edges: &'a [Edge]) -> Result<Vec<Departure<'a>>, OutOfMemory>
    ensures { IfOk result (λ v. AreDepartures edges.now v.items) }
{
    // The departures of edges that run up are in order if the edges are in order of their lower ends.
    // So half is left to be sorted.
    let mut up = Vec::new(alloc);
    let mut down = Vec::new(alloc);
    list_departures(&mut up, &mut down, edges)?;
    up.append(&mut down)?;
    mem::drop(down);
    in_order(up)
}

/// Whether the departure before a place leaves an earlier point than p, and the one at the place doesn't.
fn parts_before(departures: &[Departure], p: Point, place: usize) -> bool
    requires within { place ≤ length departures.now }
    requires world { IsInWorld p }
    ensures before { result ≡ true → (d : Departure) → 0 < place
        → is_lt (point_cmp (slice_index_or departures.now (place - 1) d).edge.now.from p) ≡ true }
    ensures from { result ≡ true → (d : Departure) → place < length departures.now
        → is_lt (point_cmp (slice_index_or departures.now place d).edge.now.from p) ≡ false }
{
    let rank = rank(&p);
    if place > 0 && !departures[place - 1].begins_before(&p, rank) {
        return false;
    }
    if place < departures.len() && departures[place].begins_before(&p, rank) {
        return false;
    }
    true
}

/// Whether the departures that leave p or a later point begin at a place.
fn is_first_at(departures: &[Departure], p: Point, place: usize) -> bool
    requires rising { AreRising departures.now }
    requires world { IsInWorld p }
    ensures inside { result ≡ true → place ≤ length departures.now }
    ensures first { result ≡ true → IsFirstAt departures.now p place }
{
    if place > departures.len() {
        return false;
    }
    parts_before(departures, p, place)
}

/// How many departures begin before p. If some begin at p, it is the place of the first of these.
///
/// Ways: four places from `near` on by ranks; other places by binary search of the ranks; all others by that of the
/// points.
fn first_at(departures: &[Departure], keys: &[i64], near: usize, p: Point) -> usize
    requires rising { AreRising departures.now }
    requires world { IsInWorld p }
    ensures inside { result ≤ length departures.now }
    ensures first { IsFirstAt departures.now p result }
{
    let guess = guess_first(keys, near, p);
    if is_first_at(departures, p, guess) {
        return guess;
    }
    departures.partition_point(|departure| compare_points(departure.edge.from, p).is_lt())
}

/// Whether the departure at a place leaves a later point than p, and the one before it doesn't.
fn parts_after(departures: &[Departure], p: Point, place: usize) -> bool
    requires within { place ≤ length departures.now }
    requires world { IsInWorld p }
    ensures before { result ≡ true → (d : Departure) → 0 < place
        → is_lt (point_cmp p (slice_index_or departures.now (place - 1) d).edge.now.from) ≡ false }
    ensures from { result ≡ true → (d : Departure) → place < length departures.now
        → is_lt (point_cmp p (slice_index_or departures.now place d).edge.now.from) ≡ true }
{
    let rank = rank(&p);
    if place > 0 && departures[place - 1].begins_after(&p, rank) {
        return false;
    }
    if place < departures.len() && !departures[place].begins_after(&p, rank) {
        return false;
    }
    true
}

/// Whether the departures that leave p or an earlier point end at a place.
fn is_end_at(departures: &[Departure], p: Point, place: usize) -> bool
    requires rising { AreRising departures.now }
    requires world { IsInWorld p }
    ensures inside { result ≡ true → place ≤ length departures.now }
    ensures end { result ≡ true → IsEndAt departures.now p place }
{
    if place > departures.len() {
        return false;
    }
    parts_after(departures, p, place)
}

/// How many departures begin at p or before. Mostly one begins at p, at the place `first`.
fn end_at(departures: &[Departure], p: Point, first: usize) -> usize
    requires rising { AreRising departures.now }
    requires world { IsInWorld p }
    ensures inside { result ≤ length departures.now }
    ensures end { IsEndAt departures.now p result }
{
    let guess = first.saturating_add(1);
    if is_end_at(departures, p, guess) {
        return guess;
    }
    departures.partition_point(|departure| !compare_points(p, departure.edge.from).is_lt())
}

/// Whether each departure leaves a later point than the one before it, so that no two leave one.
pub fn are_apart(departures: &[Departure]) -> bool
    ensures { result ≡ true → (es : List Edge) → AreDepartures es departures.now → LeaveApart es }
{
    departures.is_sorted_by(|departure, next| departure.leaves_before(next))
}

/// The range of places of the departures that begin at p.
fn range_at(departures: &[Departure], keys: &[i64], near: usize, p: Point) -> (usize, usize)
    requires rising { AreRising departures.now }
    requires world { IsInWorld p }
    ensures ordered { result.0 ≤ result.1 }
    ensures inside { result.1 ≤ length departures.now }
    ensures first { IsFirstAt departures.now p result.0 }
    ensures end { IsEndAt departures.now p result.1 }
{
    let first = first_at(departures, keys, near, p);
    (first, end_at(departures, p, first))
}

/// The departures from p, clockwise from the east.
///
/// The search starts at `near`, which is then set to the place after them. It takes longer if they aren't there, or if the
/// keys aren't those of `keys_of`.
pub fn leaving<'a, 'b>(
    departures: &'b [Departure<'a>],
    keys: &[i64],
    near: &mut usize,
    p: Point,
) -> &'b [Departure<'a>]
    requires rising { AreRising departures.now }
    requires round { AreClockwiseRound departures.now }
    requires world { IsInWorld p }
    ensures { AreFrom departures.now p result.now }
{
    let range = range_at(departures, keys, *near, p);
    *near = range.1;
    &departures[range.0..range.1]
}
