//! All objects except the plain nodes, in input order, found by kind and id.

ghost use Rattle.std.specs.Prelude.{◌≡◌, ◌+◌, ◌≤◌, ◌++◌, ◌∷◌, [], ℕ, take, None, true, false, Contains, All, IfSome, IfNone, MatchOption, OnOk, OnErr, find, length, ◌<◌};
ghost use Rattle.std.specs.List.{AllWithin, HoldsAt};
ghost use Rattle.std.specs.List.Sorted.{IsSortedByKey};
ghost use Rattle.std.specs.BTreeMap.{get};
ghost use Rattle.osm_objects.specs.declared.held.Placed.{Placed};
ghost use Rattle.osm_objects.specs.Others.{ref_held, is_held_at, ref_cmp, TellPlaces};

use crate::growing::push_last;
use crate::held::Placed;
use osm_elements::ObjectRef;
use std::alloc::{AllocError as OutOfMemory, Global};
use std::collections::BTreeMap;
use std::marker::Model;

/// Objects in input order.
///
/// The first of them came by rising kind and id, as all do in a sorted input, and are found by binary search. A map has the
/// places of the others. So a look-up takes few steps whatever the ids are.
#[derive(Drop)]
pub(crate) struct Others {
    list: Vec<Placed>,
    // How many of them, from the first on, came by rising kind and id.
    in_order: usize,
    // The places of the later ones in the list.
    places: BTreeMap<ObjectRef, usize>,
}

impl Model for Others {
    ghost use Rattle.std.specs.Prelude.{◌≤◌, List, length, take};
    ghost use Rattle.std.specs.BTreeMap.{get};
    ghost use Rattle.std.specs.List.Sorted.{IsSortedByKey};
    ghost use Rattle.osm_objects.specs.declared.held.Placed.{Placed};
    ghost use Rattle.osm_objects.specs.Others.{ref_held, ref_cmp, TellPlaces};

    ghost Value = { List Placed };

    ghost view = { λ o. o.list.items };

    ghost invariant = { λ o. (o.in_order ≤ length o.list.items)
        × IsSortedByKey ref_held ref_cmp (take o.in_order o.list.items)
        × TellPlaces (get ref_cmp o.places) o.in_order o.list.items };
}

/// Whether the kind and id are above those of all of these, like those of an object that comes in order.
fn lies_above(sorted: &[Placed], of: ObjectRef) -> bool
    requires { IsSortedByKey ref_held ref_cmp sorted.now }
    ensures rises { result ≡ true
        → (placed : Placed)
        → ref_held placed ≡ of
        → IsSortedByKey ref_held ref_cmp (sorted.now ++ placed ∷ []) }
    ensures none { result ≡ true → All (λ placed. is_held_at of placed ≡ false) sorted.now }
{
    match sorted.last() {
        Some(last) => last.is_below(of),
        None => true,
    }
}

/// Whether all of these came in order, and an object of this kind and id does so, too.
fn go_on(list: &[Placed], in_order: usize, of: ObjectRef) -> bool
    requires within { in_order ≤ length list.now }
    requires sorted { IsSortedByKey ref_held ref_cmp (take in_order list.now) }
    ensures { result ≡ true
        → (placed : Placed)
        → ref_held placed ≡ of
        → (in_order ≡ length list.now)
        × IsSortedByKey ref_held ref_cmp (take (in_order + 1) (list.now ++ placed ∷ [])) }
{
    let (sorted, behind) = list.split_at(in_order);
    behind.is_empty() && lies_above(sorted, of)
}

/// The place that this kind and id would have if the ids of each kind followed one another. Only the speed of the search depends
/// on it.
fn likely_place(sorted: &[Placed], of: ObjectRef) -> usize {
    let (Some(first), Some(last)) = (sorted.first(), sorted.last()) else {
        return 0;
    };
    let (first, last) = (first.of(), last.of());
    if of.kind == first.kind {
        return of.id.wrapping_sub(first.id).unsigned_abs() as usize;
    }
    let behind = last.id.wrapping_sub(of.id).unsigned_abs() as usize;
    sorted.len().wrapping_sub(behind).wrapping_sub(1)
}

/// Whether the object of this kind and id is at a place.
fn is_there(sorted: &[Placed], place: usize, of: ObjectRef) -> bool
    ensures inside { result ≡ true → place < length sorted.now }
    ensures at { result ≡ true
        → HoldsAt (λ placed. is_held_at of placed ≡ true) sorted.now place }
{
    place < sorted.len() && sorted[place].is_at(of)
}

/// The place of this kind and id among objects in order.
///
/// Ways: above all of them; where they are if the ids of each kind follow one another; all others by binary search.
fn place_of(sorted: &[Placed], of: ObjectRef) -> Option<usize>
    requires { IsSortedByKey ref_held ref_cmp sorted.now }
    ensures { MatchOption result
        (All (λ placed. is_held_at of placed ≡ false) sorted.now)
        (λ place. (place < length sorted.now)
        × HoldsAt (λ placed. is_held_at of placed ≡ true) sorted.now place) }
{
    if lies_above(sorted, of) {
        return None;
    }
    let likely = likely_place(sorted, of);
    if is_there(sorted, likely, of) {
        return Some(likely);
    }
    sorted.binary_search_by_key(&of, |placed| placed.of()).ok()
}

/// The object of this kind and id, if the map has its place. The map may also have a place without such an object.
fn told<'a>(
    list: &'a [Placed],
    places: &BTreeMap<ObjectRef, usize>,
    of: ObjectRef,
) -> Option<&'a Placed>
    ensures some { IfSome result (λ placed. (is_held_at of placed.now ≡ true)
        × Contains list.now placed.now) }
    ensures none { IfNone result ((from : ℕ)
        → TellPlaces (get ref_cmp places.now) from list.now
        → AllWithin (λ placed. is_held_at of placed ≡ false) list.now from (length list.now)) }
{
    let placed = list.get(*places.get(&of)?)?;
    if placed.is_at(of) {
        return Some(placed);
    }
    None
}

impl Others {
    /// No objects. They take no memory.
    pub(crate) fn new(alloc: Global) -> Others
        ensures { result ≡ [] }
    {
        Others {
            list: Vec::new(alloc),
            in_order: 0,
            places: BTreeMap::new(alloc),
        }
    }

    /// The objects, in input order.
    pub(crate) fn as_slice(&self) -> &[Placed]
        ensures { result.now ≡ self.now }
    {
        self.list.as_slice()
    }

    /// Adds an object at the end. After an `Err` nothing is added.
    pub(crate) fn push(&mut self, placed: Placed) -> Result<(), OutOfMemory>
        requires { find (is_held_at (ref_held placed)) self.old ≡ None }
        ensures ok { OnOk result (self.new ≡ self.old ++ placed ∷ []) }
        ensures err { OnErr result (self.new ≡ self.old) }
    {
        let of = placed.of();
        if go_on(self.list.as_slice(), self.in_order, of) {
            push_last(&mut self.list, placed)?;
            self.in_order += 1;
            return Ok(());
        }
        // If memory runs out for the object after that, the map has a place at which there is no object of this kind and id.
        match self.places.insert(of, self.list.len()) {
            Ok(_) => push_last(&mut self.list, placed),
            Err(_) => Err(OutOfMemory),
        }
    }

    /// The object of this kind and id.
    ///
    /// Ways: those that came in order by binary search; all others by the map.
    pub(crate) fn find(&self, of: ObjectRef) -> Option<&Placed>
        ensures some { IfSome result (λ placed. (is_held_at of placed.now ≡ true)
            × Contains self.now placed.now) }
        ensures none { IfNone result (find (is_held_at of) self.now ≡ None) }
    {
        let list = self.list.as_slice();
        match place_of(list.split_at(self.in_order).0, of) {
            Some(place) => list.get(place),
            None => told(list, &self.places, of),
        }
    }
}
