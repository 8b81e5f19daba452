//! A list that is long and changes in its middle, kept in chunks.

ghost use Rattle.std.specs.Prelude.{◌≡◌, ◌==◌, ◌<◌, ◌≤◌, List, [], false, filter, insert, length, remove, set, slice_index_or, true, OnErr, OnOk, Bool};
ghost use Rattle.std.specs.List.{flat_map};
ghost use Rattle.std.specs.List.Sorted.{IsPartitionedBy, IsPartitionPoint};
ghost use Rattle.std.specs.Fn.{FnReturnsAt};
ghost use Rattle.chunked_list.specs.Starts.{starts_from};

use crate::chunks::{item, put_in, put_over, take_out};
use crate::searching::{Search, passes};
use crate::starts::Starts;
use std::alloc::{AllocError as OutOfMemory, Global};
use std::marker::Model;

/// A list of items.
#[derive(Drop)]
pub struct ChunkedList<T> {
    alloc: Global,
    chunks: Vec<Vec<T>>,
    /// How many items stand before each chunk.
    starts: Starts,
    len: usize,
    /// The chunk that changed last: places are looked for there first. Only speed rests on it.
    near: usize,
    /// Where an item was last put in or taken out. Only speed rests on it.
    changed: usize,
}

impl<T> Model for ChunkedList<T> {
    ghost Value = { List T };

    ghost view = { λ l. flat_map (λ c. c.items) l.chunks.items };

    ghost invariant = { λ l. (length (flat_map (λ c. c.items) l.chunks.items) ≡ l.len)
        × (l.starts ≡ starts_from (λ c. c.items) 0 l.chunks.items) };
}

impl<T: Copy> ChunkedList<T> {
    /// A list without items.
    pub fn new(alloc: Global) -> Self
        ensures { result ≡ [] }
    {
        ChunkedList {
            alloc,
            chunks: Vec::new(alloc),
            starts: Starts::new(alloc),
            len: 0,
            near: 0,
            changed: 0,
        }
    }

    /// How many items it has.
    pub fn len(&self) -> usize
        ensures { result ≡ length self.now }
    {
        self.len
    }

    /// Whether it has none.
    pub fn is_empty(&self) -> bool
        ensures { result ≡ (length self.now == 0) }
    {
        self.len == 0
    }

    /// The item at a place.
    pub fn get(&self, place: usize) -> T
        requires { place < length self.now }
        ensures { (d : T) → result ≡ slice_index_or self.now place d }
    {
        let inside = place < self.len;
        prove!(inside);
        item(&self.chunks, &self.starts, self.near, place)
    }

    /// Puts an item in before the one at a place, or at the end. The error is out of memory.
    pub fn insert(&mut self, place: usize, item: T) -> Result<(), OutOfMemory>
        requires { place ≤ length self.old }
        ensures inserted { OnOk result (self.new ≡ insert self.old place item) }
        ensures unchanged { OnErr result (self.new ≡ self.old) }
    {
        let Some(len) = self.len.checked_add(1) else {
            return Err(OutOfMemory);
        };
        match put_in(
            self.alloc,
            &mut self.chunks,
            &mut self.starts,
            &mut self.near,
            place,
            item,
        ) {
            Ok(()) => {
                self.len = len;
                self.changed = place;
                Ok(())
            }
            Err(error) => Err(error),
        }
    }

    /// Puts an item in the place of another.
    pub fn set(&mut self, place: usize, item: T)
        requires { place < length self.old }
        ensures { self.new ≡ set self.old place item }
    {
        self.changed = place;
        self.near = put_over(&mut self.chunks, &self.starts, self.near, place, item);
    }

    /// Takes the item at a place out.
    pub fn remove(&mut self, place: usize) -> T
        requires { place < length self.old }
        ensures item { result ≡ slice_index_or self.old place result }
        ensures removed { self.new ≡ remove self.old place }
    {
        self.len -= 1;
        self.changed = place;
        take_out(&mut self.chunks, &mut self.starts, &mut self.near, place)
    }

    /// Where an item was last put in or taken out: a place to begin a search at. Only speed rests on it.
    pub fn last_changed(&self) -> usize {
        self.changed
    }

    /// Where an item was last put in or taken out, and the places next to that: where to look for an item first.
    pub fn places_near_change(&self) -> [usize; 4] {
        let at = self.changed;
        [
            at,
            at.saturating_add(1),
            at.saturating_sub(1),
            at.saturating_add(2),
        ]
    }

    /// Where the items that pass a test end, if those that pass it stand before those that don't. It is looked for first where the
    /// list was changed last.
    ///
    /// The list stays as it is. What is looked at or changed next is looked for first where this ended.
    pub fn partition_point<F: Fn(&T) -> bool>(&mut self, test: F) -> usize
        requires { F.IsAlwaysCallable test }
        ensures kept { self.new ≡ self.old }
        ensures within { result ≤ length self.old }
        ensures point { (p : T → Bool) → ((x : T) (told : Bool) → FnReturnsAt F.Fn test x told
            → told ≡ p x) → IsPartitionedBy p self.old
            → IsPartitionPoint (λ x. p x ≡ true) (λ x. p x ≡ false) self.old result }
    {
        let found = self.search_near(self.changed).point(self.changed, &test);
        self.near = found.chunk;
        found.place
    }

    /// What `partition_point` gives, looked for near a place first.
    pub fn partition_point_near<F: Fn(&T) -> bool>(&self, near: usize, test: F) -> usize
        requires { F.IsAlwaysCallable test }
        ensures within { result ≤ length self.now }
        ensures point { (p : T → Bool) → ((x : T) (told : Bool) → FnReturnsAt F.Fn test x told
            → told ≡ p x) → IsPartitionedBy p self.now
            → IsPartitionPoint (λ x. p x ≡ true) (λ x. p x ≡ false) self.now result }
    {
        self.search_near(near).point(near, &test).place
    }

    /// The items, looked for first near a place.
    fn search_near(&self, near: usize) -> Search<'_, T>
        ensures { result ≡ self.now }
    {
        Search::around(&self.chunks, &self.starts, self.len, self.near, near)
    }

    /// Takes out the items that don't pass a test.
    pub fn retain<F: Fn(&T) -> bool>(&mut self, test: F)
        requires { F.IsAlwaysCallable test }
        ensures { (p : T → Bool) → ((x : T) (told : Bool) → FnReturnsAt F.Fn test x told
            → told ≡ p x) → self.new ≡ filter p self.old }
    {
        let mut place = 0;
        while place < self.len {
            if passes(&test, &self.get(place)) {
                place += 1;
            } else {
                self.remove(place);
            }
        }
    }
}
