//! Where the items of a list that pass a test end.
ghost use Rattle.std.specs.Prelude.{IfSome, ◌+◌, ◌^◌, ◌≡◌, ◌<◌, ◌≤◌, ◌-◌, List, false, length, slice_index_or, true, Bool};
ghost use Rattle.std.specs.List.{flat_map};
ghost use Rattle.std.specs.List.Sorted.{IsPartitionedBy, IsPartitionPoint};
ghost use Rattle.std.specs.Fn.{FnReturnsAt};
ghost use Rattle.chunked_list.specs.Parted.{IsParted};
ghost use Rattle.chunked_list.specs.Starts.{starts_from};

use crate::chunks::{item_from, start_near};
use crate::ends::end_of;
use crate::starts::Starts;
use std::marker::Model;

/// How many steps from a place are tried before all items are searched.
const STEPS: usize = 4;

/// Where a search ended.
#[derive(Clone, Copy)]
pub(crate) struct Found {
    pub(crate) place: usize,
    /// The chunk in which the place seems to be. Only speed rests on it.
    pub(crate) chunk: usize,
}

/// The items of a list in chunks, and the chunk in which they are looked for first.
#[derive(Drop)]
pub(crate) struct Search<'a, T> {
    chunks: &'a [Vec<T>],
    /// How many items stand before each chunk.
    starts: &'a Starts,
    len: usize,
    /// The chunk looked at first. Only speed rests on it.
    near: usize,
    /// How many items stand before that chunk.
    start: usize,
}

impl<'a, T> Model for Search<'a, T> {
    ghost Value = { List T };

    ghost view = { λ s. flat_map (λ c. c.items) s.chunks.now };

    ghost invariant = { λ s. (length (flat_map (λ c. c.items) s.chunks.now) ≡ s.len)
        × (s.starts.now ≡ starts_from (λ c. c.items) 0 s.chunks.now)
        × (s.near < length s.chunks.now → s.start ≡ slice_index_or s.starts.now s.near 0) };
}

impl<'a, T: Copy> Search<'a, T> {
    /// So many items, looked for first in the chunk `near`.
    pub(crate) fn new(
        chunks: &'a [Vec<T>],
        starts: &'a Starts,
        len: usize,
        near: usize,
    ) -> Search<'a, T>
        requires len { length (flat_map (λ c. c.items) chunks.now) ≡ len }
        requires starts { starts.now ≡ starts_from (λ c. c.items) 0 chunks.now }
        ensures { result ≡ flat_map (λ c. c.items) chunks.now }
    {
        let start = start_near(chunks, starts, near);
        Search {
            chunks,
            starts,
            len,
            near,
            start,
        }
    }

    /// So many items, looked for first in the chunk where `count` of them end, which is looked for in the chunk `near` first.
    pub(crate) fn around(
        chunks: &'a [Vec<T>],
        starts: &'a Starts,
        len: usize,
        near: usize,
        count: usize,
    ) -> Search<'a, T>
        requires len { length (flat_map (λ c. c.items) chunks.now) ≡ len }
        requires starts { starts.now ≡ starts_from (λ c. c.items) 0 chunks.now }
        ensures { result ≡ flat_map (λ c. c.items) chunks.now }
    {
        let count = count.min(len);
        if count == 0 {
            return Search::new(chunks, starts, len, near);
        }
        let end = end_of(chunks, starts, near, count);
        Search::new(chunks, starts, len, end.chunk)
    }

    /// The item at a place.
    fn get(&self, place: usize) -> T
        requires { place < length self.now }
        ensures { (d : T) → result ≡ slice_index_or self.now place d }
    {
        let inside = place < self.len;
        prove!(inside);
        item_from(self.chunks, self.starts, self.near, self.start, place)
    }

    /// Where the items that pass end, looked for near a place first.
    ///
    /// Ways: up to four steps from the place; the chunk in which the end seems to lie; all others by halves.
    pub(crate) fn point<F: Fn(&T) -> bool>(&self, near: usize, test: &F) -> Found
        requires { F.IsAlwaysCallable test.now }
        ensures within { result.place ≤ length self.now }
        ensures point { (p : T → Bool) → ((x : T) (told : Bool) → FnReturnsAt F.Fn test.now x told
            → told ≡ p x) → IsPartitionedBy p self.now
            → IsPartitionPoint (λ x. p x ≡ true) (λ x. p x ≡ false) self.now result.place }
    {
        match self.point_close_to(near, test) {
            Some(place) => self.found_at(place),
            None => self.point_anywhere(test),
        }
    }

    /// A place, found in the chunk that is looked at first.
    fn found_at(&self, place: usize) -> Found
        ensures { result.place ≡ place }
    {
        Found {
            place,
            chunk: self.near,
        }
    }

    /// The place where the items that pass end, if it is few steps from another.
    fn point_close_to<F: Fn(&T) -> bool>(&self, near: usize, test: &F) -> Option<usize>
        requires { F.IsAlwaysCallable test.now }
        ensures within { IfSome result (λ place. place ≤ length self.now) }
        ensures point { IfSome result (λ place. (p : T → Bool)
            → ((x : T) (told : Bool) → FnReturnsAt F.Fn test.now x told → told ≡ p x)
            → IsParted p self.now place) }
    {
        if near > self.len {
            return None;
        }
        if self.passes_before(test, near) {
            self.point_above(test, near)
        } else {
            self.point_below(test, near)
        }
    }

    /// The place where the items that pass end, if it is few steps above one before which an item passes.
    fn point_above<F: Fn(&T) -> bool>(&self, test: &F, near: usize) -> Option<usize>
        requires within { near ≤ length self.now }
        requires test { F.IsAlwaysCallable test.now }
        requires before { (p : T → Bool) → ((x : T) (told : Bool) → FnReturnsAt F.Fn test.now x told
            → told ≡ p x) → (d : T) → 0 < near → p (slice_index_or self.now (near - 1) d) ≡ true }
        ensures within { IfSome result (λ place. place ≤ length self.now) }
        ensures point { IfSome result (λ place. (p : T → Bool)
            → ((x : T) (told : Bool) → FnReturnsAt F.Fn test.now x told → told ≡ p x)
            → IsParted p self.now place) }
    {
        let mut place = near;
        for _ in 0..STEPS {
            if self.fails_from(test, place) {
                return Some(place);
            }
            place += 1;
        }
        None
    }

    /// The place where the items that pass end, if it is few steps below another.
    fn point_below<F: Fn(&T) -> bool>(&self, test: &F, near: usize) -> Option<usize>
        requires within { near ≤ length self.now }
        requires test { F.IsAlwaysCallable test.now }
        ensures within { IfSome result (λ place. place ≤ length self.now) }
        ensures point { IfSome result (λ place. (p : T → Bool)
            → ((x : T) (told : Bool) → FnReturnsAt F.Fn test.now x told → told ≡ p x)
            → IsParted p self.now place) }
    {
        let mut place = near;
        for _ in 0..STEPS {
            if place == 0 {
                return None;
            }
            place -= 1;
            if self.passes_before(test, place) && self.fails_from(test, place) {
                return Some(place);
            }
        }
        None
    }

    /// The place where the items that pass end, looked for by chunks first.
    fn point_anywhere<F: Fn(&T) -> bool>(&self, test: &F) -> Found
        requires { F.IsAlwaysCallable test.now }
        ensures within { result.place ≤ length self.now }
        ensures point { (p : T → Bool) → ((x : T) (told : Bool) → FnReturnsAt F.Fn test.now x told
            → told ≡ p x) → IsParted p self.now result.place }
    {
        let there = self.at_end_of_passing(test);
        let guess = there.guess(test);
        if there.passes_before(test, guess) && there.fails_from(test, guess) {
            return there.found_at(guess);
        }
        self.found_at(self.point_by_halves(test))
    }

    /// The place where the items that pass end, looked for by halves.
    fn point_by_halves<F: Fn(&T) -> bool>(&self, test: &F) -> usize
        requires { F.IsAlwaysCallable test.now }
        ensures within { result ≤ length self.now }
        ensures point { (p : T → Bool) → ((x : T) (told : Bool) → FnReturnsAt F.Fn test.now x told
            → told ≡ p x) → IsParted p self.now result }
    {
        let mut low = 0;
        let mut high = self.len;
        while low < high {
            let middle = low + (high - low) / 2;
            if passes(test, &self.get(middle)) {
                low = middle + 1;
            } else {
                high = middle;
            }
        }
        low
    }

    /// The same items, looked for from where those that pass seem to end.
    fn at_end_of_passing<F: Fn(&T) -> bool>(&self, test: &F) -> Search<'a, T>
        requires { F.IsAlwaysCallable test.now }
        ensures { result ≡ self.now }
    {
        let near = chunks_begun(self.chunks, test).saturating_sub(1);
        Search::new(self.chunks, self.starts, self.len, near)
    }

    /// Where those that pass seem to end, by the chunk looked at first. Only speed rests on it.
    fn guess<F: Fn(&T) -> bool>(&self, test: &F) -> usize
        requires { F.IsAlwaysCallable test.now }
        ensures { result ≤ length self.now }
    {
        if self.near >= self.chunks.len() {
            return self.len;
        }
        let inside = point_in(&self.chunks[self.near], test);
        self.start.saturating_add(inside).min(self.len)
    }

    /// Whether the item at a place passes.
    fn passes_at<F: Fn(&T) -> bool>(&self, test: &F, place: usize) -> bool
        requires inside { place < length self.now }
        requires test { F.IsAlwaysCallable test.now }
        ensures { (p : T → Bool) → ((x : T) (told : Bool) → FnReturnsAt F.Fn test.now x told
            → told ≡ p x) → (d : T) → result ≡ p (slice_index_or self.now place d) }
    {
        passes(test, &self.get(place))
    }

    /// Whether the item before a place passes, if there is one.
    fn passes_before<F: Fn(&T) -> bool>(&self, test: &F, place: usize) -> bool
        requires within { place ≤ length self.now }
        requires test { F.IsAlwaysCallable test.now }
        ensures { result ≡ true → (p : T → Bool)
            → ((x : T) (told : Bool) → FnReturnsAt F.Fn test.now x told → told ≡ p x) → (d : T)
            → 0 < place → p (slice_index_or self.now (place - 1) d) ≡ true }
    {
        if place == 0 {
            return true;
        }
        self.passes_at(test, place - 1)
    }

    /// Whether the item at a place doesn't pass, if there is one.
    fn fails_from<F: Fn(&T) -> bool>(&self, test: &F, place: usize) -> bool
        requires { F.IsAlwaysCallable test.now }
        ensures fails { result ≡ true → (p : T → Bool)
            → ((x : T) (told : Bool) → FnReturnsAt F.Fn test.now x told → told ≡ p x) → (d : T)
            → place < length self.now → p (slice_index_or self.now place d) ≡ false }
        ensures inside { result ≡ false → place < length self.now }
        ensures fits { result ≡ false → place + 1 < 2 ^ 64 }
        ensures passes { result ≡ false → (p : T → Bool)
            → ((x : T) (told : Bool) → FnReturnsAt F.Fn test.now x told → told ≡ p x) → (d : T)
            → p (slice_index_or self.now place d) ≡ true }
    {
        if place >= self.len {
            return true;
        }
        !self.passes_at(test, place)
    }
}

/// How many chunks begin with an item that passes, if these stand first.
fn chunks_begun<T, F: Fn(&T) -> bool>(chunks: &[Vec<T>], test: &F) -> usize
    requires { F.IsAlwaysCallable test.now }
    ensures { result ≤ length chunks.now }
{
    let mut low = 0;
    let mut high = chunks.len();
    while low < high {
        let middle = low + (high - low) / 2;
        if first_passes(&chunks[middle], test) {
            low = middle + 1;
        } else {
            high = middle;
        }
    }
    low
}

fn first_passes<T, F: Fn(&T) -> bool>(chunk: &[T], test: &F) -> bool
    requires { F.IsAlwaysCallable test.now }
{
    match chunk.first() {
        Some(item) => passes(test, item),
        None => true,
    }
}

/// Where the items that pass end, if these stand first.
fn point_in<T, F: Fn(&T) -> bool>(items: &[T], test: &F) -> usize
    requires { F.IsAlwaysCallable test.now }
{
    let mut low = 0;
    let mut high = items.len();
    while low < high {
        let middle = low + (high - low) / 2;
        if passes(test, &items[middle]) {
            low = middle + 1;
        } else {
            high = middle;
        }
    }
    low
}

pub(crate) fn passes<T, F: Fn(&T) -> bool>(test: &F, item: &T) -> bool
    requires { F.IsAlwaysCallable test.now }
    ensures { FnReturnsAt F.Fn test.now item.now result }
{
    test(item)
}
