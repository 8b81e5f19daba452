//! Chunks one after the other.
ghost use Rattle.std.specs.Prelude.{◌≡◌, ◌<◌, ◌≤◌, ◌+◌, ◌^◌, ℕ, insert, remove, length, set, slice_index_or, take, IfOk, OnErr, OnOk};
ghost use Rattle.std.specs.List.{flat_map};
ghost use Rattle.chunked_list.specs.Starts.{ItemsEnd, starts_from};

use crate::ends::{End, end_by_halves, end_of};
use crate::starts::Starts;
use std::alloc::{AllocError as OutOfMemory, Global};

/// A chunk of fewer items isn't parted.
const SHORT: usize = 32;

/// The most items of a chunk, beside so many chunks. Only speed rests on it.
fn longest(chunks: usize) -> usize {
    SHORT.saturating_add(chunks / 16)
}

/// How many items stand before the chunk `near`, if there is one.
pub(crate) fn start_near<T>(chunks: &[Vec<T>], starts: &Starts, near: usize) -> usize
    requires { starts.now ≡ starts_from (λ c. c.items) 0 chunks.now }
    ensures { near < length chunks.now → result ≡ slice_index_or starts.now near 0 }
{
    if near >= chunks.len() {
        return 0;
    }
    starts.start_of(near)
}

/// The item at a place, looked for by halves.
// Apart, so that the usual way is short enough to be inlined.
#[inline(never)]
fn item_by_halves<T: Copy>(chunks: &[Vec<T>], starts: &Starts, place: usize) -> T
    requires starts { starts.now ≡ starts_from (λ c. c.items) 0 chunks.now }
    requires fits { place + 1 < 2 ^ 64 }
    requires inside { place < length (flat_map (λ c. c.items) chunks.now) }
    ensures { (d : T) → result ≡ slice_index_or (flat_map (λ c. c.items) chunks.now) place d }
{
    let end = end_by_halves(chunks, starts, place + 1);
    chunks[end.chunk][end.within - 1]
}

/// The item at a place. It is looked for first in the chunk `near`, before which so many stand, if there is one.
pub(crate) fn item_from<T: Copy>(
    chunks: &[Vec<T>],
    starts: &Starts,
    near: usize,
    start: usize,
    place: usize,
) -> T
    requires starts { starts.now ≡ starts_from (λ c. c.items) 0 chunks.now }
    requires near { near < length chunks.now → start ≡ slice_index_or starts.now near 0 }
    requires fits { place + 1 < 2 ^ 64 }
    requires inside { place < length (flat_map (λ c. c.items) chunks.now) }
    ensures { (d : T) → result ≡ slice_index_or (flat_map (λ c. c.items) chunks.now) place d }
{
    if near < chunks.len() && start <= place && place - start < chunks[near].len() {
        return chunks[near][place - start];
    }
    item_by_halves(chunks, starts, place)
}

/// The item at a place, looked for in the chunk `near` first.
pub(crate) fn item<T: Copy>(chunks: &[Vec<T>], starts: &Starts, near: usize, place: usize) -> T
    requires starts { starts.now ≡ starts_from (λ c. c.items) 0 chunks.now }
    requires fits { place + 1 < 2 ^ 64 }
    requires inside { place < length (flat_map (λ c. c.items) chunks.now) }
    ensures { (d : T) → result ≡ slice_index_or (flat_map (λ c. c.items) chunks.now) place d }
{
    let start = start_near(chunks, starts, near);
    item_from(chunks, starts, near, start, place)
}

/// Puts an item in the place of another, looked for in the chunk `near` first. Gives its chunk.
pub(crate) fn put_over<T: Copy>(
    chunks: &mut Vec<Vec<T>>,
    starts: &Starts,
    near: usize,
    place: usize,
    item: T,
) -> usize
    requires starts { starts.now ≡ starts_from (λ c. c.items) 0 chunks.old.items }
    requires fits { place + 1 < 2 ^ 64 }
    requires inside { place < length (flat_map (λ c. c.items) chunks.old.items) }
    ensures starts { starts.now ≡ starts_from (λ c. c.items) 0 chunks.new.items }
    ensures items { flat_map (λ c. c.items) chunks.new.items
        ≡ set (flat_map (λ c. c.items) chunks.old.items) place item }
{
    let end = end_of(chunks, starts, near, place + 1);
    chunks[end.chunk][end.within - 1] = item;
    end.chunk
}

/// Takes the item at a place out, looked for in the chunk `near` first, which becomes its chunk.
pub(crate) fn take_out<T: Copy>(
    chunks: &mut Vec<Vec<T>>,
    starts: &mut Starts,
    near: &mut usize,
    place: usize,
) -> T
    requires starts { starts.old ≡ starts_from (λ c. c.items) 0 chunks.old.items }
    requires inside { place < length (flat_map (λ c. c.items) chunks.old.items) }
    requires fits { length (flat_map (λ c. c.items) chunks.old.items) < 2 ^ 64 }
    ensures starts { starts.new ≡ starts_from (λ c. c.items) 0 chunks.new.items }
    ensures item { result ≡ slice_index_or (flat_map (λ c. c.items) chunks.old.items) place result }
    ensures others { flat_map (λ c. c.items) chunks.new.items
        ≡ remove (flat_map (λ c. c.items) chunks.old.items) place }
{
    let end = end_of(chunks, starts, *near, place + 1);
    let item = chunks[end.chunk].remove(end.within - 1);
    starts.lower(end.chunk);
    drop_if_empty(chunks, starts, end.chunk);
    *near = end.chunk;
    item
}

/// Drops a chunk that has no items.
fn drop_if_empty<T: Copy>(chunks: &mut Vec<Vec<T>>, starts: &mut Starts, chunk: usize)
    requires inside { chunk < length chunks.old.items }
    requires starts { starts.old ≡ starts_from (λ c. c.items) 0 chunks.old.items }
    requires fits { length (flat_map (λ c. c.items) chunks.old.items) < 2 ^ 64 }
    ensures starts { starts.new ≡ starts_from (λ c. c.items) 0 chunks.new.items }
    ensures same { flat_map (λ c. c.items) chunks.new.items
        ≡ flat_map (λ c. c.items) chunks.old.items }
{
    if !chunks[chunk].is_empty() {
        return;
    }
    let start = starts.start_of(chunk);
    chunks.remove(chunk);
    starts.shrink();
    starts.recount(chunks, chunk, start);
}

/// Puts a chunk in and makes room for its start: both or neither.
fn add_chunk<T: Copy>(
    chunks: &mut Vec<Vec<T>>,
    starts: &mut Starts,
    at: usize,
    chunk: Vec<T>,
) -> Result<(), OutOfMemory>
    requires { at ≤ length chunks.old.items }
    ensures chunks { OnOk result (chunks.new.items ≡ insert chunks.old.items at chunk) }
    ensures long { OnOk result (length starts.new ≡ length starts.old + 1) }
    ensures others { OnOk result ((k : ℕ) → k < length starts.old
        → slice_index_or starts.new k 0 ≡ slice_index_or starts.old k 0) }
    ensures kept { OnErr result (chunks.new.items ≡ chunks.old.items) }
    ensures starts_kept { OnErr result (starts.new ≡ starts.old) }
{
    if chunks.insert(at, chunk).is_err() {
        return Err(OutOfMemory);
    }
    if starts.grow().is_err() {
        chunks.remove(at);
        return Err(OutOfMemory);
    }
    Ok(())
}

/// Sees to it that there is a chunk.
fn begin<T: Copy>(
    alloc: Global,
    chunks: &mut Vec<Vec<T>>,
    starts: &mut Starts,
) -> Result<(), OutOfMemory>
    requires { starts.old ≡ starts_from (λ c. c.items) 0 chunks.old.items }
    ensures starts { starts.new ≡ starts_from (λ c. c.items) 0 chunks.new.items }
    ensures same { flat_map (λ c. c.items) chunks.new.items
        ≡ flat_map (λ c. c.items) chunks.old.items }
    ensures some { OnOk result (0 < length chunks.new.items) }
{
    if !chunks.is_empty() {
        return Ok(());
    }
    add_chunk(chunks, starts, 0, Vec::new(alloc))?;
    starts.recount(chunks, 0, 0);
    Ok(())
}

/// Parts a chunk into two.
fn part<T: Copy>(
    alloc: Global,
    chunks: &mut Vec<Vec<T>>,
    starts: &mut Starts,
    chunk: usize,
) -> Result<(), OutOfMemory>
    requires inside { chunk < length chunks.old.items }
    requires starts { starts.old ≡ starts_from (λ c. c.items) 0 chunks.old.items }
    requires fits { length (flat_map (λ c. c.items) chunks.old.items) < 2 ^ 64 }
    ensures starts { starts.new ≡ starts_from (λ c. c.items) 0 chunks.new.items }
    ensures same { flat_map (λ c. c.items) chunks.new.items
        ≡ flat_map (λ c. c.items) chunks.old.items }
    ensures some { 0 < length chunks.new.items }
{
    let half = chunks[chunk].len() / 2;
    let start = starts.start_of(chunk);
    let upper = Vec::from_slice(alloc, &chunks[chunk][half..])?;
    add_chunk(chunks, starts, chunk + 1, upper)?;
    chunks[chunk].truncate(half);
    starts.recount(chunks, chunk, start);
    Ok(())
}

/// Where so many items end, in a chunk that isn't full. It is looked for in the chunk `near` first.
fn end_with_room<T: Copy>(
    alloc: Global,
    chunks: &mut Vec<Vec<T>>,
    starts: &mut Starts,
    near: usize,
    count: usize,
) -> Result<End, OutOfMemory>
    requires starts { starts.old ≡ starts_from (λ c. c.items) 0 chunks.old.items }
    requires within { count ≤ length (flat_map (λ c. c.items) chunks.old.items) }
    requires fits { length (flat_map (λ c. c.items) chunks.old.items) < 2 ^ 64 }
    ensures starts { starts.new ≡ starts_from (λ c. c.items) 0 chunks.new.items }
    ensures same { flat_map (λ c. c.items) chunks.new.items
        ≡ flat_map (λ c. c.items) chunks.old.items }
    ensures end { IfOk result (λ end. ItemsEnd (λ c. c.items) chunks.new.items end.chunk end.within
        count) }
{
    begin(alloc, chunks, starts)?;
    let end = end_of(chunks, starts, near, count);
    if chunks[end.chunk].len() < longest(chunks.len()) {
        return Ok(end);
    }
    part(alloc, chunks, starts, end.chunk)?;
    Ok(end_of(chunks, starts, end.chunk, count))
}

/// Puts an item into a chunk, before the one at a place or at the end.
// All items behind it are moved at once. `Vec::insert` moves them one by one.
fn put_before<T: Copy>(chunk: &mut Vec<T>, place: usize, item: T) -> Result<(), OutOfMemory>
    requires { place ≤ length chunk.old.items }
    ensures done { OnOk result (chunk.new.items ≡ insert chunk.old.items place item) }
    ensures kept { OnErr result (chunk.new.items ≡ chunk.old.items) }
{
    let end = chunk.len();
    match chunk.push(item) {
        Ok(()) => {
            chunk.copy_within(place..end, place + 1);
            chunk[place] = item;
            Ok(())
        }
        Err(_) => Err(OutOfMemory),
    }
}

/// Puts an item in before the one at a place, or at the end. It is looked for in the chunk `near` first, which becomes its chunk.
pub(crate) fn put_in<T: Copy>(
    alloc: Global,
    chunks: &mut Vec<Vec<T>>,
    starts: &mut Starts,
    near: &mut usize,
    place: usize,
    item: T,
) -> Result<(), OutOfMemory>
    requires starts { starts.old ≡ starts_from (λ c. c.items) 0 chunks.old.items }
    requires within { place ≤ length (flat_map (λ c. c.items) chunks.old.items) }
    requires fits { length (flat_map (λ c. c.items) chunks.old.items) + 1 < 2 ^ 64 }
    ensures starts { starts.new ≡ starts_from (λ c. c.items) 0 chunks.new.items }
    ensures done { OnOk result (flat_map (λ c. c.items) chunks.new.items
        ≡ insert (flat_map (λ c. c.items) chunks.old.items) place item) }
    ensures kept { OnErr result (flat_map (λ c. c.items) chunks.new.items
        ≡ flat_map (λ c. c.items) chunks.old.items) }
{
    let end = end_with_room(alloc, chunks, starts, *near, place)?;
    match put_before(&mut chunks[end.chunk], end.within, item) {
        Ok(()) => {
            starts.raise(end.chunk);
            *near = end.chunk;
            Ok(())
        }
        Err(error) => Err(error),
    }
}
