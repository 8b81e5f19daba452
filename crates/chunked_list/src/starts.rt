//! How many items stand before each chunk. This is counted in blocks: an item more changes the numbers of the rest of its block, and one for each later block.
ghost use Rattle.std.specs.Prelude.{◌≡◌, ◌<◌, ◌≤◌, ◌+◌, ◌-◌, ◌*◌, ◌/◌, ◌++◌, ◌∷◌, ◌^◌, All, List, ℕ, [], drop, length, map, false, slice_index_or, take, true, OnOk, OnErr};
ghost use Rattle.std.specs.List.{flat_map};
ghost use Rattle.chunked_list.specs.Blocks.{AreBlocks, AreChanged, Begins, IsEndOfBlock, IsSummed, sums_from};
ghost use Rattle.chunked_list.specs.Starts.{starts_from};

use std::alloc::{AllocError as OutOfMemory, Global};
use std::marker::Model;

/// So many chunks are a block.
const BLOCK: usize = 64;

/// How many items stand before each chunk.
#[derive(Drop)]
pub(crate) struct Starts {
    /// How many items stand before each block but the first.
    blocks: Vec<usize>,
    /// How many items of its own block stand before each chunk.
    within: Vec<usize>,
}

impl Model for Starts {
    ghost Value = { List ℕ };

    ghost view = { λ s. sums_from (0 ∷ s.blocks.items) 0 s.within.items };

    ghost invariant = { λ s. AreBlocks s.blocks.items s.within.items };
}

impl Starts {
    /// Those of no chunks.
    pub(crate) fn new(alloc: Global) -> Starts
        ensures { result ≡ [] }
    {
        Starts {
            blocks: Vec::new(alloc),
            within: Vec::new(alloc),
        }
    }

    /// How many items stand before a chunk.
    pub(crate) fn start_of(&self, chunk: usize) -> usize
        requires { chunk < length self.now }
        ensures { result ≡ slice_index_or self.now chunk 0 }
    {
        before_block(&self.blocks, chunk) + self.within[chunk]
    }

    /// One item more stands before each chunk behind one.
    pub(crate) fn raise(&mut self, chunk: usize)
        requires inside { chunk < length self.old }
        requires fits { All (λ start. start + 1 < 2 ^ 64) self.old }
        ensures { self.new
            ≡ take (chunk + 1) self.old ++ map (λ start. start + 1) (drop (chunk + 1) self.old) }
    {
        let chunks = self.within.len();
        if chunk + 1 == chunks {
            return;
        }
        let end = end_of_block(chunk, chunks);
        raise_each(&mut self.within, chunk + 1, end);
        let blocks = self.blocks.len();
        raise_each(&mut self.blocks, chunk / BLOCK, blocks);
    }

    /// One item fewer stands before each chunk behind one that has an item.
    pub(crate) fn lower(&mut self, chunk: usize)
        requires inside { chunk < length self.old }
        requires some { All (λ start. slice_index_or self.old chunk 0 < start)
            (drop (chunk + 1) self.old) }
        ensures { self.new
            ≡ take (chunk + 1) self.old ++ map (λ start. start - 1) (drop (chunk + 1) self.old) }
    {
        let chunks = self.within.len();
        if chunk + 1 == chunks {
            return;
        }
        let end = end_of_block(chunk, chunks);
        lower_each(&mut self.within, chunk + 1, end);
        let blocks = self.blocks.len();
        lower_each(&mut self.blocks, chunk / BLOCK, blocks);
    }

    /// One start more, which is still to be counted.
    pub(crate) fn grow(&mut self) -> Result<(), OutOfMemory>
        ensures long { OnOk result (length self.new ≡ length self.old + 1) }
        ensures others { OnOk result ((k : ℕ) → k < length self.old
            → slice_index_or self.new k 0 ≡ slice_index_or self.old k 0) }
        ensures kept { OnErr result (self.new ≡ self.old) }
    {
        if begins_block(self.within.len()) {
            return self.grow_by_block();
        }
        if self.within.push(0).is_err() {
            return Err(OutOfMemory);
        }
        Ok(())
    }

    /// One start more, and its block.
    fn grow_by_block(&mut self) -> Result<(), OutOfMemory>
        requires { Begins (length self.old) }
        ensures long { OnOk result (length self.new ≡ length self.old + 1) }
        ensures others { OnOk result ((k : ℕ) → k < length self.old
            → slice_index_or self.new k 0 ≡ slice_index_or self.old k 0) }
        ensures kept { OnErr result (self.new ≡ self.old) }
    {
        if self.blocks.push(0).is_err() {
            return Err(OutOfMemory);
        }
        if self.within.push(0).is_err() {
            self.blocks.pop();
            return Err(OutOfMemory);
        }
        Ok(())
    }

    /// One start fewer.
    pub(crate) fn shrink(&mut self)
        requires { 0 < length self.old }
        ensures long { length self.new + 1 ≡ length self.old }
        ensures others { (k : ℕ) → k < length self.new
            → slice_index_or self.new k 0 ≡ slice_index_or self.old k 0 }
    {
        self.within.pop();
        if begins_block(self.within.len()) {
            self.blocks.pop();
        }
    }

    /// Counts again from a chunk on, before which so many items stand.
    pub(crate) fn recount<T>(&mut self, chunks: &[Vec<T>], from: usize, count: usize)
        requires long { length chunks.now ≡ length self.old }
        requires fits { length (flat_map (λ c. c.items) chunks.now) < 2 ^ 64 }
        requires inside { from ≤ length chunks.now }
        requires count { count ≡ length (flat_map (λ c. c.items) (take from chunks.now)) }
        requires counted { (k : ℕ) → k < from → slice_index_or self.old k 0
            ≡ length (flat_map (λ c. c.items) (take k chunks.now)) }
        ensures { self.new ≡ starts_from (λ c. c.items) 0 chunks.now }
    {
        let mut count = count;
        for chunk in from..chunks.len() {
            note(&mut self.blocks, &mut self.within, chunk, count);
            count += chunks[chunk].len();
        }
    }
}

/// Whether a block but the first begins with a chunk.
fn begins_block(chunk: usize) -> bool
    ensures begins { result ≡ true → Begins chunk }
    ensures goes_on { result ≡ false → Begins chunk → ⊥ }
{
    chunk > 0 && chunk % BLOCK == 0
}

/// How many items stand before the block of a chunk.
fn before_block(blocks: &[usize], chunk: usize) -> usize
    requires { chunk < 64 * length blocks.now + 64 }
    ensures { result ≡ slice_index_or (0 ∷ blocks.now) (chunk / 64) 0 }
{
    if chunk < BLOCK {
        return 0;
    }
    blocks[chunk / BLOCK - 1]
}

/// Where the chunks end that are in one block with a chunk.
fn end_of_block(chunk: usize, chunks: usize) -> usize
    requires { chunk < chunks }
    ensures { IsEndOfBlock chunk chunks result }
{
    let rest = chunks - chunk;
    chunk + rest.min(BLOCK - chunk % BLOCK)
}

/// Adds one to each number from one place up to another.
fn raise_each(numbers: &mut [usize], from: usize, to: usize)
    requires order { from ≤ to }
    requires within { to ≤ length numbers.old }
    requires fits { (k : ℕ) → from ≤ k → k < to
        → slice_index_or numbers.old k 0 + 1 < 2 ^ 64 }
    ensures { AreChanged (λ n. n + 1) from to numbers.old numbers.new }
{
    for place in from..to {
        numbers[place] += 1;
    }
}

/// Takes one from each number from one place up to another.
fn lower_each(numbers: &mut [usize], from: usize, to: usize)
    requires order { from ≤ to }
    requires within { to ≤ length numbers.old }
    requires some { (k : ℕ) → from ≤ k → k < to → 0 < slice_index_or numbers.old k 0 }
    ensures { AreChanged (λ n. n - 1) from to numbers.old numbers.new }
{
    for place in from..to {
        numbers[place] -= 1;
    }
}

/// Notes how many items stand before a chunk, and before the block that it may begin.
fn note(blocks: &mut Vec<usize>, within: &mut Vec<usize>, chunk: usize, count: usize)
    requires inside { chunk < length within.old.items }
    requires blocks { length within.old.items ≤ 64 * length blocks.old.items + 64 }
    requires base { (Begins chunk → ⊥)
        → slice_index_or (0 ∷ blocks.old.items) (chunk / 64) 0 ≤ count }
    ensures { IsSummed chunk count blocks.old.items within.old.items blocks.new.items
        within.new.items }
{
    if begins_block(chunk) {
        blocks[chunk / BLOCK - 1] = count;
        within[chunk] = 0;
        return;
    }
    within[chunk] = count - before_block(blocks, chunk);
}
