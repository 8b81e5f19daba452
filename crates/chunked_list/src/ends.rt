//! Where so many items end.
ghost use Rattle.std.specs.Prelude.{◌≡◌, ◌<◌, ◌≤◌, ◌-◌, length, slice_index_or, true};
ghost use Rattle.std.specs.List.{flat_map};
ghost use Rattle.chunked_list.specs.Starts.{ItemsEnd, starts_from};

use crate::starts::Starts;

/// Where the first items of a list end: in which chunk, and how many of its items are among them.
#[derive(Clone, Copy)]
pub(crate) struct End {
    pub(crate) chunk: usize,
    pub(crate) within: usize,
}

/// Whether so many items end in a chunk, one of them its own.
fn ends_in<T>(chunks: &[Vec<T>], starts: &Starts, chunk: usize, count: usize) -> bool
    requires { starts.now ≡ starts_from (λ c. c.items) 0 chunks.now }
    ensures { result ≡ true → ItemsEnd (λ c. c.items) chunks.now chunk
        (count - slice_index_or starts.now chunk 0) count }
{
    if chunk >= chunks.len() {
        return false;
    }
    let start = starts.start_of(chunk);
    if start >= count {
        return false;
    }
    count - start <= chunks[chunk].len()
}

/// The last chunk before which fewer items stand; the first, if none has fewer.
fn chunk_by_halves<T>(chunks: &[Vec<T>], starts: &Starts, count: usize) -> usize
    requires some { 0 < length chunks.now }
    requires starts { starts.now ≡ starts_from (λ c. c.items) 0 chunks.now }
    requires within { count ≤ length (flat_map (λ c. c.items) chunks.now) }
    ensures { ItemsEnd (λ c. c.items) chunks.now result
        (count - slice_index_or starts.now result 0) count }
{
    let mut low = 0;
    let mut high = chunks.len();
    while high - low > 1 {
        let middle = low + (high - low) / 2;
        if starts.start_of(middle) < count {
            low = middle;
        } else {
            high = middle;
        }
    }
    low
}

/// Where so many items end, looked for by halves.
// Apart, so that the usual way is short enough to be inlined.
#[inline(never)]
pub(crate) fn end_by_halves<T>(chunks: &[Vec<T>], starts: &Starts, count: usize) -> End
    requires some { 0 < length chunks.now }
    requires starts { starts.now ≡ starts_from (λ c. c.items) 0 chunks.now }
    requires within { count ≤ length (flat_map (λ c. c.items) chunks.now) }
    ensures { ItemsEnd (λ c. c.items) chunks.now result.chunk result.within count }
{
    let chunk = chunk_by_halves(chunks, starts, count);
    End {
        chunk,
        within: count - starts.start_of(chunk),
    }
}

/// Where so many items end.
///
/// Ways: in the chunk `near`; in all others by halves.
pub(crate) fn end_of<T>(chunks: &[Vec<T>], starts: &Starts, near: usize, count: usize) -> End
    requires some { 0 < length chunks.now }
    requires starts { starts.now ≡ starts_from (λ c. c.items) 0 chunks.now }
    requires within { count ≤ length (flat_map (λ c. c.items) chunks.now) }
    ensures { ItemsEnd (λ c. c.items) chunks.now result.chunk result.within count }
{
    if ends_in(chunks, starts, near, count) {
        return End {
            chunk: near,
            within: count - starts.start_of(near),
        };
    }
    end_by_halves(chunks, starts, count)
}
