//! A run over each front of an input.

use crate::answers::Answer;
use crate::calls::Call;
use crate::words::add_words;
use osm_cli::{Ended, run};
use std::alloc::Global;
use tests_host::MemoryHost;

/// Whether a host can be given these bytes as its input, and room for what is written.
fn is_given(host: &mut MemoryHost, bytes: &[u8]) -> bool {
    host.add_input("-", bytes).is_ok() && host.reserve(65536).is_ok()
}

/// Whether a run over these bytes ends with Done, or at its last line.
fn ends_at_its_last_line(alloc: Global, words: &[String], bytes: &[u8]) -> bool {
    let mut host = MemoryHost::new(alloc, 65536);
    is_given(&mut host, bytes) && is_at_line(run(alloc, words, &mut host), last_line(bytes))
}

/// The number of the last line, counted from 1.
fn last_line(bytes: &[u8]) -> usize {
    let newlines = bytes.iter().filter(|&&byte| byte == b'\n').count();
    newlines.saturating_add(1)
}

/// Whether a run ended with Done, or at this line.
fn is_at_line(ended: Ended, last: usize) -> bool {
    match ended {
        Ended::Done => true,
        Ended::BadInput { line, .. } => usize::try_from(line) == Ok(last),
        _ => false,
    }
}

/// Adds over how many fronts of an input the run of these words reads all, or has its last line as the bad place.
pub(crate) fn put_fronts(alloc: Global, call: Call<'_>, told: &mut Answer) {
    let mut words = Vec::new(alloc);
    told.is_whole &= add_words(alloc, call.by, &mut words);
    told.put_shown(&count_right(alloc, &words, call.text));
    told.put(" of ");
    told.put_shown(&call.text.len());
}

/// Over how many fronts a run ends so.
fn count_right(alloc: Global, words: &[String], text: &[u8]) -> u64 {
    let mut right = 0u64;
    for length in 0..text.len() {
        if ends_at_its_last_line(alloc, words, &text[..length]) {
            right = right.saturating_add(1);
        }
    }
    right
}
