//! The bytes of samples, and the lines that stand in them.

use crate::answers::Answer;
use crate::calls::Call;
use osm_sample::sample_input;
use std::alloc::Global;

/// The text of a sample, of so many cells in a row and in a column.
fn sample_of(alloc: Global, digits: &str) -> Option<Vec<u8>> {
    let count = digits.trim().parse::<u8>().unwrap_or(0);
    if count == 0 || count > 100 {
        return None;
    }
    sample_input(alloc, count).ok()
}

/// Adds the text of a sample.
pub(crate) fn put_sample(alloc: Global, digits: &str, told: &mut Answer) {
    match sample_of(alloc, digits) {
        Some(text) => told.put_bytes(&text),
        None => told.put("no sample"),
    }
}

/// Whether a text has this line.
fn has_line(text: &[u8], wanted: &[u8]) -> bool {
    let text = str::from_utf8(text).unwrap_or("");
    for line in text.lines() {
        if line.as_bytes() == wanted {
            return true;
        }
    }
    false
}

/// Adds whether a line stands in a sample.
pub(crate) fn put_sampled(alloc: Global, call: Call<'_>, told: &mut Answer) {
    match sample_of(alloc, call.by) {
        Some(text) if has_line(&text, call.text) => told.put("yes"),
        Some(_) => told.put("no"),
        None => told.put("no sample"),
    }
}
