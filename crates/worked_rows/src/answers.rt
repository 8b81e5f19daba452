//! What is told: a text that grows.

use std::alloc::Global;
use std::fmt::{Debug, Display, Write};

/// What is told where memory runs out below an answer.
pub(crate) const NO_MEMORY: &str = "out of memory";

/// A text that is added to, and whether memory sufficed for all of it. So what adds to it has nothing to give on.
#[derive(Drop)]
pub(crate) struct Answer {
    pub(crate) text: String,
    pub(crate) is_whole: bool,
}

impl Answer {
    /// An empty text.
    pub(crate) fn new(alloc: Global) -> Answer {
        Answer {
            text: String::new(alloc),
            is_whole: true,
        }
    }

    /// Adds a text.
    pub(crate) fn put(&mut self, text: &str) {
        if self.text.push_str(text).is_err() {
            self.is_whole = false;
        }
    }

    /// Adds bytes, which have to be UTF-8.
    pub(crate) fn put_bytes(&mut self, bytes: &[u8]) {
        self.put(str::from_utf8(bytes).unwrap_or("not UTF-8"));
    }

    /// Adds a value as it is shown.
    pub(crate) fn put_shown<T: Display>(&mut self, value: &T) {
        if write!(self.text, "{value}").is_err() {
            self.is_whole = false;
        }
    }

    /// Adds a value as it is printed for debugging.
    pub(crate) fn put_debug<T: Debug>(&mut self, value: &T) {
        if write!(self.text, "{value:?}").is_err() {
            self.is_whole = false;
        }
    }
}
