//! Owned text.

ghost use Rattle.std.specs.Prelude.{◌≡◌, IfOk, string_bytes};

use std::alloc::{AllocError as OutOfMemory, Global};
use std::marker::Model;

/// A text, seen as its bytes.
#[derive(Debug, Drop)]
pub struct Text {
    text: String,
}

impl Model for Text {
    ghost use Rattle.std.specs.Prelude.{ℕ, List, string_bytes};

    ghost Value = { List ℕ };

    ghost view = { λ t. string_bytes t.text };
}

impl Text {
    /// A text with these bytes.
    pub fn from_str(alloc: Global, s: &str) -> Result<Text, OutOfMemory>
        ensures { IfOk result (λ t. t ≡ s.now) }
    {
        Ok(Text {
            text: String::from_str(alloc, s)?,
        })
    }

    /// The text as a slice.
    pub fn as_str(&self) -> &str
        ensures { result.now ≡ self.now }
    {
        self.text.as_str()
    }

    /// The text of a string.
    pub fn of(text: String) -> Text
        ensures { result ≡ string_bytes text }
    {
        Text { text }
    }
}
