//! A line that is built in a fixed buffer and takes no memory.

ghost use Rattle.std.specs.Prelude.{◌≡◌, ◌+◌, ◌≤◌, ◌++◌, ℕ, List, [], length, take, decimal};
ghost use Rattle.std.specs.Fmt.{signed_decimal};

use itoa::Buffer;
use std::marker::Model;

/// The most bytes of a line.
const ROOM: usize = 96;

/// A line that is being built.
#[derive(Drop)]
pub(crate) struct Line {
    bytes: [u8; ROOM],
    len: usize,
}

impl Model for Line {
    ghost Value = { List ℕ };

    ghost view = { λ line. take line.len line.bytes };

    ghost invariant = { λ line. line.len ≤ 96 };
}

impl Line {
    /// The empty line.
    pub(crate) fn new() -> Line
        ensures { result ≡ [] }
    {
        Line {
            bytes: [0; ROOM],
            len: 0,
        }
    }

    /// Adds a text that fits into the room left.
    pub(crate) fn put(&mut self, text: &str)
        requires { length self.old + length text.now ≤ 96 }
        ensures added { self.new ≡ self.old ++ text.now }
        ensures len { length self.new ≡ length self.old + length text.now }
    {
        let end = self.len + text.len();
        self.bytes[self.len..end].copy_from_slice(text.as_bytes());
        self.len = end;
    }

    /// Adds the digits of a number.
    pub(crate) fn put_number(&mut self, number: u64)
        requires { length self.old + 20 ≤ 96 }
        ensures added { self.new ≡ self.old ++ decimal number }
        ensures len { length self.new ≤ length self.old + 20 }
    {
        let mut digits = Buffer::new();
        self.put(digits.format(number));
    }

    /// Adds the sign, if there is one, and the digits of an id.
    pub(crate) fn put_id(&mut self, id: i64)
        requires { length self.old + 20 ≤ 96 }
        ensures added { self.new ≡ self.old ++ signed_decimal id }
        ensures len { length self.new ≤ length self.old + 20 }
    {
        let mut digits = Buffer::new();
        self.put(digits.format(id));
    }

    /// The bytes of the line.
    pub(crate) fn as_slice(&self) -> &[u8]
        ensures { result.now ≡ self.now }
    {
        &self.bytes[..self.len]
    }
}
