//! Bytes in order: a few in place, more in memory of their own.

ghost use Rattle.std.specs.Prelude.{◌≡◌, ◌+◌, ◌<◌, ◌≤◌, ◌++◌, ◌∷◌, ◌==◌, [], true, length, take, IfOk, OnOk, OnErr};

use std::alloc::{AllocError as OutOfMemory, Global};
use std::fmt;
use std::marker::Model;

/// How many bytes are held in place: as many as make a block no larger than a `Vec` and a tag.
const FEW: usize = 30;

/// At most 30 bytes, in place.
#[derive(Drop)]
pub(crate) struct ShortBytes {
    len: u8,
    bytes: [u8; 30],
}

impl Model for ShortBytes {
    ghost use Rattle.std.specs.Prelude.{◌≤◌, ℕ, List, take};

    ghost Value = { List ℕ };

    ghost view = { λ s. take s.len s.bytes };

    ghost invariant = { λ s. s.len ≤ 30 };
}

/// Where bytes are held.
#[derive(Drop)]
pub(crate) enum Bytes {
    Short(ShortBytes),
    Long(Vec<u8>),
}

/// Bytes, seen as their list. Up to 30 of them take no memory besides the value itself.
#[derive(Drop)]
pub(crate) struct Block {
    alloc: Global,
    bytes: Bytes,
}

impl Model for Block {
    ghost use Rattle.std.specs.Prelude.{ℕ, List};
    ghost use Rattle.osm_elements.specs.Blocks.{bytes_held};

    ghost Value = { List ℕ };

    ghost view = { λ b. bytes_held b.bytes };
}

impl ShortBytes {
    /// No bytes.
    fn new() -> ShortBytes
        ensures { result ≡ [] }
    {
        ShortBytes {
            len: 0,
            bytes: [0; 30],
        }
    }

    /// The bytes.
    fn as_slice(&self) -> &[u8]
        ensures { result.now ≡ self.now }
    {
        &self.bytes[..usize::from(self.len)]
    }

    /// Whether there is room for this many more.
    fn has_room(&self, more: usize) -> bool
        ensures { result ≡ true → length self.now + more ≤ 30 }
    {
        more <= FEW - usize::from(self.len)
    }

    /// Adds a byte.
    fn push(&mut self, byte: u8)
        requires { length self.old + 1 ≤ 30 }
        ensures { self.new ≡ self.old ++ byte ∷ [] }
    {
        self.bytes[usize::from(self.len)] = byte;
        self.len += 1;
    }

    /// Adds bytes.
    fn add(&mut self, more: &[u8])
        requires { length self.old + length more.now ≤ 30 }
        ensures { self.new ≡ self.old ++ more.now }
    {
        let len = usize::from(self.len);
        let end = len + more.len();
        self.bytes[len..end].copy_from_slice(more);
        self.len = end as u8;
    }

    /// Keeps the first bytes, at most this many.
    fn truncate(&mut self, len: usize)
        ensures { self.new ≡ take len self.old }
    {
        if len < usize::from(self.len) {
            self.len = len as u8;
        }
    }
}

/// Bytes and more behind them, in memory with as much room again.
fn joined(alloc: Global, before: &[u8], more: &[u8]) -> Result<Vec<u8>, OutOfMemory>
    ensures { IfOk result (λ bytes. bytes.items ≡ before.now ++ more.now) }
{
    let len = before.len().saturating_add(more.len());
    let mut bytes = Vec::with_capacity(alloc, len.saturating_mul(2))?;
    bytes.extend_from_slice(before)?;
    bytes.extend_from_slice(more)?;
    Ok(bytes)
}

impl Block {
    /// No bytes, which take no memory.
    pub(crate) fn new(alloc: Global) -> Block
        ensures { result ≡ [] }
    {
        Block {
            alloc,
            bytes: Bytes::Short(ShortBytes::new()),
        }
    }

    /// No bytes, with room for this many.
    pub(crate) fn with_capacity(alloc: Global, room: usize) -> Result<Block, OutOfMemory>
        ensures { IfOk result (λ block. block ≡ []) }
    {
        if room <= FEW {
            return Ok(Block::new(alloc));
        }
        let bytes = Bytes::Long(Vec::with_capacity(alloc, room)?);
        Ok(Block { alloc, bytes })
    }

    /// These bytes, without spare room.
    fn from_slice(alloc: Global, bytes: &[u8]) -> Result<Block, OutOfMemory>
        ensures { IfOk result (λ block. block ≡ bytes.now) }
    {
        if bytes.len() > FEW {
            let bytes = Bytes::Long(Vec::from_slice(alloc, bytes)?);
            return Ok(Block { alloc, bytes });
        }
        let mut short = ShortBytes::new();
        short.add(bytes);
        Ok(Block {
            alloc,
            bytes: Bytes::Short(short),
        })
    }

    /// A copy without spare room.
    pub(crate) fn copy(&self, alloc: Global) -> Result<Block, OutOfMemory>
        ensures { IfOk result (λ block. block ≡ self.now) }
    {
        Block::from_slice(alloc, self.as_slice())
    }

    /// Whether the bytes are in place. No clause says it.
    pub(crate) fn is_in_place(&self) -> bool {
        matches!(self.bytes, Bytes::Short(_))
    }

    /// The bytes.
    pub(crate) fn as_slice(&self) -> &[u8]
        ensures { result.now ≡ self.now }
    {
        match &self.bytes {
            Bytes::Short(short) => short.as_slice(),
            Bytes::Long(long) => long.as_slice(),
        }
    }

    /// How many bytes there are.
    pub(crate) fn len(&self) -> usize
        ensures { result ≡ length self.now }
    {
        self.as_slice().len()
    }

    /// Whether there are none.
    pub(crate) fn is_empty(&self) -> bool
        ensures { result ≡ (length self.now == 0) }
    {
        self.as_slice().is_empty()
    }

    /// Moves the bytes into memory of their own, with more behind them. After an `Err` nothing has changed.
    fn add_in_memory(&mut self, more: &[u8]) -> Result<(), OutOfMemory>
        ensures ok { OnOk result (self.new ≡ self.old ++ more.now) }
        ensures err { OnErr result (self.new ≡ self.old) }
    {
        let bytes = joined(self.alloc, self.as_slice(), more)?;
        self.bytes = Bytes::Long(bytes);
        Ok(())
    }

    /// Adds a byte. After an `Err` nothing is added.
    pub(crate) fn push(&mut self, byte: u8) -> Result<(), OutOfMemory>
        ensures ok { OnOk result (self.new ≡ self.old ++ byte ∷ []) }
        ensures err { OnErr result (self.new ≡ self.old) }
    {
        match &mut self.bytes {
            Bytes::Long(long) => {
                long.push(byte)?;
                return Ok(());
            }
            Bytes::Short(short) => {
                if short.has_room(1) {
                    short.push(byte);
                    return Ok(());
                }
            }
        }
        self.add_in_memory(&[byte])
    }

    /// Adds bytes. After an `Err` nothing is added.
    pub(crate) fn extend_from_slice(&mut self, more: &[u8]) -> Result<(), OutOfMemory>
        ensures ok { OnOk result (self.new ≡ self.old ++ more.now) }
        ensures err { OnErr result (self.new ≡ self.old) }
    {
        match &mut self.bytes {
            Bytes::Long(long) => return long.extend_from_slice(more),
            Bytes::Short(short) => {
                if short.has_room(more.len()) {
                    short.add(more);
                    return Ok(());
                }
            }
        }
        self.add_in_memory(more)
    }

    /// Keeps the first bytes, at most this many.
    pub(crate) fn truncate(&mut self, len: usize)
        ensures { self.new ≡ take len self.old }
    {
        match &mut self.bytes {
            Bytes::Short(short) => short.truncate(len),
            Bytes::Long(long) => long.truncate(len),
        }
    }
}

impl fmt::Debug for Block {
    /// Writes the bytes as a list of numbers.
    fn fmt<W: fmt::Write>(&self, f: &mut fmt::Formatter<W>) -> fmt::Result {
        f.debug_list().entries(self.as_slice()).finish()
    }
}
