//! Whole numbers.
ghost use Rattle.std.specs.Prelude.{◌≡◌, ◌++◌, OnOk, OnErr};
ghost use Rattle.osm_notation.specs.Kept.{KeepsFront};

use itoa::{Buffer, Integer};
use std::alloc::AllocError as OutOfMemory;

/// Adds a whole number.
pub fn put_number<I: Integer>(text: &mut Vec<u8>, number: I) -> Result<(), OutOfMemory>
    ensures text { OnOk result (text.new.items ≡ text.old.items ++ I.text number) }
    ensures kept { OnErr result (KeepsFront text.old.items text.new.items) }
{
    let mut digits = Buffer::new();
    text.extend_from_slice(digits.format(number).as_bytes())?;
    Ok(())
}
