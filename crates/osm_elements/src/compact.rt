//! Numbers in few bytes if they are small, and signed numbers by how they differ from others.

ghost use Rattle.std.specs.Prelude.{◌≡◌, ◌<◌, ◌++◌, length, take, OnOk, OnErr};
ghost use Rattle.osm_elements.specs.Compact.{number_bytes, number_in, after_number, marked_bytes, marked_number, has_mark, folded, unfolded, difference, moved};

use crate::block::Block;
use std::alloc::AllocError as OutOfMemory;

/// Adds a number: its digits in base 128, the lowest first, each but the last with 128 added.
///
/// After an `Err` some of them may have been added.
pub(crate) fn push_number(bytes: &mut Block, number: u64) -> Result<(), OutOfMemory>
    ensures ok { OnOk result (bytes.new ≡ bytes.old ++ number_bytes number) }
    ensures err { OnErr result (take (length bytes.old) bytes.new ≡ bytes.old) }
{
    let mut left = number;
    while left >= 128 {
        bytes.push(128 + (left % 128) as u8)?;
        left /= 128;
    }
    bytes.push(left as u8)?;
    Ok(())
}

/// The number in front that has more than one digit, and the bytes after it.
///
/// It recurses once for each digit, and no number has more than ten.
fn long_number(bytes: &[u8]) -> (u64, &[u8])
    ensures number { result.0 ≡ number_in bytes.now }
    ensures behind { result.1.now ≡ after_number bytes.now }
{
    match bytes {
        [] => (0, bytes),
        [last, behind @ ..] if *last < 128 => (u64::from(*last), behind),
        [digit, more @ ..] => {
            let (high, behind) = long_number(more);
            let low = u64::from(*digit - 128);
            (high.wrapping_mul(128).wrapping_add(low), behind)
        }
    }
}

/// The number in front, and the bytes after it. Most have one digit or two.
pub(crate) fn first_number(bytes: &[u8]) -> (u64, &[u8])
    ensures number { result.0 ≡ number_in bytes.now }
    ensures behind { result.1.now ≡ after_number bytes.now }
{
    match bytes {
        [last, behind @ ..] if *last < 128 => (u64::from(*last), behind),
        [first, last, behind @ ..] if *last < 128 => (
            u64::from(*last) * 128 + u64::from(*first - 128),
            behind,
        ),
        _ => long_number(bytes),
    }
}

/// Adds a number and a mark, which is 0 or 1. A number below 64 takes one byte.
///
/// After an `Err` a part of it may have been added.
pub(crate) fn push_marked(bytes: &mut Block, mark: u8, number: u64) -> Result<(), OutOfMemory>
    requires { mark < 2 }
    ensures ok { OnOk result (bytes.new ≡ bytes.old ++ marked_bytes mark number) }
    ensures err { OnErr result (take (length bytes.old) bytes.new ≡ bytes.old) }
{
    if number < 64 {
        bytes.push(2 * number as u8 + mark)?;
        return Ok(());
    }
    bytes.push(128 + (2 * (number % 64) as u8 + mark))?;
    push_number(bytes, number / 64)?;
    Ok(())
}

/// The number with a mark in front, whether its mark is 1, and the bytes after it.
pub(crate) fn first_marked(bytes: &[u8]) -> (u64, bool, &[u8])
    ensures number { result.0 ≡ marked_number bytes.now }
    ensures mark { result.1 ≡ has_mark bytes.now }
    ensures behind { result.2.now ≡ after_number bytes.now }
{
    match bytes {
        [] => (0, false, bytes),
        [only, behind @ ..] if *only < 128 => { (u64::from(*only / 2), *only % 2 == 1, behind) }
        [first, more @ ..] => {
            let (high, behind) = first_number(more);
            let low = u64::from((*first - 128) / 2);
            let number = high.wrapping_mul(64).wrapping_add(low);
            (number, *first % 2 == 1, behind)
        }
    }
}

/// The bits of a signed number, folded so that small numbers of either sign are small.
#[tactic(auto, unfolding(crate::specs::Compact::folded))]
fn folded(bits: u64) -> u64
    ensures { result ≡ folded bits }
{
    if bits < 9_223_372_036_854_775_808 {
        2 * bits
    } else {
        2 * (u64::MAX - bits) + 1
    }
}

/// The bits that were folded.
#[tactic(auto, unfolding(crate::specs::Compact::unfolded))]
fn unfolded(number: u64) -> u64
    ensures { result ≡ unfolded number }
{
    if number % 2 == 0 {
        number / 2
    } else {
        u64::MAX - number / 2
    }
}

/// How the second number differs from the first.
#[tactic(auto, unfolding(crate::specs::Compact::difference))]
pub(crate) fn difference(from: i64, to: i64) -> u64
    ensures { result ≡ difference from to }
{
    folded(to.cast_unsigned().wrapping_sub(from.cast_unsigned()))
}

/// The number that differs by this from the given one.
#[tactic(auto, unfolding(crate::specs::Compact::moved))]
pub(crate) fn moved(from: i64, by: u64) -> i64
    ensures { result ≡ moved from by }
{
    from.cast_unsigned()
        .wrapping_add(unfolded(by))
        .cast_signed()
}
