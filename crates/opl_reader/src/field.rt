//! The fields of an object: a letter, and a value that is read by its letter.

ghost use Rattle.std.specs.Prelude.{◌≡◌, ◌+◌, ◌^◌, ◌<◌, length};
ghost use Rattle.opl_reader.specs.Reading.{Leaves};
ghost use Rattle.opl_reader.specs.Fields.{letter_of, shared};
ghost use Rattle.opl_reader.specs.Letters.{TablesHaveTheLetters};
ghost use Rattle.opl_reader.specs.NumberReading.{is_count, is_number};
ghost use Rattle.opl_reader.specs.FieldReading.{flag_of, with_value};

use crate::content::Content;
use crate::escape::is_string;
use crate::fault::{FaultKind, LineError, fault};
use crate::items::{read_members, read_refs, read_tags};
use crate::number::are_digits;
use crate::place::{x_spelled, y_spelled};
use osm_elements::ObjectKind;
use std::alloc::Global;

/// What a field's letter means.
#[derive(Clone, Copy, Debug, PartialEq, Eq)]
pub enum Meaning {
    /// A number that isn't kept: v, c or i.
    Count,
    /// Whether the object is live: d.
    Flag,
    /// Bytes that aren't kept: t.
    Anything,
    /// A string that isn't kept: u.
    Name,
    /// The longitude of a node: x.
    X,
    /// The latitude of a node: y.
    Y,
    /// The tags: T.
    Tagged,
    /// The references of a way: N.
    Referring,
    /// The members of a relation: M.
    Having,
}

/// What a letter means that every kind of object may have; None for any other letter.
#[inline(always)]
fn shared(letter: u8) -> Option<Meaning>
    ensures { result ≡ shared letter }
{
    match letter {
        b'T' => Some(Meaning::Tagged),
        b'v' | b'c' | b'i' => Some(Meaning::Count),
        b'd' => Some(Meaning::Flag),
        b't' => Some(Meaning::Anything),
        b'u' => Some(Meaning::Name),
        _ => None,
    }
}

/// What a letter means for a kind of object; None if it means nothing.
///
/// It agrees with the field tables, by `tables_have_the_letters`, without searching them.
#[tactic(auto, unfolding(crate::specs::Fields::letter_of))]
#[inline(always)]
pub fn letter_of(kind: ObjectKind, letter: u8) -> Option<Meaning>
    ensures { result ≡ letter_of kind letter }
{
    match kind {
        ObjectKind::Node => match letter {
            b'x' => Some(Meaning::X),
            b'y' => Some(Meaning::Y),
            _ => shared(letter),
        },
        ObjectKind::Way => match letter {
            b'N' => Some(Meaning::Referring),
            _ => shared(letter),
        },
        ObjectKind::Relation => match letter {
            b'M' => Some(Meaning::Having),
            _ => shared(letter),
        },
    }
}

/// The field tables say what each letter means.
pub fn tables_have_the_letters()
    ensures { TablesHaveTheLetters }
{}

/// 1 to 19 digits.
fn is_count(digits: &[u8]) -> bool
    ensures { result ≡ is_count digits.now }
{
    !digits.is_empty() && digits.len() <= 19 && are_digits(digits)
}

/// Nothing, or an optional minus and a count.
#[tactic(auto, unfolding(crate::specs::NumberReading::is_number))]
fn is_number(bytes: &[u8]) -> bool
    ensures { result ≡ is_number bytes.now }
{
    match bytes {
        [] => true,
        [b'-', digits @ ..] => is_count(digits),
        digits => is_count(digits),
    }
}

/// Whether the object is live: V says so, D that it was deleted.
#[tactic(auto, unfolding(crate::specs::FieldReading::flag_of))]
fn flag_of(bytes: &[u8]) -> Option<bool>
    ensures { result ≡ flag_of bytes.now }
{
    match bytes {
        [b'V'] => Some(true),
        [b'D'] => Some(false),
        _ => None,
    }
}

/// Adds the value of a field, whose letter is at this place, to the content.
#[tactic(auto, unfolding(crate::specs::FieldReading::with_value, crate::specs::StringReading::string_at))]
pub fn add_value(
    alloc: Global,
    meaning: Meaning,
    place: u64,
    value: &str,
    content: &mut Content,
) -> Result<(), LineError>
    requires { place + 1 + length value.now < 2 ^ 63 }
    ensures { Leaves result content.new (with_value meaning place value.now content.old) }
{
    match meaning {
        Meaning::Count => {
            if !is_number(value.as_bytes()) {
                return Err(fault(FaultKind::BadNumber, place));
            }
        }
        Meaning::Flag => {
            content.live = flag_of(value.as_bytes()).ok_or(fault(FaultKind::BadFlag, place))?;
        }
        Meaning::Anything => {}
        Meaning::Name => {
            if !is_string(value) {
                return Err(fault(FaultKind::BadEscape, place));
            }
        }
        Meaning::X => {
            content.x = x_spelled(value.as_bytes()).ok_or(fault(FaultKind::BadCoordinate, place))?;
        }
        Meaning::Y => {
            content.y = y_spelled(value.as_bytes()).ok_or(fault(FaultKind::BadCoordinate, place))?;
        }
        Meaning::Tagged => content.tags = read_tags(alloc, value, place + 1)?,
        Meaning::Referring => content.refs = read_refs(alloc, value, place + 1)?,
        Meaning::Having => content.members = read_members(alloc, value, place + 1)?,
    }
    Ok(())
}
