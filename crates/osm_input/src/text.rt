//! An opened input, read to its end as one text.

ghost use Rattle.std.specs.Prelude.{◌≡◌, ◌<◌, ◌^◌, false, IfSome};
ghost use Rattle.osm_host.specs.Outside.{HasRisen, OnlyReads};
ghost use Rattle.osm_input.specs.Keeps.{KeepsNames};
ghost use Rattle.osm_input.specs.Text.{IsTextOf, IsTextWhole, ReadsText, ReadsTextOnce, text_seen};

use crate::reading::PIECE;
use osm_host::{Host, streams_append};
use std::alloc::Global;

/// Why an input isn't read as a text.
#[derive(Clone, Copy, Debug, PartialEq, Eq)]
pub enum TextError {
    /// The input has more bytes than this limit.
    TooMuchInput { limit: u64 },
    /// A read failed.
    ReadFault,
    /// Memory ran out.
    OutOfMemory,
}

/// Reads the opened input to its end, in pieces of at most 65,536 bytes, and hands over its bytes.
///
/// Ok comes only if that end was reached within `limit` bytes. TooMuchInput comes exactly if `limit` bytes were taken and
/// the host gave at least one more. The only parts of the input that are held are the text and a piece.
pub fn read_text<H: Host>(alloc: Global, host: &mut H, limit: u64) -> Result<Vec<u8>, TextError>
    requires limited { limit < 2 ^ 63 }
    // No read follows one that found the end.
    requires goes_on { (H.seen host.old).at_end ≡ false }
    // The answer is right for the bytes that were taken from the input.
    // For TooMuchInput, at most 65,536 were taken beyond the limit.
    ensures reads { ReadsText limit (H.seen host.old) (H.seen host.new) (text_seen result) }
    // If the input is known, the answer is right for the input.
    ensures told { IfSome (H.seen host.old).left
        (λ bytes. IsTextOf limit bytes (text_seen result)) }
    // If the answer is ReadFault, exactly one read failed, the last; with any other answer none failed.
    ensures at_once { ReadsTextOnce (H.seen host.old) (H.seen host.new) (text_seen result) }
    // If no read failed, the whole of it was read, or memory ran out.
    ensures complete { ¬ HasRisen (H.seen host.old).read_faults (H.seen host.new).read_faults
        → IfSome (H.seen host.old).left (λ bytes. IsTextWhole limit bytes (text_seen result)) }
    // What no run changes stays unchanged.
    ensures keeps { KeepsNames (H.seen host.old) (H.seen host.new) }
    ensures rest { OnlyReads (H.seen host.old) (H.seen host.new) }
{
    read_whole(alloc, host, limit)
}

/// As `read_text`, with clauses on what was taken.
fn read_whole<H: Host>(alloc: Global, host: &mut H, limit: u64) -> Result<Vec<u8>, TextError>
    requires limited { limit < 2 ^ 63 }
    requires goes_on { (H.seen host.old).at_end ≡ false }
    ensures reads { ReadsText limit (H.seen host.old) (H.seen host.new) (text_seen result) }
    ensures at_once { ReadsTextOnce (H.seen host.old) (H.seen host.new) (text_seen result) }
    ensures keeps { KeepsNames (H.seen host.old) (H.seen host.new) }
    ensures rest { OnlyReads (H.seen host.old) (H.seen host.new) }
{
    // By law: bytes that are taken one piece after another are taken as one.
    streams_append();
    let mut text = Vec::new(alloc);
    let mut buffer = [0; PIECE];
    let mut room = limit;
    loop {
        let Ok(count) = host.read(&mut buffer) else {
            return Err(TextError::ReadFault);
        };
        if count == 0 {
            return Ok(text);
        }
        if room < count as u64 {
            return Err(TextError::TooMuchInput { limit });
        }
        if text.extend_from_slice(&buffer[..count]).is_err() {
            return Err(TextError::OutOfMemory);
        }
        room -= count as u64;
    }
}
