//! An opened input, read to its end into a store.

ghost use Rattle.std.specs.Prelude.{◌≡◌, ◌<◌, ◌^◌, [], false, Err, IfErr, IfSome, OnOk};
ghost use Rattle.opl_reader.specs.Reader.{new_reader};
ghost use Rattle.osm_host.specs.Outside.{HasRisen, OnlyReads};
ghost use Rattle.osm_input.specs.Keeps.{KeepsNames};
ghost use Rattle.osm_input.specs.PieceSteps.{HasTakenAll};
ghost use Rattle.osm_input.specs.Reading.{IsReadOf, IsReadWhole, Reads, ReadsOnce};

use crate::fault::InputFault;
use crate::pieces::{finish, read_piece};
use opl_reader::Lines;
use osm_host::{Host, streams_append};
use osm_objects::Store;
use std::alloc::Global;

/// How many bytes are read at a time.
pub(crate) const PIECE: usize = 65536;

/// Why an input isn't read into a store.
#[derive(Clone, Copy, Debug, PartialEq, Eq)]
pub enum ReadError {
    /// A line, counted from 1, is the bad place of the input.
    BadInput { line: u64, fault: InputFault },
    /// The input has more bytes than this limit.
    TooMuchInput { limit: u64 },
    /// A read failed.
    ReadFault,
    /// Memory ran out.
    OutOfMemory,
}

/// Reads the opened input to its end into a store, in pieces of at most 65,536 bytes.
///
/// A line of more than `longest` bytes, one without a reading and one that tells a live object again are bad. The first of
/// them is reported, as soon as the piece that shows it is taken.
///
/// If a read fails or the input exceeds `limit`, an unfinished line counts only if it is too long already. A bad line is
/// reported before the fault. The only parts of the input that are held are the store, a piece, and the unfinished line.
pub fn read_all<H: Host>(
    alloc: Global,
    host: &mut H,
    limit: u64,
    longest: u64,
) -> Result<Store, ReadError>
    requires limited { limit < 2 ^ 63 }
    // No read follows one that found the end.
    requires goes_on { (H.seen host.old).at_end ≡ false }
    // The answer is right for the bytes that were taken from the input.
    // For a bad line, fewer than 65,536 were taken beyond the byte that ended it or made it too long. For TooMuchInput, at
    // most 65,536 were taken beyond the limit.
    ensures reads { Reads limit longest (H.seen host.old) (H.seen host.new) result }
    // If the input is known, the answer is right for the input.
    ensures told { IfSome (H.seen host.old).left (λ bytes. IsReadOf limit longest bytes result) }
    // If the answer is ReadFault, exactly one read failed, the last; with any other answer none failed.
    ensures at_once { ReadsOnce (H.seen host.old) (H.seen host.new) result }
    // If no read failed, the whole of it was read, or memory ran out.
    ensures complete { ¬ HasRisen (H.seen host.old).read_faults (H.seen host.new).read_faults
        → IfSome (H.seen host.old).left (λ bytes. IsReadWhole limit longest bytes result) }
    // What no run changes stays unchanged.
    ensures keeps { KeepsNames (H.seen host.old) (H.seen host.new) }
    ensures rest { OnlyReads (H.seen host.old) (H.seen host.new) }
{
    read_pieces(alloc, host, limit, longest)
}

/// As `read_all`, with clauses on what was taken.
fn read_pieces<H: Host>(
    alloc: Global,
    host: &mut H,
    limit: u64,
    longest: u64,
) -> Result<Store, ReadError>
    requires limited { limit < 2 ^ 63 }
    requires goes_on { (H.seen host.old).at_end ≡ false }
    ensures reads { Reads limit longest (H.seen host.old) (H.seen host.new) result }
    ensures at_once { ReadsOnce (H.seen host.old) (H.seen host.new) result }
    ensures keeps { KeepsNames (H.seen host.old) (H.seen host.new) }
    ensures rest { OnlyReads (H.seen host.old) (H.seen host.new) }
{
    let mut lines = Lines::new(alloc, longest);
    let mut store = Store::new(alloc);
    if let Err(error) = take_pieces(host, limit, &mut lines, &mut store) {
        return Err(error);
    }
    finish(lines, store)
}

/// Takes the opened input piece by piece to its end: the objects of whole lines go into the store.
fn take_pieces<H: Host>(
    host: &mut H,
    limit: u64,
    lines: &mut Lines,
    store: &mut Store,
) -> Result<(), ReadError>
    requires limited { limit < 2 ^ 63 }
    requires goes_on { (H.seen host.old).at_end ≡ false }
    requires begins { lines.old ≡ new_reader lines.old.longest }
    requires empty { store.old ≡ [] }
    ensures taken { OnOk result (HasTakenAll limit lines.old.longest
        (H.seen host.old) (H.seen host.new) lines.new store.new) }
    ensures refused { IfErr result (λ e.
        Reads limit lines.old.longest (H.seen host.old) (H.seen host.new) (Err e)) }
    ensures no_fault { OnOk result ((H.seen host.new).read_faults ≡ (H.seen host.old).read_faults) }
    ensures at_once { IfErr result (λ e. ReadsOnce (H.seen host.old) (H.seen host.new) (Err e)) }
    ensures keeps { KeepsNames (H.seen host.old) (H.seen host.new) }
    ensures rest { OnlyReads (H.seen host.old) (H.seen host.new) }
{
    // By law: bytes that are taken one piece after another are taken as one.
    streams_append();
    let mut buffer = [0; PIECE];
    let mut room = limit;
    loop {
        let Ok(count) = host.read(&mut buffer) else {
            return Err(ReadError::ReadFault);
        };
        if count == 0 {
            return Ok(());
        }
        let within = room.min(count as u64);
        if let Err(error) = read_piece(lines, store, &buffer[..within as usize]) {
            return Err(error);
        }
        if within < count as u64 {
            return Err(ReadError::TooMuchInput { limit });
        }
        room -= within;
    }
}
