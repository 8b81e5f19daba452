//! A host over memory, for tests. It tells everything, and each call is exact.

ghost use Rattle.std.specs.Prelude.{◌≡◌, ◌⊎◌, ◌+◌, ◌<◌, ◌≤◌, ◌++◌, [], ◌∷◌, length, take, drop, unwrap_or, IfOk, OnOk, OnErr, IfSome, map, min, is_ok, is_some, not, true, false, ◌-◌};
ghost use Rattle.osm_host.specs.Outside.{input, output, appended, preceded, risen, grown, finds_end, Counts, OnlyOpens, OnlyReads, OnlyWritesOut, OnlyWritesReport};
ghost use Rattle.tests_host.specs.MemoryHost.{left_of_input};
ghost use Rattle.tests_host.specs.Names.{name_and_bytes};
ghost use Rattle.tests_host.specs.Memory.{Memory, bytes_named, outside_of, is_listed, with_open, with_open_fault, input_opens, output_opens, reads, writes};

use crate::names::{NamedBytes, find, may_be_made};
use crate::opens::{Entry, EntryKind, add_front, note_open};
use osm_host::{Failed, Faults, Host, NO_FAULTS, note_fault};
use std::alloc::{AllocError as OutOfMemory, Global};
use std::marker::Model;

/// A host over memory: named inputs, names of outputs that are there already, numbers of calls to fail, the most
/// bytes of a read or write, and a room in bytes.
///
/// All calls of [`Host`] are numbered from 1. A write takes as many bytes as the piece, `most` and the room allow, and
/// the room falls by them. An open takes its name's length and one more off the room and is listed, also where it
/// fails, unless the room is too small for it. `-` is a name like any other, but an output `-` is never refused for
/// being there. Once the room is reserved, no call of [`Host`] takes memory.
#[derive(Drop)]
pub struct MemoryHost {
    alloc: Global,
    inputs: Vec<NamedBytes>,
    taken: Vec<String>,
    fail: Vec<u64>,
    most: usize,
    room: usize,
    call: u64,
    opened: Option<usize>,
    place: usize,
    out: Vec<u8>,
    report: Vec<u8>,
    names: Vec<u8>,
    entries: Vec<Entry>,
    faults: Faults,
    read_failed: bool,
    at_end: bool,
    bytes_read: u64,
}

impl Model for MemoryHost {
    ghost use Rattle.tests_host.specs.Memory.{Memory};

    ghost Value = { Memory };

    ghost use Rattle.tests_host.specs.MemoryHost.{memory_of, IsMemory};

    ghost view = { memory_of };

    ghost invariant = { IsMemory };
}

impl MemoryHost {
    /// A host that holds nothing and has no room; its reads and writes are of at most `most` bytes. It takes no memory.
    pub fn new(alloc: Global, most: usize) -> MemoryHost
        requires { 1 ≤ most }
        ensures { result ≡ record {
          inputs = [];
          taken = [];
          fail = [];
          most = most;
          room = 0;
          call = 1;
          left = [];
          out = [];
          report = [];
          opens = [];
          open_faults = 0;
          read_faults = 0;
          write_faults = 0;
          read_failed = false;
          at_end = false;
          bytes_read = 0;
        } }
    {
        MemoryHost {
            alloc,
            inputs: Vec::new(alloc),
            taken: Vec::new(alloc),
            fail: Vec::new(alloc),
            most,
            room: 0,
            call: 1,
            opened: None,
            place: 0,
            out: Vec::new(alloc),
            report: Vec::new(alloc),
            names: Vec::new(alloc),
            entries: Vec::new(alloc),
            faults: NO_FAULTS,
            read_failed: false,
            at_end: false,
            bytes_read: 0,
        }
    }

    /// Adds an input. Of two with one name the first counts.
    pub fn add_input(&mut self, name: &str, bytes: &[u8]) -> Result<(), OutOfMemory>
        ensures ok { OnOk result (self.new
            ≡ record self.old { inputs = self.old.inputs ++ (name.now, bytes.now) ∷ [] }) }
        ensures err { OnErr result (self.new ≡ self.old) }
    {
        let name = String::from_str(self.alloc, name)?;
        let bytes = Vec::from_slice(self.alloc, bytes)?;
        self.inputs.push(NamedBytes { name, bytes })?;
        Ok(())
    }

    /// Adds the name of an output that is there already.
    pub fn take_name(&mut self, name: &str) -> Result<(), OutOfMemory>
        ensures ok { OnOk result (self.new
            ≡ record self.old { taken = self.old.taken ++ name.now ∷ [] }) }
        ensures err { OnErr result (self.new ≡ self.old) }
    {
        let name = String::from_str(self.alloc, name)?;
        self.taken.push(name)?;
        Ok(())
    }

    /// Lets the call of this number fail, counted from 1.
    pub fn fail_at(&mut self, call: u64) -> Result<(), OutOfMemory>
        ensures ok { OnOk result (self.new
            ≡ record self.old { fail = self.old.fail ++ call ∷ [] }) }
        ensures err { OnErr result (self.new ≡ self.old) }
    {
        self.fail.push(call)?;
        Ok(())
    }

    /// Makes room for so many bytes of names (each with one byte more), output and report together, in place of the room before.
    pub fn reserve(&mut self, bytes: usize) -> Result<(), OutOfMemory>
        ensures ok { OnOk result (self.new ≡ record self.old { room = bytes }) }
        ensures err { OnErr result (self.new ≡ self.old) }
    {
        self.out.reserve(bytes)?;
        self.report.reserve(bytes)?;
        self.names.reserve(bytes)?;
        self.entries.reserve(bytes)?;
        self.room = bytes;
        Ok(())
    }

    /// The bytes that were written to the output, all of them one after the other.
    pub fn out(&self) -> &[u8]
        ensures { result.now ≡ self.now.out }
    {
        self.out.as_slice()
    }

    /// The bytes that were written to the report.
    pub fn report(&self) -> &[u8]
        ensures { result.now ≡ self.now.report }
    {
        self.report.as_slice()
    }

    /// How many calls of each kind have failed.
    pub fn faults(&self) -> Faults
        ensures opens { result.opens ≡ self.now.open_faults }
        ensures reads { result.reads ≡ self.now.read_faults }
        ensures writes { result.writes ≡ self.now.write_faults }
    {
        self.faults
    }
}

/// Counts a call, and says whether its number is one of those that fail.
fn take_number(call: &mut u64, fail: &[u64]) -> bool
    ensures listed { result ≡ is_listed call.old fail.now }
    ensures next { call.new ≡ risen call.old }
{
    let fails = fail.contains(call);
    *call = call.saturating_add(1);
    fails
}

/// Copies as much as `most` and the buffer allow of what is left of the opened input, and says how many bytes these are.
fn read_opened(
    inputs: &[NamedBytes],
    opened: Option<usize>,
    place: &mut usize,
    most: usize,
    buf: &mut [u8],
) -> usize
    requires { IfSome opened (λ index. index < length inputs.now) }
    ensures amount { result
        ≡ min (min (length (left_of_input (map name_and_bytes inputs.now) opened place.old)) (length buf.old)) most }
    ensures taken { left_of_input (map name_and_bytes inputs.now) opened place.old
        ≡ take result buf.new ++ left_of_input (map name_and_bytes inputs.now) opened place.new }
    ensures left { left_of_input (map name_and_bytes inputs.now) opened place.new
        ≡ drop result (left_of_input (map name_and_bytes inputs.now) opened place.old) }
    ensures behind { drop result buf.new ≡ drop result buf.old }
{
    let Some(index) = opened else {
        return 0;
    };
    let bytes = inputs[index].bytes.as_slice();
    let from = (*place).min(bytes.len());
    let count = copy_prefix(buf, &bytes[from..], most);
    *place = from + count;
    count
}

/// Copies as many bytes as `most` and the buffer allow, and says how many these are.
fn copy_prefix(buf: &mut [u8], bytes: &[u8], most: usize) -> usize
    ensures amount { result ≡ min (min (length bytes.now) (length buf.old)) most }
    ensures copied { take result buf.new ≡ take result bytes.now }
    ensures behind { drop result buf.new ≡ drop result buf.old }
{
    let count = bytes.len().min(buf.len()).min(most);
    buf[..count].copy_from_slice(&bytes[..count]);
    count
}

impl Host for MemoryHost {
    ghost seen = { outside_of };

    fn open_input(&mut self, name: &str) -> Result<(), Failed>
        ensures listed { OnOk result ((outside_of self.new).opens
            ≡ appended (outside_of self.old).opens (input name.now ∷ [])) }
        ensures listed_or_not { OnErr result (((outside_of self.new).opens
            ≡ appended (outside_of self.old).opens (input name.now ∷ []))
            ⊎ ((outside_of self.new).opens ≡ (outside_of self.old).opens)) }
        ensures begins { OnOk result ((outside_of self.new).left
            ≡ (outside_of self.old).named name.now) }
        ensures none_read { OnOk result ((outside_of self.new).bytes_read ≡ 0) }
        ensures goes_on { OnOk result ((outside_of self.new).at_end ≡ false) }
        ensures told { is_some (outside_of self.new).left ≡ is_some (outside_of self.old).left }
        ensures cause { Counts (outside_of self.old).open_faults
            (outside_of self.new).open_faults result }
        ensures rest { OnlyOpens (outside_of self.old) (outside_of self.new) }
        ensures exact { is_ok result ≡ input_opens self.old name.now }
        ensures after { OnOk result (self.new
            ≡ record (with_open self.old (input name.now) (length name.now))
            { left = unwrap_or (bytes_named self.old.inputs name.now) []; at_end = false; bytes_read = 0 }) }
        ensures after_fault { OnErr result (self.new
            ≡ with_open_fault (with_open self.old (input name.now) (length name.now))) }
    {
        let fails = take_number(&mut self.call, &self.fail);
        let has_room = note_open(
            &mut self.room,
            &mut self.names,
            &mut self.entries,
            EntryKind::Input,
            name,
        );
        match find(&self.inputs, name) {
            Some(index) if has_room && !fails => {
                self.opened = Some(index);
                self.place = 0;
                self.at_end = false;
                self.bytes_read = 0;
                Ok(())
            }
            _ => Err(note_fault(&mut self.faults.opens)),
        }
    }

    fn read(&mut self, buf: &mut [u8]) -> Result<usize, Failed>
        requires goes_on { (outside_of self.old).at_end ≡ false }
        ensures count { IfOk result (λ n. n ≤ length buf.old) }
        ensures taken { IfOk result (λ n. (outside_of self.old).left
            ≡ preceded (take n buf.new) (outside_of self.new).left) }
        ensures ended { result ≡ Ok 0 → 0 < length buf.old
            → IfSome (outside_of self.old).left (λ left. left ≡ []) }
        ensures at_end { (outside_of self.new).at_end ≡ finds_end result (length buf.old) }
        ensures failed { OnErr result ((outside_of self.new).left ≡ (outside_of self.old).left) }
        ensures empty { length buf.old ≡ 0 → result ≡ Ok 0 }
        ensures last { (outside_of self.new).read_failed ≡ not (is_ok result) }
        ensures counted { IfOk result
            (λ n. (outside_of self.new).bytes_read ≡ grown (outside_of self.old).bytes_read n) }
        ensures none_counted { OnErr result ((outside_of self.new).bytes_read
            ≡ (outside_of self.old).bytes_read) }
        ensures cause { Counts (outside_of self.old).read_faults
            (outside_of self.new).read_faults result }
        ensures rest { OnlyReads (outside_of self.old) (outside_of self.new) }
        ensures exact { is_ok result ≡ reads self.old (length buf.old) }
        ensures amount { IfOk result
            (λ n. n ≡ min (min (length self.old.left) (length buf.old)) self.old.most) }
        ensures after { IfOk result (λ n. self.new ≡ record self.old {
          call = risen self.old.call;
          left = drop n self.old.left;
          read_failed = false;
          at_end = finds_end result (length buf.old);
          bytes_read = grown self.old.bytes_read n;
        }) }
        ensures after_fault { OnErr result (self.new ≡ record self.old {
          call = risen self.old.call;
          read_faults = risen self.old.read_faults;
          read_failed = true;
        }) }
        ensures behind { IfOk result (λ n. drop n buf.new ≡ drop n buf.old) }
        ensures buffer_after_fault { OnErr result (buf.new ≡ buf.old) }
    {
        let fails = take_number(&mut self.call, &self.fail);
        self.read_failed = fails && !buf.is_empty();
        if buf.is_empty() {
            return Ok(0);
        }
        if fails {
            return Err(note_fault(&mut self.faults.reads));
        }
        let count = read_opened(&self.inputs, self.opened, &mut self.place, self.most, buf);
        self.at_end = count == 0;
        self.bytes_read = self.bytes_read.saturating_add(count as u64);
        Ok(count)
    }

    fn open_output(&mut self, name: &str, overwrite: bool) -> Result<(), Failed>
        ensures listed { OnOk result ((outside_of self.new).opens
            ≡ appended (outside_of self.old).opens (output name.now overwrite ∷ [])) }
        ensures listed_or_not { OnErr result (((outside_of self.new).opens
            ≡ appended (outside_of self.old).opens (output name.now overwrite ∷ []))
            ⊎ ((outside_of self.new).opens ≡ (outside_of self.old).opens)) }
        ensures left { (outside_of self.new).left ≡ (outside_of self.old).left }
        ensures bytes_read { (outside_of self.new).bytes_read ≡ (outside_of self.old).bytes_read }
        ensures at_end { (outside_of self.new).at_end ≡ (outside_of self.old).at_end }
        ensures cause { Counts (outside_of self.old).open_faults
            (outside_of self.new).open_faults result }
        ensures rest { OnlyOpens (outside_of self.old) (outside_of self.new) }
        ensures exact { is_ok result ≡ output_opens self.old name.now overwrite }
        ensures after { OnOk result (self.new
            ≡ with_open self.old (output name.now overwrite) (length name.now)) }
        ensures after_fault { OnErr result (self.new
            ≡ with_open_fault (with_open self.old (output name.now overwrite) (length name.now))) }
    {
        let fails = take_number(&mut self.call, &self.fail);
        let has_room = note_open(
            &mut self.room,
            &mut self.names,
            &mut self.entries,
            EntryKind::Output(overwrite),
            name,
        );
        if fails || !has_room || !may_be_made(&self.taken, name, overwrite) {
            return Err(note_fault(&mut self.faults.opens));
        }
        Ok(())
    }

    fn write_out(&mut self, bytes: &[u8]) -> Result<usize, Failed>
        ensures count { IfOk result (λ n. n ≤ length bytes.now) }
        ensures some { 0 < length bytes.now → IfOk result (λ n. 0 < n) }
        ensures written { IfOk result (λ n. (outside_of self.new).out
            ≡ appended (outside_of self.old).out (take n bytes.now)) }
        ensures failed { OnErr result ((outside_of self.new).out ≡ (outside_of self.old).out) }
        ensures empty { length bytes.now ≡ 0 → result ≡ Ok 0 }
        ensures cause { Counts (outside_of self.old).write_faults
            (outside_of self.new).write_faults result }
        ensures rest { OnlyWritesOut (outside_of self.old) (outside_of self.new) }
        ensures exact { is_ok result ≡ writes self.old (length bytes.now) }
        ensures amount { IfOk result
            (λ n. n ≡ min (min (length bytes.now) self.old.most) self.old.room) }
        ensures after { IfOk result (λ n. self.new ≡ record self.old {
          call = risen self.old.call;
          room = self.old.room - n;
          out = self.old.out ++ take n bytes.now;
        }) }
        ensures after_fault { OnErr result (self.new ≡ record self.old {
          call = risen self.old.call;
          write_faults = risen self.old.write_faults;
        }) }
    {
        let fails = take_number(&mut self.call, &self.fail);
        if bytes.is_empty() {
            return Ok(0);
        }
        if fails || self.room == 0 {
            return Err(note_fault(&mut self.faults.writes));
        }
        Ok(add_front(&mut self.out, &mut self.room, self.most, bytes))
    }

    fn keep_output(&mut self) -> Result<(), Failed>
        ensures written { (outside_of self.new).out ≡ (outside_of self.old).out }
        ensures cause { Counts (outside_of self.old).write_faults
            (outside_of self.new).write_faults result }
        ensures rest { OnlyWritesOut (outside_of self.old) (outside_of self.new) }
        ensures exact { is_ok result ≡ not (is_listed self.old.call self.old.fail) }
        ensures after { OnOk result (self.new ≡ record self.old { call = risen self.old.call }) }
        ensures after_fault { OnErr result (self.new ≡ record self.old {
          call = risen self.old.call;
          write_faults = risen self.old.write_faults;
        }) }
    {
        if take_number(&mut self.call, &self.fail) {
            return Err(note_fault(&mut self.faults.writes));
        }
        Ok(())
    }

    fn write_report(&mut self, bytes: &[u8]) -> Result<usize, Failed>
        ensures count { IfOk result (λ n. n ≤ length bytes.now) }
        ensures some { 0 < length bytes.now → IfOk result (λ n. 0 < n) }
        ensures written { IfOk result (λ n. (outside_of self.new).report
            ≡ appended (outside_of self.old).report (take n bytes.now)) }
        ensures failed { OnErr result ((outside_of self.new).report
            ≡ (outside_of self.old).report) }
        ensures empty { length bytes.now ≡ 0 → result ≡ Ok 0 }
        ensures cause { Counts (outside_of self.old).write_faults
            (outside_of self.new).write_faults result }
        ensures rest { OnlyWritesReport (outside_of self.old) (outside_of self.new) }
        ensures exact { is_ok result ≡ writes self.old (length bytes.now) }
        ensures amount { IfOk result
            (λ n. n ≡ min (min (length bytes.now) self.old.most) self.old.room) }
        ensures after { IfOk result (λ n. self.new ≡ record self.old {
          call = risen self.old.call;
          room = self.old.room - n;
          report = self.old.report ++ take n bytes.now;
        }) }
        ensures after_fault { OnErr result (self.new ≡ record self.old {
          call = risen self.old.call;
          write_faults = risen self.old.write_faults;
        }) }
    {
        let fails = take_number(&mut self.call, &self.fail);
        if bytes.is_empty() {
            return Ok(0);
        }
        if fails || self.room == 0 {
            return Err(note_fault(&mut self.faults.writes));
        }
        Ok(add_front(&mut self.report, &mut self.room, self.most, bytes))
    }
}
