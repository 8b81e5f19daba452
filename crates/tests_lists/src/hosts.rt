//! The real files, and a host over memory call by call.

ghost use Rattle.std.specs.Prelude.{◌≡◌, false};
ghost use Rattle.osm_host.specs.StreamHost.{stream_outside};

use osm_host::{Faults, Host, StdHost, std_host, write_all_out};
use std::alloc::Global;
use std::fs;
use std::process::Abort;
use std::test::Fail;
use tests_host::MemoryHost;

/// How many bytes a first and a second read give; None for a read that fails, and for those behind it.
fn read_twice(host: &mut StdHost) -> [Option<usize>; 2]
    requires { (stream_outside host.old).at_end ≡ false }
{
    let mut buffer = [0; 8];
    match host.read(&mut buffer) {
        Ok(0) => [Some(0), None],
        Ok(first) => [Some(first), host.read(&mut buffer).ok()],
        Err(_) => [None, None],
    }
}

/// What two reads of an input give; None where it can't be opened.
fn reads(host: &mut StdHost, name: &str) -> Option<[Option<usize>; 2]> {
    match host.open_input(name) {
        Ok(()) => Some(read_twice(host)),
        Err(_) => None,
    }
}

/// The name of an input, and what two reads of it give.
const READS: [(&str, Option<[Option<usize>; 2]>); 3] = [
    ("absent.txt", None),
    ("there.txt", Some([Some(3), Some(0)])),
    // a folder is no input
    (".", Some([None, None])),
];

/// Asserts what inputs give where a file of three bytes is there.
fn assert_read(rt: &impl Abort, host: &mut StdHost) {
    for &(name, told) in &READS {
        assert_eq!(rt; reads(host, name), told, "{name}");
    }
}

/// Whether an input begins with this text.
fn begins_with(host: &mut StdHost, name: &str, text: &[u8]) -> bool {
    let mut buffer = [0; 8];
    match host.open_input(name) {
        Ok(()) => host.read(&mut buffer).is_ok() && buffer.starts_with(text),
        Err(_) => false,
    }
}

/// Whether an output can be opened, and a text written to it and kept.
fn writes(host: &mut StdHost, name: &str, overwrite: bool, text: &str) -> bool {
    host.open_output(name, overwrite).is_ok()
        && write_all_out(host, text.as_bytes()).is_ok()
        && host.keep_output().is_ok()
}

/// Whether a file holds just this text.
fn holds(rt: &HostRuntime, name: &str, text: &str) -> Result<bool, Fail> {
    let held = fs::read_to_string(rt, name)?;
    Ok(held.as_str() == text)
}

#[test]
fn files_are_read_and_written(rt: HostRuntime) -> Result<(), Fail> {
    fs::write(&rt, "there.txt", "abc")?;
    let _ = fs::remove_file(&rt, "new.txt");
    let mut host = std_host(rt.clone()?);
    assert_read(&rt, &mut host);
    assert!(rt; begins_with(&mut host, "there.txt", b"abc"));
    assert!(rt; !writes(&mut host, "there.txt", false, "ab"));
    assert!(rt; holds(&rt, "there.txt", "abc")?, "it is left as it was");
    for (name, overwrite, text) in [("new.txt", false, "first"), ("there.txt", true, "ab")] {
        assert!(rt; writes(&mut host, name, overwrite, text), "{name}");
        assert!(rt; holds(&rt, name, text)?, "{name}");
    }
    Ok(())
}

/// What is answered to a read, a write of six bytes out and one of two to the report, after opens of an input and an
/// output. None for a call that fails, and for a read of an input that isn't opened.
fn call_all(host: &mut MemoryHost) -> [Option<usize>; 3] {
    let mut buffer = [0; 8];
    let read = match host.open_input("in") {
        Ok(()) => host.read(&mut buffer).ok(),
        Err(_) => None,
    };
    let _ = host.open_output("new", false);
    let out = host.write_out(b"abcdef").ok();
    let report = host.write_report(b"gh").ok();
    [read, out, report]
}

/// A host with two inputs of one name and a name that is taken, whose call of this number fails.
fn host_of(alloc: Global, most: usize, room: usize, call: u64) -> Result<MemoryHost, Fail> {
    // Each row's `most` is at least 1, which the check can't read off the table.
    let mut host = MemoryHost::new(alloc, most.max(1));
    host.add_input("in", b"input")?;
    host.add_input("in", b"another")?;
    host.take_name("old")?;
    host.fail_at(call)?;
    host.reserve(room)?;
    Ok(host)
}

/// Whether the calls are answered so, with these counts of failed opens, reads and writes, and the output holds what was
/// written; a name that is taken can't be opened.
fn answers(host: &mut MemoryHost, answers: [Option<usize>; 3], faults: [u64; 3]) -> bool {
    let [opens, reads, writes] = faults;
    let counts = Faults {
        opens,
        reads,
        writes,
    };
    call_all(host) == answers
        && host.faults() == counts
        && host.out().len() == answers[1].unwrap_or(0)
        && host.open_output("old", false).is_err()
}

/// The most bytes of a call, the room, the call that fails, and then the answers and the counts of faults.
const BOUNDS: [(usize, usize, u64, [Option<usize>; 3], [u64; 3]); 8] = [
    (9, 99, 0, [Some(5), Some(6), Some(2)], [0, 0, 0]),
    (2, 99, 0, [Some(2), Some(2), Some(2)], [0, 0, 0]),
    (9, 9, 0, [Some(5), Some(2), None], [0, 0, 1]),
    (9, 3, 0, [Some(5), None, None], [1, 0, 2]),
    (9, 2, 0, [None, Some(2), None], [2, 0, 1]),
    (9, 99, 1, [None, Some(6), Some(2)], [1, 0, 0]),
    (9, 99, 2, [None, Some(6), Some(2)], [0, 1, 0]),
    (9, 99, 5, [Some(5), Some(6), None], [0, 0, 1]),
];

#[test]
fn room_most_and_numbers_bound_a_host_over_memory(rt: HostRuntime) -> Result<(), Fail> {
    for &(most, room, call, wanted, faults) in &BOUNDS {
        let mut host = host_of(rt.alloc(), most, room, call)?;
        assert!(rt;
            answers(&mut host, wanted, faults),
            "most {most}, room {room}, call {call}"
        );
    }
    Ok(())
}
